//! What a case wants of a run.

use crate::given::Outcome;
use std::alloc::Global;

/// The wanted status and output.
#[derive(Drop)]
pub(crate) struct Wanted {
    /// The exit status.
    pub(crate) status: usize,
    /// What the output begins with, where a gap follows, for which anything may stand.
    pub(crate) front: Option<Vec<u8>>,
    /// The whole output, or its end behind the gap.
    pub(crate) output: Vec<u8>,
}

impl Wanted {
    /// Status 0 and no output.
    pub(crate) fn new(alloc: Global) -> Wanted {
        Wanted {
            status: 0,
            front: None,
            output: Vec::new(alloc),
        }
    }

    /// Whether an outcome is what is wanted.
    pub(crate) fn is_met(&self, outcome: &Outcome) -> bool {
        outcome.status == self.status && self.is_written(outcome.written.as_slice())
    }

    /// Whether an output is what is wanted.
    fn is_written(&self, written: &[u8]) -> bool {
        let output = self.output.as_slice();
        let Some(front) = &self.front else {
            return written == output;
        };
        let room = written.len().saturating_sub(front.len());
        output.len() <= room && written.starts_with(front.as_slice()) && written.ends_with(output)
    }
}
