//! What is said of a case that came to something else than it says.

use crate::fault::Fault;
use crate::given::Outcome;
use crate::wanted::Wanted;
use std::str;

/// The bytes of an output that are shown at most.
const MOST_SHOWN: usize = 4000;

/// Appends the name of a case, what it wants, and what came of it.
pub(crate) fn add_difference(
    report: &mut String,
    name: &str,
    wanted: &Wanted,
    outcome: &Outcome,
) -> Result<(), Fault> {
    write!(report, "case {name}\nwanted status {}\n", wanted.status)?;
    if let Some(front) = &wanted.front {
        show(report, front.as_slice())?;
        report.push_str(">..\n")?;
    }
    show(report, wanted.output.as_slice())?;
    write!(report, "got status {}\n", outcome.status)?;
    show(report, outcome.written.as_slice())
}

/// Appends the front of bytes as the lines of a wanted output; what stands behind the last line feed is a line too.
fn show(report: &mut String, bytes: &[u8]) -> Result<(), Fault> {
    let front = bytes.get(..MOST_SHOWN).unwrap_or(bytes);
    let text = str::from_utf8(front).unwrap_or("bytes that are no text");
    for line in text.split('\n') {
        report.push_str("> ")?;
        report.push_str(line)?;
        report.push('\n')?;
    }
    Ok(())
}
