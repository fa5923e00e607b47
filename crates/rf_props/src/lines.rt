//! The nogood lines that a theory holds.

ghost use Rattle.std.specs.Prelude.{◌≡◌, [], ◌∷◌, ◌++◌, Some, None, MatchOption, OnOk, OnErr};
ghost use Rattle.std.specs.List.Sorted.{IsStrictlyIncreasing};
ghost use Rattle.rf_log.specs.Hints.{line_at};
ghost use Rattle.rf_propagate.specs.Laws.{numbers_of};
ghost use Rattle.rf_props.specs.Ranges.{AreBelow};

use rf_base::{Items, NoMemory};
use rf_log::Cond;
use std::alloc::Global;
use std::marker::Model;

/// A nogood line: its number and its conditions.
#[derive(Drop)]
pub struct HeldLine {
    number: u32,
    conds: Items<Cond>,
}

impl Model for HeldLine {
    ghost use Rattle.rf_log.specs.Hints.{Line};

    ghost Value = { Line };

    ghost view = { λ l. record { number = l.number; conds = l.conds } };
}

/// Nogood lines. Contracts see the list.
#[derive(Drop)]
pub struct Lines {
    alloc: Global,
    lines: Vec<HeldLine>,
}

impl Model for Lines {
    ghost use Rattle.std.specs.Prelude.{List};
    ghost use Rattle.rf_log.specs.Hints.{Line};

    ghost Value = { List Line };

    ghost view = { λ l. l.lines.items };
}

impl Lines {
    /// No line yet.
    pub fn new(alloc: Global) -> Lines
        ensures { result ≡ [] }
    {
        Lines {
            alloc,
            lines: Vec::new(alloc),
        }
    }

    /// Where their memory comes from.
    pub(crate) fn alloc(&self) -> Global {
        self.alloc
    }

    // How many lines have a number below this one.
    fn count_below(&self, number: u32) -> usize
        requires { IsStrictlyIncreasing (numbers_of self.now) }
        ensures { AreBelow (numbers_of self.now) number result }
    {
        let lines = self.lines.as_slice();
        let mut from = 0;
        let mut upto = lines.len();
        while from < upto {
            let middle = from + (upto - from) / 2;
            let line = &lines[middle];
            if line.number < number {
                from = middle + 1;
            } else {
                upto = middle;
            }
        }
        from
    }

    /// The conditions of the line of that number. None where no line has it.
    pub fn find(&self, number: u32) -> Option<&[Cond]>
        requires { IsStrictlyIncreasing (numbers_of self.now) }
        ensures { MatchOption result (line_at self.now number ≡ None) (λ conds. line_at self.now number ≡ Some conds.now) }
    {
        let lines = self.lines.as_slice();
        let place = self.count_below(number);
        if place >= lines.len() {
            return None;
        }
        let line = &lines[place];
        if line.number != number {
            return None;
        }
        Some(line.conds.as_slice())
    }

    /// Adds a line at the end. `NoMemory` where no memory is found, which leaves them unchanged.
    pub fn push(&mut self, number: u32, conds: &[Cond]) -> Result<(), NoMemory>
        ensures ok { OnOk result (self.new ≡ self.old ++ record { number = number; conds = conds.now } ∷ []) }
        ensures err { OnErr result (self.new ≡ self.old) }
    {
        let conds = Items::from_vec(Vec::from_slice(self.alloc, conds)?);
        self.lines.push(HeldLine { number, conds })?;
        Ok(())
    }
}
