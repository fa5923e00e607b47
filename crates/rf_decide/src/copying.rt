//! Copies of log lines.

ghost use Rattle.std.specs.Prelude.{◌≡◌, IfOk};

use rf_base::{Items, NoMemory};
use rf_log::{Cond, Conds, Hint, LogLine};
use std::alloc::Global;

/// The same line again. `NoMemory` where no memory is found.
pub(crate) fn copy_of(alloc: Global, line: &LogLine) -> Result<LogLine, NoMemory>
    ensures { IfOk result (λ copy. copy ≡ line.now) }
{
    match line {
        LogLine::Nogood { conds, hints } => {
            let conds = conds_of(alloc, conds.as_slice())?;
            let hints = Items::from_vec(hints_of(alloc, hints.as_slice())?);
            Ok(LogLine::Nogood { conds, hints })
        }
        LogLine::Branch { cut, carrier, at } => Ok(LogLine::Branch {
            cut: *cut,
            carrier: *carrier,
            at: *at,
        }),
        LogLine::Up { line } => Ok(LogLine::Up { line: *line }),
    }
}

fn conds_of(alloc: Global, conds: &[Cond]) -> Result<Conds, NoMemory>
    ensures { IfOk result (λ copy. copy ≡ conds.now) }
{
    let mut copy = Conds::new(alloc);
    for cond in conds {
        copy.push(*cond)?;
    }
    Ok(copy)
}

fn hints_of(alloc: Global, hints: &[Hint]) -> Result<Vec<Hint>, NoMemory>
    ensures { IfOk result (λ copy. copy.items ≡ hints.now) }
{
    let mut copy = Vec::with_capacity(alloc, hints.len())?;
    copy.extend_from_slice(hints)?;
    Ok(copy)
}
