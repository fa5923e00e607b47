//! A log of a search and what it means: a case, boxes of indices, hints, the walk through the lines, and what a solver
//! owes for its log.
#![tactic(auto)]

mod cond;
mod conds;
mod hint;
mod laws;
mod line;
mod lines;
mod log;
mod names;
mod operand;
mod reading;
mod verdict;
mod words;
mod writing;

pub use cond::Cond;
pub use conds::Conds;
pub use hint::Hint;
pub use laws::{closed_walk_has_no_plan, sets_are_tested, settled_box_is_closed};
pub use line::{Cut, LogLine};
pub use log::{Log, LogText, read_log};
pub use names::Names;
pub use verdict::{Cause, Verdict};
pub use writing::line_text;
