//! Sessions: lines are read, answered by a machine, and the replies are written.
#![tactic(auto)]

mod answer;
mod check;
mod clean;
mod demo;
mod file;
mod file_edit;
mod file_fault;
mod finding;
mod inquiry;
mod judge;
mod machine;
mod reply;
mod search;
mod session;
mod show_file;
mod show_machine;
mod top;
mod words;

pub use clean::run_clean;
pub use top::run;
