//! What a script line means, and the texts of a show.
#![tactic(auto)]

mod command;
mod command_lines;
mod decimal_text;
mod edit;
mod edit_text;
mod free;
mod operand;
mod separator;
mod show_law;
mod show_lines;
mod words;
mod writing;

pub use command::{Command, UnknownLine, read_command};
pub use free::free_text;
pub use show_law::{edits_stay_textual, lines_make_show, text_has_lines};
pub use show_lines::show_text;
pub use writing::command_text;
