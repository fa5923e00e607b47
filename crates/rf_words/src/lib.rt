//! The words of the command line, read with `clap`.
#![tactic(auto)]

mod asked;
mod word;
mod words;

pub use asked::Asked;
pub use word::Word;
pub use words::{WordsFault, read_words};
