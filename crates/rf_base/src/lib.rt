//! What everything stands on: names, numbers and frequencies; the outside, where bytes come from and go to; and the
//! lines among them.
#![tactic(auto)]

mod asks;
mod byte_reader;
mod clean;
mod decimal;
mod fault_counts;
mod file_name;
mod items;
mod khz;
mod line_buffer;
mod line_reader;
mod mem;
mod mem_shelf;
mod name;
mod outside;
mod piece;
mod real;
mod shelf;
mod status;

pub use asks::Asked;
pub use clean::{CleanShelf, CleanSink, CleanSource};
pub use decimal::{Decimal, read_decimal, read_number};
pub use file_name::FileName;
pub use items::Items;
pub use khz::Khz;
pub use line_reader::{LineReader, Next};
pub use mem::{MemSink, MemSource};
pub use mem_shelf::MemShelf;
pub use name::Name;
pub use outside::{Failed, NoMemory, Sink, Source};
pub use piece::put;
pub use real::{FolderShelf, StdSink, StdSource};
pub use shelf::{Fetch, Shelf};
pub use status::Status;
