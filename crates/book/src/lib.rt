// Books: the text form of a project, read into lent tables and written from them.
#![tactic(auto)]

mod lines;
mod reader;
mod words;
mod writer;

pub use reader::{MOST_BYTES, read};
pub use writer::write;
