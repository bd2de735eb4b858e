// A schedule's lines: the calls that they ask for, and how they are read.
#![tactic(auto)]

// The calls that a line can ask for.
mod call;
// Reads a line.
mod line;
// The pieces of a line: numbers, and what stands before and behind a mark.
mod text;

pub use call::{Call, Kind};
pub use line::read;
pub use text::number;
