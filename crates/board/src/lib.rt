// The plain state of the announcement keeper, and each step that a program takes on it.
#![tactic(auto)]

// Reading and writing the plain state.
mod access;
// The plain state.
mod board;
// The steps of a close.
mod closing;
// What a step reads of an announcement or a slot, and a slot in another status.
mod marks;
// The beginnings of the operations, and a step of any of them.
mod moves;
// The steps of an offer.
mod offering;
// The steps of an open.
mod opening;

pub use board::Board;
pub use marks::version_in;
