// The theory of the announcement keeper: the plain parts that its state is made of. What the keeper does with them, and the proof
// that it does it well, stand in specs and proofs.
#![tactic(auto)]

// What a program announces.
mod announcement;
// A version as this keeper names it.
mod mark;
// Where a program stands, and the labels.
mod position;
// A program's place: its position and its announcement.
mod seat;
// What a slot holds.
mod slot;

pub use announcement::Announcement;
pub use mark::Mark;
pub use position::{Attempt, CloseLabel, Label, Offer, OfferLabel, OpenLabel, Position, Round};
pub use seat::Seat;
pub use slot::{Status, Stored};
