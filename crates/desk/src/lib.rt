// What the calls of a schedule go to, and what they answer.
#![tactic(auto)]

// What a line is answered.
mod answer;
// The keeper that was made last.
mod desk;
// The label of a step, of either keeper.
mod label;
// A call carried out on any keeper.
mod calls;
// A keeper whose labels can be shown.
mod screen;
// How many lines were calls, refused or unreadable.
mod tally;

pub use answer::Answer;
pub use calls::perform;
pub use desk::Desk;
pub use label::Label;
pub use screen::Screen;
pub use tally::Tally;
