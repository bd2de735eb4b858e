// The exchange: the types of its calls and answers and its plain data here; in specs/ what each call does, what a run tells by calls and
// answers alone, and what is promised of every run.
#![tactic(auto)]

// A call, its sources, and its answer.
mod calls;
// The kinds of call on a program.
mod column;
// What an exchange holds beside its keeper.
mod desk;
// The rows of all programs.
mod places;
// What is held for one program.
mod row;

pub use calls::{Answer, Call, Source};
pub use column::Column;
pub use desk::Desk;
pub use places::Places;
pub use row::Row;
