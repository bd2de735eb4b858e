// The announcement keeper: no lock is held, and each operation ends within a fixed number of its program's own steps.
#![tactic(auto)]

// The making, and what each call does to the state, exactly.
mod calls;
// The keeper interface, by the calls above.
mod keep;
// The label at which a program stands.
mod label;
// What an enquiry reads of a slot.
mod marks;
// The whole state in one line.
mod show;
// The stage of a program, by its seat.
mod stages;
// The keeper: a board with what always holds of it.
mod state;

pub use state::Announcing;
