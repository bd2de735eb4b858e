// The memory of cells: its types here; in specs/ what each call does, what a sound memory is and what is promised of it.
#![tactic(auto)]

// A cell with its fields, and the heads of the two chains.
mod cell;
// The refusals that the cells find.
mod faults;
// The two kinds of leaf in use.
mod leaf;
// What a look shows.
mod shown;

pub use cell::{Cell, Field, Heads, MOST, NO_LINK};
pub use faults::{DAMAGED, NO_FREE_CELL};
pub use leaf::{Item, Placement};
pub use shown::{Part, Shown};
