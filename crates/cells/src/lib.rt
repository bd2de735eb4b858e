// The calls of the memory of cells, over lent slices of cells and leaves. Each is total on any memory, and its contract is exact.
// Beside that, each promises that a sound memory stays sound.
//
// Cells, leaves and heads are parameters of their own: a look borrows cells and leaves to read, letting go and a sweep cells to change,
// a build both to change. One struct with all three would ask every caller for more than its call needs.
//
// Each call is a pair of functions: of the inner one the exact effect is proved, so that a wrong body is refused there; the public one
// adds, by one lemma, what is promised of a sound memory.
#![tactic(auto)]

// Filling the first free cell.
mod building;
// Asking for a count.
mod counting;
// Letting go of a cell.
mod letting_go;
// Following a field, and looking at a cell.
mod looking;
// Making a fresh memory.
mod making;
// Raising counts.
mod raising;
// Sweeping the first waiting cell.
mod sweeping;

pub use building::build;
pub use counting::count;
pub use letting_go::let_go;
pub use looking::{field, look};
pub use making::make;
pub use sweeping::sweep;
