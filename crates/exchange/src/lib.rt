// The exchange: programs publish and read versions of trees of cells, over any keeper of versions and over lent memory. Each call's
// contract is exact: which answer, which refusal first, and what is changed. Cells and leaves are parameters of their own, since each call
// borrows only what it needs: some read both, some change cells alone, some change both.
#![tactic(auto)]

// What every call on a program is tried for first.
mod admitting;
// Building a cell.
mod building;
// A call by its value.
mod dispatching;
// The exchange itself.
mod exchange;
// Refusals that the exchange finds.
mod faults;
// The calls that turn to the keeper.
mod keeping;
// Letting go of what places name.
mod letting;
// Making an exchange.
mod making;
// Another row in the table of places.
mod placing;
// The calls that read.
mod reading;
// What the fields of a new cell are taken from.
mod sourcing;
// Freeing a waiting cell.
mod sweeping;
// Which call a stage allows.
mod table;
// A making that was refused.
mod unmade;

pub use exchange::Exchange;
pub use table::allowed;
pub use unmade::Unmade;
