// Worked cases of the memory of cells, with both kinds of leaf.
#![tactic(auto)]

// Worked cases, as tests.
#[cfg(test)]
mod cases;
// Calls in a row, over any memory lent.
mod round;

pub use round::make_and_sweep;
