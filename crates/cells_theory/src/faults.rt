use keeper::{Fault, Layer, Refusal};

// Refusal 14: no cell is free.
pub const NO_FREE_CELL: Fault = Fault {
    refusal: Refusal::NoFreeCell,
    layer: Layer::Cells,
};

// Refusal 16: a number to be followed is no cell's, or a count to be raised is too high.
pub const DAMAGED: Fault = Fault {
    refusal: Refusal::Damaged,
    layer: Layer::Cells,
};
