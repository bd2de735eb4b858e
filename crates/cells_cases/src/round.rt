ghost use Rattle.std.specs.Prelude.{◌<◌, ◌≤◌, [], ◌∷◌, length};
ghost use Rattle.cells_theory.specs.Memory.{memory, none};
ghost use Rattle.cells_theory.specs.Sound.{Sound};

use cells::{build, let_go, make, sweep};
use cells_theory::{Cell, Field, Heads};

// Makes a memory, builds a cell that names cell 0 twice, lets go of it and sweeps it. Whatever is refused, the memory is sound
// afterwards, and the outside names cell 0 alone.
pub fn make_and_sweep<T: Copy>(cells: &mut [Cell], leaves: &mut [T], leaf: T) -> Heads
    ensures { 0 < length cells.new → length cells.new ≤ none → 0 < length leaves.new → Sound (memory result cells.new) (0 ∷ []) }
{
    let mut heads = make(cells, leaves, leaf);
    let twice = [
        Field::Cell(0),
        Field::Empty,
        Field::Number(5),
        Field::Cell(0),
    ];
    let built = build(cells, leaves, &mut heads, twice, leaf);
    if let Ok(c) = built {
        let_go(cells, &mut heads, c);
    }
    let _ = sweep(cells, leaves, &mut heads);
    heads
}
