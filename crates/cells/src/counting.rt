ghost use Rattle.std.specs.Prelude.{◌≡◌, List, ℕ};
ghost use Rattle.cells_theory.specs.declared.cell.Heads.{Heads as Chains};
ghost use Rattle.cells_theory.specs.Memory.{memory};
ghost use Rattle.cells_theory.specs.Look.{count_answer};
ghost use Rattle.cells_theory.specs.Sound.{Sound};
ghost use Rattle.cells_theory.specs.Promises.{CountPromises};

use cells_theory::Cell;

// The count of cell c, and of a number that is no cell's 0: so the contract says, and in a sound memory nothing names it.
fn read_count(cells: &[Cell], c: u32) -> u32
    ensures { result ≡ count_answer cells.now c }
{
    cells.get(c as usize).map_or(0, |cell| cell.count)
}

// The count of cell c, 0 for a number that is no cell's. In a sound memory it is positive where an outside name reaches the cell, and
// never above the number of all fields and outside names.
pub fn count(cells: &[Cell], c: u32) -> u32
    ensures value { result ≡ count_answer cells.now c }
    ensures promises { (h : Chains) (names : List ℕ) → Sound (memory h cells.now) names → CountPromises (memory h cells.now) names c result }
{
    read_count(cells, c)
}
