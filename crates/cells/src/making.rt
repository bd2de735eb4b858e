ghost use Rattle.std.specs.Prelude.{◌≡◌, length};
ghost use Rattle.cells_theory.specs.Memory.{memory};
ghost use Rattle.cells_theory.specs.Promises.{MakePromises};
ghost use Rattle.cells_theory.specs.Make.{next as following, fresh_cell, Fresh, fresh_heads, fresh_leaves};

use cells_theory::{Cell, Field, Heads, NO_LINK};

// The cell after cell i of n.
fn next(n: usize, i: usize) -> u32
    ensures { result ≡ following n i }
{
    if i < n.saturating_sub(1) && i < NO_LINK as usize - 1 {
        (i + 1) as u32
    } else {
        NO_LINK
    }
}

// Cell i of n in a fresh memory.
fn fresh_cell(n: usize, i: usize) -> Cell
    ensures { result ≡ fresh_cell n i }
{
    let fields = [Field::Empty; 4];
    if i == 0 {
        Cell {
            count: 1,
            link: NO_LINK,
            fields,
        }
    } else {
        Cell {
            count: 0,
            link: next(n, i),
            fields,
        }
    }
}

// Writes all cells of a fresh memory.
fn make_cells(cells: &mut [Cell])
    ensures { Fresh cells.new }
{
    let n = cells.len();
    for (i, cell) in cells.iter_mut().enumerate() {
        *cell = fresh_cell(n, i);
    }
}

// Writes a fresh memory, and answers the heads of its chains.
fn prepare<T: Copy>(cells: &mut [Cell], leaves: &mut [T], leaf: T) -> Heads
    ensures heads { result ≡ fresh_heads (length cells.new) }
    ensures cells { Fresh cells.new }
    ensures leaves { leaves.new ≡ fresh_leaves (length cells.new) leaf leaves.old }
{
    let n = cells.len();
    make_cells(cells);
    if n > 0 && !leaves.is_empty() {
        leaves[0] = leaf;
    }
    Heads {
        free: next(n, 0),
        waiting: NO_LINK,
    }
}

// Makes a fresh memory of all cells lent, with a leaf for cell 0, and answers the heads of its chains. It is sound, and the outside
// names cell 0.
pub fn make<T: Copy>(cells: &mut [Cell], leaves: &mut [T], leaf: T) -> Heads
    ensures heads { result ≡ fresh_heads (length cells.new) }
    ensures cells { Fresh cells.new }
    ensures leaves { leaves.new ≡ fresh_leaves (length cells.new) leaf leaves.old }
    ensures promises { MakePromises leaf (memory result cells.new) leaves.new }
{
    prepare(cells, leaves, leaf)
}
