ghost use Rattle.std.specs.Prelude.{◌≡◌, length};
ghost use Rattle.cells_theory.specs.Memory.{memory};
ghost use Rattle.cells_theory.specs.Build.{fillable, build_answer, build_memory, build_leaves};
ghost use Rattle.cells_theory.specs.Promises.{BuildCounts, BuildPromises};

use crate::raising::{may_raise_all, raise_four};
use cells_theory::{Cell, DAMAGED, Field, Heads, NO_FREE_CELL, NO_LINK};
use keeper::Fault;

// Whether the number is that of a cell and of a leaf, and every cell that the fields name may be raised.
fn may_fill<T: Copy>(cells: &[Cell], leaves: &[T], c: u32, fields: [Field; 4]) -> bool
    ensures { result ≡ fillable cells.now (length leaves.now) c fields }
{
    let i = c as usize;
    i < cells.len() && i < leaves.len() && may_raise_all(cells, fields)
}

// Fills the first free cell, and answers its number.
fn fill_first<T: Copy>(
    cells: &mut [Cell],
    leaves: &mut [T],
    heads: &mut Heads,
    fields: [Field; 4],
    leaf: T,
) -> Result<u32, Fault>
    ensures answer { result ≡ build_answer (memory heads.old cells.old) (length leaves.old) fields }
    ensures after { memory heads.new cells.new ≡ build_memory result fields (memory heads.old cells.old) }
    ensures leaves { leaves.new ≡ build_leaves result leaf leaves.old }
{
    let c = heads.free;
    if c == NO_LINK {
        return Err(NO_FREE_CELL);
    }
    if !may_fill(cells, leaves, c, fields) {
        return Err(DAMAGED);
    }
    let i = c as usize;
    raise_four(cells, fields);
    heads.free = cells[i].link;
    cells[i] = Cell {
        count: 1,
        fields,
        ..cells[i]
    };
    leaves[i] = leaf;
    Ok(c)
}

// Builds a cell with four fields and a leaf, and answers its number. Where its fields name live cells, a sound memory stays
// sound, with the new cell named from outside, and every used cell stands for what it stood for.
pub fn build<T: Copy>(
    cells: &mut [Cell],
    leaves: &mut [T],
    heads: &mut Heads,
    fields: [Field; 4],
    leaf: T,
) -> Result<u32, Fault>
    ensures answer { result ≡ build_answer (memory heads.old cells.old) (length leaves.old) fields }
    ensures after { memory heads.new cells.new ≡ build_memory result fields (memory heads.old cells.old) }
    ensures leaves { leaves.new ≡ build_leaves result leaf leaves.old }
    ensures counts { BuildCounts fields (memory heads.old cells.old) result (memory heads.new cells.new) }
    ensures promises { BuildPromises fields leaf (memory heads.old cells.old) leaves.old result (memory heads.new cells.new) leaves.new }
{
    fill_first(cells, leaves, heads, fields, leaf)
}
