ghost use Rattle.std.specs.Prelude.{◌≡◌, length};
ghost use Rattle.cells_theory.specs.Memory.{memory};
ghost use Rattle.cells_theory.specs.Sweep.{sweep_answer, sweep_memory};
ghost use Rattle.cells_theory.specs.Promises.{SweepPromises};

use crate::letting_go::let_go_four;
use cells_theory::{Cell, DAMAGED, Field, Heads, NO_LINK};
use keeper::Fault;

// Sweeps the first waiting cell, and answers its number, or none where no cell waits.
fn free_first<T: Copy>(
    cells: &mut [Cell],
    leaves: &[T],
    heads: &mut Heads,
) -> Result<Option<u32>, Fault>
    ensures answer { result ≡ sweep_answer (memory heads.old cells.old) (length leaves.now) }
    ensures after { memory heads.new cells.new ≡ sweep_memory result (memory heads.old cells.old) }
{
    let c = heads.waiting;
    if c == NO_LINK {
        return Ok(None);
    }
    let i = c as usize;
    if i >= cells.len() || i >= leaves.len() {
        return Err(DAMAGED);
    }
    heads.waiting = cells[i].link;
    let fields = cells[i].fields;
    let_go_four(cells, heads, fields);
    cells[i] = Cell {
        link: heads.free,
        fields: [Field::Empty; 4],
        ..cells[i]
    };
    heads.free = c;
    Ok(Some(c))
}

// Sweeps the first waiting cell. A sound memory stays sound, and every other cell stands for what it stood for.
pub fn sweep<T: Copy>(
    cells: &mut [Cell],
    leaves: &[T],
    heads: &mut Heads,
) -> Result<Option<u32>, Fault>
    ensures answer { result ≡ sweep_answer (memory heads.old cells.old) (length leaves.now) }
    ensures after { memory heads.new cells.new ≡ sweep_memory result (memory heads.old cells.old) }
    ensures promises { SweepPromises (memory heads.old cells.old) leaves.now result (memory heads.new cells.new) }
{
    free_first(cells, leaves, heads)
}
