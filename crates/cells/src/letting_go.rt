ghost use Rattle.std.specs.Prelude.{◌≡◌};
ghost use Rattle.cells_theory.specs.Memory.{memory};
ghost use Rattle.cells_theory.specs.LetGo.{let_go, let_go_field, let_go_four};
ghost use Rattle.cells_theory.specs.Promises.{LetGoPromises};

use cells_theory::{Cell, Field, Heads};

// Lowers the count of a cell, and at 0 puts it at the front of the waiting chain. Nothing for a number that is no cell's, or a count of 0.
// By index, as `raise`: of what `get_mut` lends, a proof knows nothing but the length afterwards.
fn lower(cells: &mut [Cell], heads: &mut Heads, c: u32)
    ensures { memory heads.new cells.new ≡ let_go c (memory heads.old cells.old) }
{
    let i = c as usize;
    if i >= cells.len() || cells[i].count == 0 {
        return;
    }
    let mut cell = cells[i];
    cell.count -= 1;
    if cell.count == 0 {
        cell.link = heads.waiting;
        heads.waiting = c;
    }
    cells[i] = cell;
}

// Lets go of the cell that a field names, if any.
fn let_go_field(cells: &mut [Cell], heads: &mut Heads, f: Field)
    ensures { memory heads.new cells.new ≡ let_go_field f (memory heads.old cells.old) }
{
    if let Field::Cell(c) = f {
        lower(cells, heads, c);
    }
}

// Lets go of the cells that four fields name, from field 0 to field 3. A loop of one line, as `raise_four`: one for both would take a
// closure that changes cells and heads.
pub(crate) fn let_go_four(cells: &mut [Cell], heads: &mut Heads, fields: [Field; 4])
    ensures { memory heads.new cells.new ≡ let_go_four fields (memory heads.old cells.old) }
{
    for field in fields {
        let_go_field(cells, heads, field);
    }
}

// Lets go of a cell. Where the outside named it, a sound memory stays sound, with one naming less.
pub fn let_go(cells: &mut [Cell], heads: &mut Heads, c: u32)
    ensures after { memory heads.new cells.new ≡ let_go c (memory heads.old cells.old) }
    ensures promises { LetGoPromises c (memory heads.old cells.old) (memory heads.new cells.new) }
{
    lower(cells, heads, c)
}
