ghost use Rattle.std.specs.Prelude.{◌≡◌, ◌≤◌};
ghost use Rattle.cells_theory.specs.Memory.{name_of, names_in};
ghost use Rattle.cells_theory.specs.Build.{raisable, all_raisable, raise as raised, raise_field, raise_four};

use cells_theory::{Cell, Field, MOST};

// 1 where the field names cell c, else 0.
fn names(f: Field, c: u32) -> u32
    ensures value { result ≡ name_of c f }
    ensures low { result ≤ 1 }
{
    u32::from(f == Field::Cell(c))
}

// How many of the four fields name cell c.
fn times(fields: [Field; 4], c: u32) -> u32
    ensures value { result ≡ names_in c fields }
    ensures low { result ≤ 4 }
{
    let mut times = 0;
    for field in fields {
        times += names(field, c);
    }
    times
}

// Whether the cell that a field names is there, and may be raised once for each of the four fields that names it.
fn may_raise(cells: &[Cell], fields: [Field; 4], f: Field) -> bool
    ensures { result ≡ raisable cells.now fields f }
{
    match f {
        Field::Cell(c) => {
            let i = c as usize;
            i < cells.len() && cells[i].count <= MOST + 1 - times(fields, c)
        }
        Field::Empty | Field::Number(_) => true,
    }
}

// Whether every cell that the fields name may be raised.
pub(crate) fn may_raise_all(cells: &[Cell], fields: [Field; 4]) -> bool
    ensures { result ≡ all_raisable cells.now fields }
{
    // A loop, since the borrow checker covers no closure that reads both while one is gone through.
    for field in fields {
        if !may_raise(cells, fields, field) {
            return false;
        }
    }
    true
}

// By index, as `lower`. Raises the count of a cell. Nothing for a number that is no cell's, or a count that may not be raised.
fn raise(cells: &mut [Cell], c: u32)
    ensures { cells.new ≡ raised c cells.old }
{
    let i = c as usize;
    if i < cells.len() && cells[i].count <= MOST {
        cells[i].count += 1;
    }
}

// Raises the cell that a field names, if any.
fn raise_field(cells: &mut [Cell], f: Field)
    ensures { cells.new ≡ raise_field f cells.old }
{
    if let Field::Cell(c) = f {
        raise(cells, c);
    }
}

// Raises each cell that the four fields name, once for each field that names it: a loop of one line, as `let_go_four`.
pub(crate) fn raise_four(cells: &mut [Cell], fields: [Field; 4])
    ensures { cells.new ≡ raise_four fields cells.old }
{
    for f in fields {
        raise_field(cells, f);
    }
}
