ghost use Rattle.std.specs.Prelude.{◌≡◌};
ghost use Rattle.cells_theory.specs.Look.{followed, field_answer, shown_as, parts_of, Looks};
ghost use Rattle.cells_theory.specs.Promises.{FieldPromises, LookPromises};

use cells_theory::{Cell, DAMAGED, Field, Part, Shown};
use keeper::Fault;

// A field that is followed: a cell that it names has to be one of the memory's.
fn follow(cells: &[Cell], f: Field) -> Result<Field, Fault>
    ensures { result ≡ followed cells.now f }
{
    match f {
        Field::Cell(d) if d as usize >= cells.len() => Err(DAMAGED),
        Field::Cell(_) => Ok(f),
        Field::Empty | Field::Number(_) => Ok(f),
    }
}

// What following field k of cell c gives: the field, or a refusal.
fn read_field(cells: &[Cell], c: u32, k: u32) -> Result<Field, Fault>
    ensures { result ≡ field_answer cells.now c k }
{
    let Some(cell) = cells.get(c as usize) else {
        return Err(DAMAGED);
    };
    match cell.fields.get(k as usize) {
        Some(field) => follow(cells, *field),
        None => Ok(Field::Empty),
    }
}

// What following field k of cell c gives. In a sound memory a field of a cell is never refused.
pub fn field(cells: &[Cell], c: u32, k: u32) -> Result<Field, Fault>
    ensures answer { result ≡ field_answer cells.now c k }
    ensures promises { FieldPromises cells.now c k result }
{
    read_field(cells, c, k)
}

// What is shown of a field.
fn part(f: Field) -> Part
    ensures { result ≡ shown_as f }
{
    match f {
        Field::Empty => Part::Empty,
        Field::Number(n) => Part::Number(n),
        Field::Cell(_) => Part::Cell,
    }
}

// What is shown of four fields.
fn parts(fields: [Field; 4]) -> [Part; 4]
    ensures { result ≡ parts_of fields }
{
    fields.map(part)
}

// The leaf and the four fields of cell c.
fn show<T: Copy>(cells: &[Cell], leaves: &[T], c: u32) -> Result<Shown<T>, Fault>
    ensures { Looks cells.now leaves.now c result }
{
    let i = c as usize;
    let (Some(cell), Some(leaf)) = (cells.get(i), leaves.get(i)) else {
        return Err(DAMAGED);
    };
    Ok(Shown {
        leaf: *leaf,
        parts: parts(cell.fields),
    })
}

// Shows the leaf and the four fields of cell c: of a cell that stands for a tree, what that tree shows.
pub fn look<T: Copy>(cells: &[Cell], leaves: &[T], c: u32) -> Result<Shown<T>, Fault>
    ensures answer { Looks cells.now leaves.now c result }
    ensures promises { LookPromises cells.now leaves.now c result }
{
    show(cells, leaves, c)
}
