ghost use Rattle.std.specs.Prelude.{◌≡◌};
ghost use Rattle.cells_theory.specs.Memory.{memory};
ghost use Rattle.exchange_theory.specs.World.{let_go_place, let_go_places};

use cells::let_go;
use cells_theory::{Cell, Heads};

// Lets go of the cell that a place names, if any.
pub(crate) fn let_go_named(cells: &mut [Cell], heads: &mut Heads, named: Option<u32>)
    ensures { memory heads.new cells.new ≡ let_go_place named (memory heads.old cells.old) }
{
    if let Some(c) = named {
        let_go(cells, heads, c);
    }
}

// Lets go of the cells that places name, from the first on. A loop of one line, as the cells have for fields: one
// for both would take a closure that changes cells and heads.
pub(crate) fn let_go_all(cells: &mut [Cell], heads: &mut Heads, places: &[Option<u32>; 8])
    ensures { memory heads.new cells.new ≡ let_go_places places.now (memory heads.old cells.old) }
{
    for named in places {
        let_go_named(cells, heads, *named);
    }
}
