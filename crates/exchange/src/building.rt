ghost use Rattle.std.specs.Prelude.{◌≡◌, ◌<◌, true, ◌&&◌, length, IfOk, nat_lt};
ghost use Rattle.cells_theory.specs.Memory.{memory};
ghost use Rattle.cells_theory.specs.Build.{build_answer, build_memory, build_leaves};
ghost use Rattle.exchange_theory.specs.Building.{all_ranged, Builds};
ghost use Rattle.exchange.specs.Worlds.{world_of};

use crate::exchange::Exchange;
use crate::faults::refused;
use crate::letting::let_go_named;
use crate::placing::with_row;
use crate::sourcing::{all_in_range, fields_from};
use cells_theory::{Cell, Field, Heads};
use exchange_theory::{Column, Source};
use keeper::{Enquiry, Fault, Keeper, Refusal};

// Whether a place, and the places that four sources name, are there.
fn in_range(place: u32, sources: &[Source; 4]) -> bool
    ensures { result ≡ (nat_lt place 8 && all_ranged sources.now) }
{
    place < 8 && all_in_range(sources)
}

// Fills a cell, and answers its number, which is one of the cells'.
fn fill<T: Copy>(
    cells: &mut [Cell],
    leaves: &mut [T],
    heads: &mut Heads,
    fields: [Field; 4],
    leaf: T,
) -> Result<u32, Fault>
    ensures answer { result ≡ build_answer (memory heads.old cells.old) (length leaves.old) fields }
    ensures after { memory heads.new cells.new ≡ build_memory result fields (memory heads.old cells.old) }
    ensures leaves { leaves.new ≡ build_leaves result leaf leaves.old }
    ensures below { IfOk result (λ c. c < length cells.old) }
{
    cells::build(cells, leaves, heads, fields, leaf)
}

impl<K: Keeper> Exchange<K> {
    // A new cell, into a building place; what the place named before is let go.
    pub fn build<T: Copy>(
        &mut self,
        program: u32,
        place: u32,
        sources: [Source; 4],
        leaf: T,
        cells: &mut [Cell],
        leaves: &mut [T],
    ) -> Result<(), Fault>
        ensures { Builds program place sources leaf result (world_of K.Enquiry.meaning self.old cells.old leaves.old) (world_of K.Enquiry.meaning self.new cells.new leaves.new) }
    {
        let ranged = in_range(place, &sources);
        self.admit(program, ranged, Column::Build, cells, leaves)?;
        let row = self.desk.places.row(program);
        let Some(fields) = fields_from(&row, &sources) else {
            return Err(refused(Refusal::PlaceEmpty));
        };
        let cell = fill(cells, leaves, &mut self.desk.heads, fields, leaf)?;
        let_go_named(cells, &mut self.desk.heads, row.building[place as usize]);
        let built = row.with_building(place, Some(cell));
        self.desk.places = with_row(self.desk.places, program, built);
        Ok(())
    }
}
