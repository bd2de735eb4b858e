ghost use Rattle.std.specs.Prelude.{◌≡◌, ◌&&◌, nat_lt};
ghost use Rattle.exchange_theory.specs.Reading.{Roots, Downs, Looks};
ghost use Rattle.exchange.specs.Worlds.{world_of};

use crate::exchange::Exchange;
use crate::faults::refused;
use crate::placing::with_row;
use cells_theory::{Cell, DAMAGED, Field, Shown};
use exchange_theory::Column;
use keeper::{Enquiry, Fault, Keeper, Refusal};

// Whether two places and a field are there.
fn in_range(place: u32, field: u32, to: u32) -> bool
    ensures { result ≡ (nat_lt place 8 && (nat_lt field 4 && nat_lt to 8)) }
{
    place < 8 && field < 4 && to < 8
}

impl<K: Keeper> Exchange<K> {
    // The root of the program's version, into a reading place.
    pub fn root<T: Copy>(
        &mut self,
        program: u32,
        place: u32,
        cells: &[Cell],
        leaves: &[T],
    ) -> Result<(), Fault>
        ensures { Roots program place result (world_of K.Enquiry.meaning self.old cells.now leaves.now) (world_of K.Enquiry.meaning self.new cells.now leaves.now) }
    {
        self.admit(program, place < 8, Column::Root, cells, leaves)?;
        let root = self.keeper.root(program)?;
        if root >= self.desk.places.cells {
            return Err(DAMAGED);
        }
        let row = self
            .desk
            .places
            .row(program)
            .with_reading(place, Some(root));
        self.desk.places = with_row(self.desk.places, program, row);
        Ok(())
    }

    // From the cell in a reading place down a field, into a reading place.
    pub fn down<T: Copy>(
        &mut self,
        program: u32,
        place: u32,
        field: u32,
        to: u32,
        cells: &[Cell],
        leaves: &[T],
    ) -> Result<(), Fault>
        ensures { Downs program place field to result (world_of K.Enquiry.meaning self.old cells.now leaves.now) (world_of K.Enquiry.meaning self.new cells.now leaves.now) }
    {
        let ranged = in_range(place, field, to);
        self.admit(program, ranged, Column::Down, cells, leaves)?;
        let row = self.desk.places.row(program);
        let Some(from) = row.reading[place as usize] else {
            return Err(refused(Refusal::PlaceEmpty));
        };
        let Field::Cell(cell) = cells::field(cells, from, field)? else {
            return Err(refused(Refusal::NoCell));
        };
        let lower = row.with_reading(to, Some(cell));
        self.desk.places = with_row(self.desk.places, program, lower);
        Ok(())
    }

    // What is to be seen of the cell in a reading place.
    pub fn look<T: Copy>(
        &self,
        program: u32,
        place: u32,
        cells: &[Cell],
        leaves: &[T],
    ) -> Result<Shown<T>, Fault>
        ensures { Looks program place result (world_of K.Enquiry.meaning self.now cells.now leaves.now) (world_of K.Enquiry.meaning self.now cells.now leaves.now) }
    {
        self.admit(program, place < 8, Column::Look, cells, leaves)?;
        // Read where it stands: a look writes no row, and need not copy one.
        let row = &self.desk.places.rows[program as usize];
        let Some(cell) = row.reading[place as usize] else {
            return Err(refused(Refusal::PlaceEmpty));
        };
        cells::look(cells, leaves, cell)
    }
}
