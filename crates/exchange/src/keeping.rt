ghost use Rattle.exchange_theory.specs.Keeping.{Opens, Publishes, Closes, Steps};
ghost use Rattle.exchange.specs.Worlds.{world_of};

use crate::exchange::Exchange;
use crate::faults::refused;
use crate::letting::let_go_all;
use crate::placing::with_row;
use cells::let_go;
use cells_theory::Cell;
use exchange_theory::{Column, Row};
use keeper::{Enquiry, Fault, Keeper, Outcome, Refusal};

impl<K: Keeper> Exchange<K> {
    // The program begins to open a version.
    pub fn open<T: Copy>(&mut self, program: u32, cells: &[Cell], leaves: &[T]) -> Result<(), Fault>
        ensures { Opens program result (world_of K.Enquiry.meaning self.old cells.now leaves.now) (world_of K.Enquiry.meaning self.new cells.now leaves.now) }
    {
        self.admit(program, true, Column::Open, cells, leaves)?;
        self.keeper.open(program)
    }

    // The program begins to offer the cell in one of its building places, which is remembered.
    pub fn publish<T: Copy>(
        &mut self,
        program: u32,
        place: u32,
        cells: &[Cell],
        leaves: &[T],
    ) -> Result<(), Fault>
        ensures { Publishes program place result (world_of K.Enquiry.meaning self.old cells.now leaves.now) (world_of K.Enquiry.meaning self.new cells.now leaves.now) }
    {
        self.admit(program, place < 8, Column::Publish, cells, leaves)?;
        let row = self.desk.places.row(program);
        let Some(cell) = row.building[place as usize] else {
            return Err(refused(Refusal::PlaceEmpty));
        };
        self.keeper.publish(program, cell)?;
        let offering = Row {
            offered: place,
            ..row
        };
        self.desk.places = with_row(self.desk.places, program, offering);
        Ok(())
    }

    // One step of what the program has begun. Where an offer was accepted the offered place becomes empty, since its cell is the
    // version's now; where a version was handed out its root is let go.
    pub fn step<T: Copy>(
        &mut self,
        program: u32,
        cells: &mut [Cell],
        leaves: &[T],
    ) -> Result<Outcome, Fault>
        ensures { Steps program result (world_of K.Enquiry.meaning self.old cells.old leaves.now) (world_of K.Enquiry.meaning self.new cells.new leaves.now) }
    {
        self.admit(program, true, Column::Step, cells, leaves)?;
        let outcome = self.keeper.step(program)?;
        match outcome {
            Outcome::Accepted(_) => {
                let row = self.desk.places.row(program);
                let left = row.with_building(row.offered, None);
                self.desk.places = with_row(self.desk.places, program, left);
            }
            Outcome::HandedOut(_) => {
                let root = self.desk.places.row(program).closing;
                let_go(cells, &mut self.desk.heads, root);
            }
            Outcome::GoesOn | Outcome::Opened(_) | Outcome::Stale | Outcome::Nothing => {}
        }
        Ok(outcome)
    }

    // The program gives up its places and begins to close its version, whose root is remembered until it is handed out.
    pub fn close<T: Copy>(
        &mut self,
        program: u32,
        cells: &mut [Cell],
        leaves: &[T],
    ) -> Result<(), Fault>
        ensures { Closes program result (world_of K.Enquiry.meaning self.old cells.old leaves.now) (world_of K.Enquiry.meaning self.new cells.new leaves.now) }
    {
        self.admit(program, true, Column::Close, cells, leaves)?;
        let root = self.keeper.root(program)?;
        self.keeper.close(program)?;
        let row = self.desk.places.row(program);
        let_go_all(cells, &mut self.desk.heads, &row.building);
        self.desk.places = with_row(self.desk.places, program, row.emptied(root));
        Ok(())
    }
}
