ghost use Rattle.exchange_theory.specs.Building.{Sweeps};
ghost use Rattle.exchange.specs.Worlds.{world_of};

use crate::exchange::Exchange;
use crate::faults::refused;
use cells_theory::Cell;
use keeper::{Enquiry, Fault, Keeper, Refusal};

impl<K: Keeper> Exchange<K> {
    // Frees the first waiting cell, and answers whether there was one; which cell it was is nothing to the outside.
    pub fn sweep<T: Copy>(&mut self, cells: &mut [Cell], leaves: &[T]) -> Result<bool, Fault>
        ensures { Sweeps result (world_of K.Enquiry.meaning self.old cells.old leaves.now) (world_of K.Enquiry.meaning self.new cells.new leaves.now) }
    {
        if !self.fits(cells, leaves) {
            return Err(refused(Refusal::WrongMemory));
        }
        let found = cells::sweep(cells, leaves, &mut self.desk.heads)?;
        Ok(found.is_some())
    }
}
