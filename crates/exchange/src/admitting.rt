ghost use Rattle.std.specs.Prelude.{◌≡◌};
ghost use Rattle.exchange_theory.specs.Order.{Admits, sized};
ghost use Rattle.exchange.specs.Worlds.{world_of};

use crate::exchange::Exchange;
use crate::faults::refused;
use crate::table::allowed;
use cells_theory::Cell;
use exchange_theory::Column;
use keeper::{Enquiry, Fault, Keeper, Refusal};

impl<K: Keeper> Exchange<K> {
    // Whether the cells and leaves lent are as many as at the making.
    pub(crate) fn fits<T: Copy>(&self, cells: &[Cell], leaves: &[T]) -> bool
        ensures { result ≡ sized (world_of K.Enquiry.meaning self.now cells.now leaves.now) }
    {
        let size = self.desk.places.cells as usize;
        cells.len() == size && leaves.len() == size
    }

    // What every call on a program is tried for first, in the order of the refusals: its program, the memory, whether its places and
    // field are in range, and its stage. The third is told by `ranged`, since it differs from call to call, and has its turn between the others.
    pub(crate) fn admit<T: Copy>(
        &self,
        program: u32,
        ranged: bool,
        column: Column,
        cells: &[Cell],
        leaves: &[T],
    ) -> Result<(), Fault>
        ensures { Admits (world_of K.Enquiry.meaning self.now cells.now leaves.now) program ranged column result }
    {
        if program >= self.desk.programs {
            return Err(refused(Refusal::NoProgram));
        }
        if !self.fits(cells, leaves) {
            return Err(refused(Refusal::WrongMemory));
        }
        if !ranged {
            return Err(refused(Refusal::OutOfRange));
        }
        let stage = self.keeper.stage(program)?;
        if !allowed(stage, column) {
            return Err(refused(Refusal::StageForbids));
        }
        Ok(())
    }
}
