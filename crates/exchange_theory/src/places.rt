ghost use Rattle.std.specs.Prelude.{◌≡◌, true};
ghost use Rattle.exchange_theory.specs.Inside.{all_within};

use crate::row::Row;

// N, and a row for each of the eight programs that there can be, in an array, and no Vec, so that no call fails for want of memory. Each
// place of a row is empty or names one of the N cells, and each offered place is one of eight.
#[derive(Clone, Copy)]
pub struct Places {
    pub cells: u32,
    pub rows: [Row; 8],
    ghost inside: { all_within cells rows ≡ true },
}

impl Places {
    ghost use Rattle.std.specs.Prelude.{◌<◌};
    ghost use Rattle.exchange_theory.specs.Inside.{within};
    ghost use Rattle.exchange_theory.specs.World.{row_in};

    // The row of a program. Total, and no Option: a number that is no program's has a row with no places, as defined.
    #[tactic(auto, using(crate::proofs::Insides::row_within, crate::proofs::Insides::row_low))]
    pub fn row(&self, program: u32) -> Row
        ensures value { result ≡ row_in self.now.rows program }
        ensures inside { within self.now.cells result ≡ true }
        ensures low { result.offered < 8 }
    {
        self.rows.get(program as usize).copied().unwrap_or(Row::NEW)
    }
}
