ghost use Rattle.std.specs.Prelude.{◌≤◌};

use crate::places::Places;
use cells_theory::Heads;

// What an exchange holds beside its keeper.
#[derive(Clone, Copy)]
pub struct Desk {
    // P, how many programs there are.
    pub programs: u32,
    pub places: Places,
    // The first cells of the free chain and of the waiting chain.
    pub heads: Heads,
    ghost few: { programs ≤ 8 },
}
