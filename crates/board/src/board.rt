ghost use Rattle.std.specs.Prelude.{◌≤◌};

use announcement_theory::{Mark, Seat, Stored};

// The plain state: of the slots the first 3 P + 1 count, of the seats the first P. They are arrays of the largest size, and no Vecs, so
// that no call fails for want of memory.
#[derive(Clone, Copy)]
pub struct Board {
    pub programs: u32,
    pub last: u32,
    pub current: Mark,
    pub slots: [Option<Stored>; 25],
    pub seats: [Seat; 8],
    ghost few: { programs ≤ 8 },
}
