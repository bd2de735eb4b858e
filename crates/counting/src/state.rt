ghost use Rattle.counting.specs.State.{Sized, Filled, Counted, view};

use crate::rows::Row;
use keeper::{Stage, Version};

// The rows and stages that count are the first P + 1 and the first P. They are arrays of the largest size, and no Vecs, so that no call
// fails for want of memory.
#[derive(Drop)]
pub struct Counting {
    pub(crate) programs: u32,
    pub(crate) last: u32,
    pub(crate) current: Version,
    pub(crate) rows: [Option<Row>; 9],
    pub(crate) stages: [Stage; 8],
    ghost sized: { Sized (view programs last current rows stages) },
    ghost filled: { Filled (view programs last current rows stages) },
    ghost counted: { Counted (view programs last current rows stages) },
}
