ghost use Rattle.std.specs.Prelude.{◌≡◌, ◌<◌, ◌≤◌, true, length, replicate};
ghost use Rattle.keeper.specs.Stages.{idle};
ghost use Rattle.keeper.specs.Refusals.{limits};
ghost use Rattle.keeper.specs.Meaning.{stage_of};
ghost use Rattle.exchange_theory.specs.Make.{idle_below, new_keeper, new_memory, makeable, Makes};
ghost use Rattle.exchange_theory.specs.World.{emptied};
ghost use Rattle.exchange_theory.specs.Promises.{BeginsRun};
ghost use Rattle.exchange.specs.Making.{fault_alone, Keeps};
ghost use Rattle.exchange.specs.Worlds.{world_of};

use crate::exchange::Exchange;
use crate::faults::refused;
use crate::unmade::Unmade;
use cells_theory::{Cell, Heads};
use exchange_theory::{Desk, Places, Row};
use keeper::{Enquiry, Keeper, Refusal, Version, within_limits};

// Whether so many cells and leaves are a memory: as many of both.
fn are_memory(size: usize, leaves: usize) -> bool
    ensures { result ≡ new_memory size leaves }
{
    (1..=65_536).contains(&size) && leaves == size
}

// Whether a program of the keeper is idle.
fn is_idle<K: Enquiry>(keeper: &K, p: u32) -> bool
    requires { p < (K.Enquiry.meaning keeper.now).programs }
    ensures { result ≡ idle (stage_of (K.Enquiry.meaning keeper.now) p) }
{
    match keeper.stage(p) {
        Ok(stage) => stage.is_idle(),
        Err(_) => unreachable!(),
    }
}

// Whether every program of the keeper is idle.
fn are_idle<K: Enquiry>(keeper: &K) -> bool
    ensures { result ≡ idle_below (K.Enquiry.meaning keeper.now) (K.Enquiry.meaning keeper.now).programs }
{
    (0..keeper.programs()).all(|p| is_idle(keeper, p))
}

// Whether the keeper is new: version 0 with root 0 is current, and every program is idle.
fn is_new<K: Enquiry>(keeper: &K) -> bool
    ensures { result ≡ new_keeper (K.Enquiry.meaning keeper.now) }
{
    keeper.current() == Version { serial: 0, root: 0 } && are_idle(keeper)
}

// Whether an exchange can be made over the keeper and so many cells and leaves.
fn can_make<K: Enquiry>(keeper: &K, size: usize, leaves: usize) -> bool
    ensures value { result ≡ makeable (K.Enquiry.meaning keeper.now) size leaves }
    ensures few { result ≡ true → (K.Enquiry.meaning keeper.now).programs ≤ 8 }
    ensures small { result ≡ true → size ≤ 65536 }
{
    within_limits(keeper.programs(), keeper.last()) && are_memory(size, leaves) && is_new(keeper)
}

// The desk of a new exchange: all places are empty.
fn new_desk(programs: u32, size: u32, heads: Heads) -> Desk
    requires { programs ≤ 8 }
    ensures programs { result.programs ≡ programs }
    ensures size { result.places.cells ≡ size }
    ensures chains { result.heads ≡ heads }
    ensures rows { result.places.rows ≡ replicate 8 (emptied 0 0) }
{
    let places = Places {
        cells: size,
        rows: [Row::NEW; 8],
    };
    Desk {
        programs,
        places,
        heads,
    }
}

impl<K: Keeper> Exchange<K> {
    // Makes an exchange over a new keeper, on the memory lent, whose cell 0 gets the leaf. Refused 4 where a number is outside its
    // limits or the keeper is not new, and then the keeper comes back.
    fn prepare<T: Copy>(
        keeper: K,
        cells: &mut [Cell],
        leaves: &mut [T],
        leaf: T,
    ) -> Result<Exchange<K>, Unmade<K>>
        ensures makes { Makes leaf (K.Enquiry.meaning keeper) cells.old leaves.old (λ x. world_of K.Enquiry.meaning x cells.new leaves.new) cells.new leaves.new (fault_alone result) }
        ensures keeps { Keeps keeper result }
    {
        let size = cells.len();
        if !can_make(&keeper, size, leaves.len()) {
            let fault = refused(Refusal::Limits);
            return Err(Unmade { keeper, fault });
        }
        let heads = cells::make(cells, leaves, leaf);
        let desk = new_desk(keeper.programs(), size as u32, heads);
        Ok(Exchange { keeper, desk })
    }

    // An exchange over a new keeper and the memory lent, in which version 0 is the leaf given; a refused making gives the keeper back.
    // The making begins a run, which keeps every promise.
    pub fn make<T: Copy>(
        keeper: K,
        cells: &mut [Cell],
        leaves: &mut [T],
        leaf: T,
    ) -> Result<Exchange<K>, Unmade<K>>
        ensures makes { Makes leaf (K.Enquiry.meaning keeper) cells.old leaves.old (λ x. world_of K.Enquiry.meaning x cells.new leaves.new) cells.new leaves.new (fault_alone result) }
        ensures keeps { Keeps keeper result }
        ensures begins { BeginsRun leaf (λ x. world_of K.Enquiry.meaning x cells.new leaves.new) (fault_alone result) }
    {
        Exchange::prepare(keeper, cells, leaves, leaf)
    }
}
