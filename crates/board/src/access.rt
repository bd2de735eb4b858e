ghost use Rattle.std.specs.Prelude.{◌≡◌};
ghost use Rattle.announcement_theory.specs.State.{slot_at, seat_at};
ghost use Rattle.announcement_theory.specs.Next.{put, fill, go_to, announce, advance};
ghost use Rattle.board.specs.Boards.{state_of};

use crate::board::Board;
use announcement_theory::{Announcement, Mark, Position, Seat, Stored};

impl Board {
    // The slots that count: the first 3 P + 1.
    pub fn used_slots(&self) -> &[Option<Stored>]
        ensures { result.now ≡ (state_of self.now).slots }
    {
        &self.slots[..3 * self.programs as usize + 1]
    }

    // The seats that count: the first P.
    pub fn used_seats(&self) -> &[Seat]
        ensures { result.now ≡ (state_of self.now).seats }
    {
        &self.seats[..self.programs as usize]
    }

    // What slot j holds; there is nothing beyond the last.
    pub fn slot_at(&self, j: u32) -> Option<Stored>
        ensures { result ≡ slot_at (state_of self.now) j }
    {
        self.used_slots().get(j as usize).copied().flatten()
    }

    // Where program q stands, and what it announces. Total, and no Option: a number that is no program's has nobody's seat, as defined.
    pub fn seat_at(&self, q: u32) -> Seat
        ensures { result ≡ seat_at (state_of self.now) q }
    {
        self.used_seats()
            .get(q as usize)
            .copied()
            .unwrap_or(Seat::IDLE)
    }

    // Slot j becomes another. By index, as `put`: of what `get_mut` lends, a proof knows nothing but the length afterwards.
    #[tactic(auto, using(keeper::proofs::Fronts::front_set))]
    pub(crate) fn fill(&mut self, j: u32, slot: Option<Stored>)
        ensures { state_of self.new ≡ fill (state_of self.old) j slot }
    {
        if j <= 3 * self.programs {
            self.slots[j as usize] = slot;
        }
    }

    // Program p takes another seat.
    #[tactic(auto, using(keeper::proofs::Fronts::front_set))]
    pub(crate) fn put(&mut self, p: u32, seat: Seat)
        ensures { state_of self.new ≡ put (state_of self.old) p seat }
    {
        if p < self.programs {
            self.seats[p as usize] = seat;
        }
    }

    // The version becomes current.
    pub(crate) fn advance(&mut self, version: Mark)
        ensures { state_of self.new ≡ advance (state_of self.old) version }
    {
        self.current = version;
    }

    // Program p goes to another label, with the announcement that it has.
    pub(crate) fn go_to(&mut self, p: u32, position: Position)
        ensures { state_of self.new ≡ go_to (state_of self.old) p position }
    {
        let seat = self.seat_at(p);
        self.put(p, Seat { position, ..seat });
    }

    // Program x gets another announcement where it stands.
    pub(crate) fn announce(&mut self, x: u32, announced: Announcement)
        ensures { state_of self.new ≡ announce (state_of self.old) x announced }
    {
        let seat = self.seat_at(x);
        self.put(x, Seat { announced, ..seat });
    }
}
