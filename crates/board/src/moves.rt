ghost use Rattle.std.specs.Prelude.{◌≡◌};
ghost use Rattle.announcement_theory.specs.Next.{opens, publishes, closes, version_had};
ghost use Rattle.board.specs.Boards.{state_of};
ghost use Rattle.board.specs.Steps.{Steps};

use crate::board::Board;
use announcement_theory::{Attempt, CloseLabel, Mark, Offer, OfferLabel, OpenLabel, Position};
use keeper::Outcome;

// The version that a program is about. An idle one is about none, and is not asked: an Option would add a case that never comes.
fn version_had(position: Position) -> Mark
    ensures { result ≡ version_had position }
{
    match position {
        Position::Idle => Mark { serial: 0, slot: 0 },
        Position::Opening { attempt, .. } => attempt.u,
        Position::Offering { offer, .. } => offer.over,
        Position::Open(version) | Position::Offered(version) => version,
        Position::Closing { version, .. } => version,
    }
}

impl Board {
    // An open begins with u the current version.
    pub fn open(&mut self, p: u32)
        ensures { state_of self.new ≡ opens (state_of self.old) p }
    {
        let u = self.current;
        let attempt = Attempt { since: u.serial, u };
        let at = OpenLabel::O1;
        self.go_to(p, Position::Opening { attempt, at });
    }

    // A publish begins at slot 0.
    pub fn publish(&mut self, p: u32, root: u32)
        ensures { state_of self.new ≡ publishes (state_of self.old) p root }
    {
        let over = version_had(self.seat_at(p).position);
        let offer = Offer {
            root,
            over,
            slot: 0,
        };
        let at = OfferLabel::F1;
        self.go_to(p, Position::Offering { offer, at });
    }

    // A close begins by giving up the announcement.
    pub fn close(&mut self, p: u32)
        ensures { state_of self.new ≡ closes (state_of self.old) p }
    {
        let version = version_had(self.seat_at(p).position);
        let at = CloseLabel::C1;
        self.go_to(p, Position::Closing { version, at });
    }

    // One step of the operation that a program is in; none, and nothing is changed, where no serial is left above the current one. Where no
    // operation runs it goes on, as defined, so that it is total.
    pub fn checked_step(&mut self, p: u32) -> Option<Outcome>
        ensures { Steps (state_of self.old) p (state_of self.new) result }
    {
        if self.current.serial == u32::MAX {
            return None;
        }
        // A position is copied, compared and shown, so it is data and no closure.
        Some(match self.seat_at(p).position {
            Position::Opening { attempt, at } => self.open_step(p, attempt, at),
            Position::Offering { offer, at } => self.offer_step(p, offer, at),
            Position::Closing { version, at } => self.close_step(p, version, at),
            Position::Idle | Position::Open(_) | Position::Offered(_) => Outcome::GoesOn,
        })
    }
}
