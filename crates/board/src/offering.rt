ghost use Rattle.std.specs.Prelude.{◌≡◌, ◌+◌, ◌<◌};
ghost use Rattle.announcement_theory.specs.declared.position.Position.TheVariants.{Offering};
ghost use Rattle.announcement_theory.specs.declared.position.OfferLabel.TheVariants.{F1, F2, F3};
ghost use Rattle.announcement_theory.specs.Next.{go_to, goes, next_or, stales, step_at, stepped};
ghost use Rattle.board.specs.Boards.{state_of};
ghost use Rattle.board.specs.Steps.{Took, accepts};

use crate::board::Board;
use crate::marks::serial_in;
use announcement_theory::{Announcement, Mark, Offer, OfferLabel, Position, Status, Stored};
use keeper::Outcome;

impl Board {
    // The operation ends at a stage, with an answer.
    pub(crate) fn ends(&mut self, p: u32, position: Position, outcome: Outcome) -> Outcome
        ensures { Took (stepped (go_to (state_of self.old) p position) outcome) (state_of self.new) result }
    {
        self.go_to(p, position);
        outcome
    }

    // An offer gives up: its own slot is emptied.
    fn gives_up(&mut self, p: u32, offer: Offer) -> Outcome
        ensures { Took (stales (state_of self.old) p offer.over offer.slot) (state_of self.new) result }
    {
        self.fill(offer.slot, None);
        self.ends(p, Position::Offered(offer.over), Outcome::Stale)
    }

    // A step of an offer.
    pub(crate) fn offer_step(&mut self, p: u32, offer: Offer, at: OfferLabel) -> Outcome
        requires { self.old.current.serial < 4294967295 }
        ensures { Took (step_at (state_of self.old) p (Offering offer at)) (state_of self.new) result }
    {
        match at {
            OfferLabel::F1 => self.search_step(p, offer),
            OfferLabel::F2 { program } => self.help_step(p, offer, program),
            OfferLabel::F3 if self.current == offer.over => self.accepts(p, offer),
            OfferLabel::F3 => self.gives_up(p, offer),
        }
    }

    // An offer goes on at another label.
    fn offers_at(&mut self, p: u32, offer: Offer, at: OfferLabel) -> Outcome
        ensures { Took (goes (state_of self.old) p (Offering offer at)) (state_of self.new) result }
    {
        self.goes(p, Position::Offering { offer, at })
    }

    // F1: an empty slot is filled with the version to be; after the last slot the offer gives up.
    fn search_step(&mut self, p: u32, offer: Offer) -> Outcome
        requires { self.old.current.serial < 4294967295 }
        ensures { Took (step_at (state_of self.old) p (Offering offer F1)) (state_of self.new) result }
    {
        let Offer { root, over, slot } = offer;
        let serial = self.current.serial + 1;
        match self.slot_at(slot) {
            None => {
                self.fill(
                    slot,
                    Some(Stored {
                        serial,
                        root,
                        status: Status::Usable,
                    }),
                );
                self.offers_at(p, offer, OfferLabel::F2 { program: 0 })
            }
            Some(_) if slot < 3 * self.programs => {
                let slot = slot + 1;
                self.offers_at(p, Offer { slot, ..offer }, OfferLabel::F1)
            }
            Some(_) => self.ends(p, Position::Offered(over), Outcome::Stale),
        }
    }

    // The label after a program was helped or passed: the next program, after the last one F3. Here and in C4 and C6 the last program is a
    // guard, as the algorithm is written.
    fn after_help(&self, program: u32) -> OfferLabel
        ensures { result ≡ next_or self.now.programs program (F2 (program + 1)) F3 }
    {
        match program {
            next if next < self.programs.saturating_sub(1) => OfferLabel::F2 { program: next + 1 },
            _ => OfferLabel::F3,
        }
    }

    // F2: a program that asks for help is bound to the version offered over, while that is current.
    fn help_step(&mut self, p: u32, offer: Offer, program: u32) -> Outcome
        ensures { Took (step_at (state_of self.old) p (Offering offer (F2 program))) (state_of self.new) result }
    {
        let at = self.after_help(program);
        if !matches!(self.seat_at(program).announced, Announcement::Help(_)) {
            return self.offers_at(p, offer, at);
        }
        if self.current != offer.over {
            return self.gives_up(p, offer);
        }
        self.announce(program, Announcement::Plain(offer.over));
        self.offers_at(p, offer, at)
    }

    // F3 over the current version: the version in the slot becomes current.
    fn accepts(&mut self, p: u32, offer: Offer) -> Outcome
        ensures { Took (accepts (state_of self.old) p offer.over offer.slot) (state_of self.new) result }
    {
        let Offer { over, slot, .. } = offer;
        let serial = serial_in(self.slot_at(slot));
        self.advance(Mark { serial, slot });
        self.ends(p, Position::Offered(over), Outcome::Accepted(serial))
    }
}
