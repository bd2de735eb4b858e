ghost use Rattle.keeper.specs.declared.outcome.Outcome.TheVariants.{GoesOn};
ghost use Rattle.announcement_theory.specs.declared.announcement.Announcement.TheVariants as announcement;
ghost use Rattle.announcement_theory.specs.declared.position.Position.TheVariants.{Opening};
ghost use Rattle.announcement_theory.specs.declared.position.OpenLabel.TheVariants.{O4};
ghost use Rattle.announcement_theory.specs.declared.position.Round.TheVariants.{First, Second};
ghost use Rattle.announcement_theory.specs.State.{seat};
ghost use Rattle.announcement_theory.specs.Next.{goes, opens_on, put, step_at, stepped};
ghost use Rattle.board.specs.Boards.{state_of};
ghost use Rattle.board.specs.Steps.{Took};

use crate::board::Board;
use crate::marks::version_in;
use announcement_theory::{Announcement, Attempt, OpenLabel, Position, Round, Seat};
use keeper::Outcome;

impl Board {
    // The operation goes on at another label.
    pub(crate) fn goes(&mut self, p: u32, position: Position) -> Outcome
        ensures { Took (goes (state_of self.old) p position) (state_of self.new) result }
    {
        self.ends(p, position, Outcome::GoesOn)
    }

    // The operation goes on at another label, with another announcement.
    pub(crate) fn goes_announcing(
        &mut self,
        p: u32,
        position: Position,
        announced: Announcement,
    ) -> Outcome
        ensures { Took (stepped (put (state_of self.old) p (seat position announced)) GoesOn) (state_of self.new) result }
    {
        self.put(
            p,
            Seat {
                position,
                announced,
            },
        );
        Outcome::GoesOn
    }

    // An open ends on the version that the announcement has.
    fn opens_on(&mut self, p: u32, announced: Announcement) -> Outcome
        ensures { Took (opens_on (state_of self.old) p announced) (state_of self.new) result }
    {
        let version = version_in(announced);
        let position = Position::Open(version);
        self.put(
            p,
            Seat {
                position,
                announced,
            },
        );
        Outcome::Opened(version.serial)
    }

    // An open goes on at another label.
    fn opens_at(&mut self, p: u32, attempt: Attempt, at: OpenLabel) -> Outcome
        ensures { Took (goes (state_of self.old) p (Opening attempt at)) (state_of self.new) result }
    {
        self.goes(p, Position::Opening { attempt, at })
    }

    // An open asks to be helped to its version, and goes on at another label.
    fn asks_at(&mut self, p: u32, attempt: Attempt, at: OpenLabel) -> Outcome
        ensures { Took (stepped (put (state_of self.old) p (seat (Opening attempt at) (announcement.Help attempt.u))) GoesOn) (state_of self.new) result }
    {
        let position = Position::Opening { attempt, at };
        self.goes_announcing(p, position, Announcement::Help(attempt.u))
    }

    // An open whose version was replaced goes into a round.
    fn tries_again(&mut self, p: u32, attempt: Attempt, round: Round) -> Outcome
        ensures { Took (goes (state_of self.old) p (Opening attempt (O4 round))) (state_of self.new) result }
    {
        self.opens_at(p, attempt, OpenLabel::O4 { round })
    }

    // A step of an open.
    pub(crate) fn open_step(&mut self, p: u32, attempt: Attempt, at: OpenLabel) -> Outcome
        ensures { Took (step_at (state_of self.old) p (Opening attempt at)) (state_of self.new) result }
    {
        let announced = self.seat_at(p).announced;
        let current = self.current;
        let u = attempt.u;
        match at {
            OpenLabel::O1 => self.asks_at(p, attempt, OpenLabel::O2),
            OpenLabel::O2 if current == u => self.opens_at(p, attempt, OpenLabel::O3),
            OpenLabel::O2 => self.tries_again(p, attempt, Round::First),
            OpenLabel::O3 if announced == Announcement::Help(u) => {
                self.opens_on(p, Announcement::Plain(u))
            }
            OpenLabel::O4 { round } => {
                self.opens_at(p, attempt, OpenLabel::O5 { w: current, round })
            }
            OpenLabel::O5 { w, round } if announced == Announcement::Help(u) => {
                self.asks_at(p, Attempt { u: w, ..attempt }, OpenLabel::O6 { round })
            }
            OpenLabel::O6 { .. } if current == u => self.opens_at(p, attempt, OpenLabel::O3),
            OpenLabel::O6 {
                round: Round::First,
            } => self.tries_again(p, attempt, Round::Second),
            // Somebody has helped.
            OpenLabel::O3 | OpenLabel::O5 { .. } | OpenLabel::O6 { .. } => {
                self.opens_on(p, announced)
            }
        }
    }
}
