ghost use Rattle.keeper.specs.declared.outcome.Outcome.TheVariants.{GoesOn, HandedOut, Nothing};
ghost use Rattle.announcement_theory.specs.declared.announcement.Announcement.TheVariants as announcement;
ghost use Rattle.announcement_theory.specs.declared.position.Position.TheVariants.{Closing, Idle};
ghost use Rattle.announcement_theory.specs.declared.position.CloseLabel.TheVariants.{C2, C4, C6};
ghost use Rattle.announcement_theory.specs.declared.slot.Status.TheVariants.{Frozen, Pending};
ghost use Rattle.announcement_theory.specs.State.{seat};
ghost use Rattle.announcement_theory.specs.Tests.{restated};
ghost use Rattle.announcement_theory.specs.Next.{fill, go_to, goes, put, step_at, stepped};
ghost use Rattle.board.specs.Boards.{state_of};
ghost use Rattle.board.specs.Steps.{Took};

use crate::board::Board;
use crate::marks::{restated, serial_in};
use announcement_theory::{Announcement, CloseLabel, Mark, Position, Status, Stored};
use keeper::Outcome;

impl Board {
    // A close ends with nothing.
    fn leaves(&mut self, p: u32) -> Outcome
        ensures { Took (stepped (go_to (state_of self.old) p Idle) Nothing) (state_of self.new) result }
    {
        self.ends(p, Position::Idle, Outcome::Nothing)
    }

    // The version is emptied out of its slot and handed out.
    fn hands_out(&mut self, p: u32, version: Mark) -> Outcome
        ensures { Took (stepped (go_to (fill (state_of self.old) version.slot None) p Idle) (HandedOut version.serial)) (state_of self.new) result }
    {
        self.fill(version.slot, None);
        self.ends(p, Position::Idle, Outcome::HandedOut(version.serial))
    }

    // A step of a close, by its label and the status of the slot of its version together.
    pub(crate) fn close_step(&mut self, p: u32, version: Mark, at: CloseLabel) -> Outcome
        ensures { Took (step_at (state_of self.old) p (Closing version at)) (state_of self.new) result }
    {
        let slot = self.slot_at(version.slot);
        let serial = serial_in(slot);
        match (at, slot.map(|held| held.status)) {
            (CloseLabel::C1, _) => self.gives_back(p, version),
            (CloseLabel::C2, _) if self.current == version => self.leaves(p),
            (CloseLabel::C2, _) => self.closes_at(p, version, CloseLabel::C3),
            (CloseLabel::C3, Some(Status::Usable)) if serial == version.serial => {
                self.pends(p, version, slot)
            }
            (CloseLabel::C3, Some(Status::Frozen)) if serial == version.serial => {
                self.scans(p, version)
            }
            (CloseLabel::C3, _) => self.leaves(p),
            (CloseLabel::C4 { program }, _) => self.bind_step(p, version, program),
            (CloseLabel::C5, _) => self.freezes(p, version, slot),
            (CloseLabel::C6 { program }, _) => self.scan_step(p, version, program),
            (CloseLabel::C7, Some(Status::Frozen)) if serial == version.serial => {
                self.hands_out(p, version)
            }
            (CloseLabel::C7, _) => self.leaves(p),
        }
    }

    // The own announcement is emptied.
    fn gives_back(&mut self, p: u32, version: Mark) -> Outcome
        ensures { Took (stepped (put (state_of self.old) p (seat (Closing version C2) announcement.Empty)) GoesOn) (state_of self.new) result }
    {
        let at = CloseLabel::C2;
        self.goes_announcing(p, Position::Closing { version, at }, Announcement::Empty)
    }

    // A close goes on at another label.
    fn closes_at(&mut self, p: u32, version: Mark, at: CloseLabel) -> Outcome
        ensures { Took (goes (state_of self.old) p (Closing version at)) (state_of self.new) result }
    {
        self.goes(p, Position::Closing { version, at })
    }

    // The slot becomes pending, and programs that announced its version are helped.
    fn pends(&mut self, p: u32, version: Mark, held: Option<Stored>) -> Outcome
        ensures { Took (goes (fill (state_of self.old) version.slot (restated Pending held)) p (Closing version (C4 0))) (state_of self.new) result }
    {
        self.fill(version.slot, restated(held, Status::Pending));
        self.closes_at(p, version, CloseLabel::C4 { program: 0 })
    }

    // Programs are looked for that have the version.
    fn scans(&mut self, p: u32, version: Mark) -> Outcome
        ensures { Took (goes (state_of self.old) p (Closing version (C6 0))) (state_of self.new) result }
    {
        self.closes_at(p, version, CloseLabel::C6 { program: 0 })
    }

    // The slot is frozen, and programs are looked for that have its version.
    fn freezes(&mut self, p: u32, version: Mark, held: Option<Stored>) -> Outcome
        ensures { Took (goes (fill (state_of self.old) version.slot (restated Frozen held)) p (Closing version (C6 0))) (state_of self.new) result }
    {
        self.fill(version.slot, restated(held, Status::Frozen));
        self.scans(p, version)
    }

    // C4: a program that asks for help with the version is bound to it. The last program is a guard here and in C6, as in F2.
    fn bind_step(&mut self, p: u32, version: Mark, program: u32) -> Outcome
        ensures { Took (step_at (state_of self.old) p (Closing version (C4 program))) (state_of self.new) result }
    {
        let at = match program {
            next if next < self.programs.saturating_sub(1) => CloseLabel::C4 { program: next + 1 },
            _ => CloseLabel::C5,
        };
        if self.seat_at(program).announced == Announcement::Help(version) {
            self.announce(program, Announcement::Plain(version));
        }
        self.closes_at(p, version, at)
    }

    // C6: where a program has the version, or is bound to it, the close leaves it there.
    fn scan_step(&mut self, p: u32, version: Mark, program: u32) -> Outcome
        ensures { Took (step_at (state_of self.old) p (Closing version (C6 program))) (state_of self.new) result }
    {
        if self.seat_at(program).announced == Announcement::Plain(version) {
            return self.leaves(p);
        }
        match program {
            next if next < self.programs.saturating_sub(1) => {
                self.closes_at(p, version, CloseLabel::C6 { program: next + 1 })
            }
            _ => self.closes_at(p, version, CloseLabel::C7),
        }
    }
}
