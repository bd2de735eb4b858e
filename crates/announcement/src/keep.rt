ghost use Rattle.std.specs.Prelude.{◌≡◌};
ghost use Rattle.keeper.specs.Effects.{OpenSays, PublishSays, CloseSays, StepSays};
ghost use Rattle.announcement_theory.specs.Means.{meaning_of};
ghost use Rattle.announcement.specs.Calls.{opens, open_answer, publishes, publish_answer, closes, close_answer, steps, step_answer};
ghost use Rattle.announcement.specs.Model.{state_in};
ghost use Rattle.announcement.specs.Pace.{Paces};
ghost use Rattle.announcement_theory.proofs.Lawful.{laws};
ghost use Rattle.announcement.specs.Exact.{good};

use crate::marks::root_in;
use crate::state::Announcing;
use board::version_in;
use keeper::{Declared, Enquiry, Fault, Keeper, Outcome, Refusal, Stage, Version, refused};

impl Enquiry for Announcing {
    ghost meaning = { λ k. meaning_of (state_in k) };

    ghost sound = { λ k. laws (state_in k) (good k) };

    fn programs(&self) -> u32 {
        self.board.programs
    }

    fn last(&self) -> u32 {
        self.board.last
    }

    fn current(&self) -> Version {
        let current = self.board.current;
        Version {
            serial: current.serial,
            root: root_in(self.board.slot_at(current.slot)),
        }
    }

    fn declared(&self) -> Declared
        ensures says { result ≡ (meaning_of (state_in self.now)).declared }
        ensures paces { Paces self.now.board.programs result }
    {
        let programs = self.board.programs;
        Declared {
            opening: 9,
            offering: 4 * programs + 2,
            closing: 2 * programs + 5,
        }
    }

    #[tactic(auto, using(crate::specs::Exact::stage_says))]
    fn stage(&self, program: u32) -> Result<Stage, Fault> {
        let p = self.seat(program)?;
        Ok(self.stage_of(p))
    }

    #[tactic(auto, using(crate::specs::Exact::root_none))]
    fn root(&self, program: u32) -> Result<u32, Fault> {
        let p = self.seat(program)?;
        match self.stage_of(p).has() {
            Some(_) => {
                let version = version_in(self.board.seat_at(p).announced);
                Ok(root_in(self.board.slot_at(version.slot)))
            }
            None => Err(refused(Refusal::StageForbids)),
        }
    }
}

impl Keeper for Announcing {
    fn open(&mut self, program: u32) -> Result<(), Fault>
        ensures says { OpenSays (meaning_of (state_in self.old)) program (meaning_of (state_in self.new)) result }
        ensures after { state_in self.new ≡ opens (state_in self.old) program }
        ensures value { result ≡ open_answer (state_in self.old) program }
    {
        self.begin_open(program)
    }

    fn publish(&mut self, program: u32, root: u32) -> Result<(), Fault>
        ensures says { PublishSays (meaning_of (state_in self.old)) program root (meaning_of (state_in self.new)) result }
        ensures after { state_in self.new ≡ publishes (state_in self.old) program root }
        ensures value { result ≡ publish_answer (state_in self.old) program }
    {
        self.begin_publish(program, root)
    }

    fn close(&mut self, program: u32) -> Result<(), Fault>
        ensures says { CloseSays (meaning_of (state_in self.old)) program (meaning_of (state_in self.new)) result }
        ensures after { state_in self.new ≡ closes (state_in self.old) program }
        ensures value { result ≡ close_answer (state_in self.old) program }
    {
        self.begin_close(program)
    }

    fn step(&mut self, program: u32) -> Result<Outcome, Fault>
        ensures says { StepSays (meaning_of (state_in self.old)) program (meaning_of (state_in self.new)) result }
        ensures after { state_in self.new ≡ steps (state_in self.old) program }
        ensures value { result ≡ step_answer (state_in self.old) program }
    {
        self.take_step(program)
    }
}
