ghost use Rattle.std.specs.Prelude.{◌≡◌};
ghost use Rattle.keeper.specs.Effects.{OpenSays, PublishSays, CloseSays, StepSays};
ghost use Rattle.counting.specs.Calls.{opens, open_answer, publishes, publish_answer, closes, close_answer, steps, step_answer};
ghost use Rattle.counting.specs.Model.{state_of};
ghost use Rattle.counting.specs.Moves.{meaning_of};
ghost use Rattle.counting.specs.Bridge.{good};
ghost use Rattle.counting.specs.Means.{laws};

use crate::state::Counting;
use keeper::{Declared, Enquiry, Fault, Keeper, Outcome, Refusal, Stage, Version, refused};

impl Enquiry for Counting {
    ghost meaning = { λ k. meaning_of (state_of k) };

    ghost sound = { λ k. laws (state_of k) (good k) };

    fn programs(&self) -> u32 {
        self.programs
    }

    fn last(&self) -> u32 {
        self.last
    }

    fn current(&self) -> Version {
        self.current
    }

    fn declared(&self) -> Declared {
        Declared {
            opening: 1,
            offering: 1,
            closing: 1,
        }
    }

    fn stage(&self, program: u32) -> Result<Stage, Fault> {
        let p = self.seat(program)?;
        Ok(self.stages[p])
    }

    fn root(&self, program: u32) -> Result<u32, Fault> {
        let p = self.seat(program)?;
        let Some(serial) = self.stages[p].has() else {
            return Err(refused(Refusal::StageForbids));
        };
        let (_, row) = self.row_of(serial);
        Ok(row.version.root)
    }
}

impl Keeper for Counting {
    fn open(&mut self, program: u32) -> Result<(), Fault>
        ensures says { OpenSays (meaning_of (state_of self.old)) program (meaning_of (state_of self.new)) result }
        ensures after { state_of self.new ≡ opens (state_of self.old) program }
        ensures value { result ≡ open_answer (state_of self.old) program }
    {
        self.begin_open(program)
    }

    fn publish(&mut self, program: u32, root: u32) -> Result<(), Fault>
        ensures says { PublishSays (meaning_of (state_of self.old)) program root (meaning_of (state_of self.new)) result }
        ensures after { state_of self.new ≡ publishes (state_of self.old) program root }
        ensures value { result ≡ publish_answer (state_of self.old) program }
    {
        self.begin_publish(program, root)
    }

    fn close(&mut self, program: u32) -> Result<(), Fault>
        ensures says { CloseSays (meaning_of (state_of self.old)) program (meaning_of (state_of self.new)) result }
        ensures after { state_of self.new ≡ closes (state_of self.old) program }
        ensures value { result ≡ close_answer (state_of self.old) program }
    {
        self.begin_close(program)
    }

    fn step(&mut self, program: u32) -> Result<Outcome, Fault>
        ensures says { StepSays (meaning_of (state_of self.old)) program (meaning_of (state_of self.new)) result }
        ensures after { state_of self.new ≡ steps (state_of self.old) program }
        ensures value { result ≡ step_answer (state_of self.old) program }
    {
        self.take_step(program)
    }
}
