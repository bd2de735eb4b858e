ghost use Rattle.std.specs.Prelude.{◌≡◌};
ghost use Rattle.keeper.specs.Meaning.{Meaning, Laws};
ghost use Rattle.keeper.specs.Effects.{stage_answer, root_answer, OpenSays, PublishSays, CloseSays, StepSays};

use crate::fault::Fault;
use crate::outcome::Outcome;
use crate::stage::Stage;
use crate::version::{Declared, Version};

// What a keeper means, and what can be asked of it without altering it.
pub trait Enquiry {
    ghost meaning: { Self → Meaning };

    // P, how many programs there are.
    fn programs(&self) -> u32
        ensures { result ≡ (meaning self.now).programs };

    // L, the last serial that may be published.
    fn last(&self) -> u32
        ensures { result ≡ (meaning self.now).last };

    fn current(&self) -> Version
        ensures { result ≡ (meaning self.now).current };

    // The most own steps of an open, a publish and a close.
    fn declared(&self) -> Declared
        ensures { result ≡ (meaning self.now).declared };

    fn stage(&self, program: u32) -> Result<Stage, Fault>
        ensures { result ≡ stage_answer (meaning self.now) program };

    // The root of the version that a program has.
    fn root(&self, program: u32) -> Result<u32, Fault>
        ensures { result ≡ root_answer (meaning self.now) program };

    ghost sound: { (k : Self) → Laws (meaning k) };
}

// The calls that act, over the meaning that the enquiries show.
pub trait Keeper: Enquiry {
    fn open(&mut self, program: u32) -> Result<(), Fault>
        ensures { OpenSays (Self.Enquiry.meaning self.old) program (Self.Enquiry.meaning self.new) result };

    fn publish(&mut self, program: u32, root: u32) -> Result<(), Fault>
        ensures { PublishSays (Self.Enquiry.meaning self.old) program root (Self.Enquiry.meaning self.new) result };

    fn close(&mut self, program: u32) -> Result<(), Fault>
        ensures { CloseSays (Self.Enquiry.meaning self.old) program (Self.Enquiry.meaning self.new) result };

    fn step(&mut self, program: u32) -> Result<Outcome, Fault>
        ensures { StepSays (Self.Enquiry.meaning self.old) program (Self.Enquiry.meaning self.new) result };
}
