ghost use Rattle.std.specs.Prelude.{◌≡◌};
ghost use Rattle.keeper.specs.Refusals.{Seated};
ghost use Rattle.announcement_theory.specs.Means.{stage_in};
ghost use Rattle.announcement_theory.specs.State.{seat_at};
ghost use Rattle.announcement.specs.Calls.{opens, open_answer, publishes, publish_answer, closes, close_answer, steps, step_answer};
ghost use Rattle.announcement.specs.Model.{state_in, Made};

use crate::stages::stage_in;
use crate::state::Announcing;
use announcement_theory::{Mark, Seat, Status, Stored};
use board::Board;
use keeper::{Fault, Outcome, Refusal, Stage, check_limits, refused, seated};

impl Announcing {
    // A keeper for so many programs, whose last serial is `last`: the two numbers by which users make one.
    pub fn new(programs: u32, last: u32) -> Result<Announcing, Fault>
        ensures { Made programs last result }
    {
        check_limits(programs, last)?;
        let mut slots = [None; 25];
        slots[0] = Some(Stored {
            serial: 0,
            root: 0,
            status: Status::Usable,
        });
        let board = Board {
            programs,
            last,
            current: Mark { serial: 0, slot: 0 },
            slots,
            seats: [Seat::IDLE; 8],
        };
        Ok(Announcing { board })
    }

    // The program, if there is one of that number.
    pub(crate) fn seat(&self, program: u32) -> Result<u32, Fault>
        ensures { Seated self.now.board.programs program result }
    {
        seated(self.board.programs, program)
    }

    pub(crate) fn stage_of(&self, program: u32) -> Stage
        ensures { result ≡ stage_in (seat_at (state_in self.now) program) }
    {
        stage_in(self.board.seat_at(program))
    }

    // What keepers share of a beginning is `Stage::may_open` and the like; what it does to the state is each keeper's own.
    #[tactic(auto, using(crate::proofs::Says::exact_calls))]
    pub(crate) fn begin_open(&mut self, program: u32) -> Result<(), Fault>
        ensures after { state_in self.new ≡ opens (state_in self.old) program }
        ensures value { result ≡ open_answer (state_in self.old) program }
    {
        let p = self.seat(program)?;
        self.stage_of(p).may_open()?;
        self.board.open(p);
        Ok(())
    }

    #[tactic(auto, using(crate::proofs::Says::exact_calls))]
    pub(crate) fn begin_publish(&mut self, program: u32, root: u32) -> Result<(), Fault>
        ensures after { state_in self.new ≡ publishes (state_in self.old) program root }
        ensures value { result ≡ publish_answer (state_in self.old) program }
    {
        let p = self.seat(program)?;
        self.stage_of(p).may_publish()?;
        if self.board.current.serial == self.board.last {
            return Err(refused(Refusal::LastSerial));
        }
        self.board.publish(p, root);
        Ok(())
    }

    #[tactic(auto, using(crate::proofs::Says::exact_calls))]
    pub(crate) fn begin_close(&mut self, program: u32) -> Result<(), Fault>
        ensures after { state_in self.new ≡ closes (state_in self.old) program }
        ensures value { result ≡ close_answer (state_in self.old) program }
    {
        let p = self.seat(program)?;
        self.stage_of(p).may_close()?;
        self.board.close(p);
        Ok(())
    }

    #[tactic(auto, using(crate::proofs::Says::exact_calls))]
    pub(crate) fn take_step(&mut self, program: u32) -> Result<Outcome, Fault>
        ensures after { state_in self.new ≡ steps (state_in self.old) program }
        ensures value { result ≡ step_answer (state_in self.old) program }
    {
        let p = self.seat(program)?;
        self.stage_of(p).may_step()?;
        match self.board.checked_step(p) {
            Some(outcome) => Ok(outcome),
            // The current serial is at most the last, which leaves room for one more.
            None => unreachable!(),
        }
    }
}
