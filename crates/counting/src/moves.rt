ghost use Rattle.std.specs.Prelude.{◌≡◌, ℕ, ◌+◌, ◌<◌, true, Some, None, slice_index_or};
ghost use Rattle.keeper.specs.declared.outcome.Outcome.TheVariants.{Opened};
ghost use Rattle.keeper.specs.declared.stage.Stage.TheVariants.{Offering, Closing};
ghost use Rattle.keeper.specs.Totals.{total};
ghost use Rattle.keeper.specs.Stages.{uses};
ghost use Rattle.keeper.specs.Refusals.{Seated};
ghost use Rattle.keeper.specs.Meaning.{is_serial};
ghost use Rattle.counting.specs.State.{steady, on_row, empty, first};
ghost use Rattle.counting.specs.Calls.{opens, open_answer, publishes, publish_answer, closes, close_answer, steps, step_answer};
ghost use Rattle.counting.specs.Model.{state_of, Made};
ghost use Rattle.counting.specs.Moves.{stage_at, put, place, opening, open_ends, offer_ends, offer_answers, close_ends, close_answers};

use crate::rows;
use crate::rows::Row;
use crate::state::Counting;
use keeper::{Fault, Outcome, Refusal, Stage, Version, check_limits, refused, seated};

impl Counting {
    // A keeper for so many programs, whose last serial is `last`: the two numbers by which users make one.
    pub fn new(programs: u32, last: u32) -> Result<Counting, Fault>
        ensures { Made programs last result }
    {
        check_limits(programs, last)?;
        let current = Version { serial: 0, root: 0 };
        let mut rows = [None; 9];
        rows[0] = Some(Row {
            version: current,
            users: 0,
        });
        Ok(Counting {
            programs,
            last,
            current,
            rows,
            stages: [Stage::Idle; 8],
        })
    }

    // The program's place among the stages.
    pub(crate) fn seat(&self, program: u32) -> Result<usize, Fault>
        ensures { Seated self.now.programs program result }
    {
        let p = seated(self.programs, program)?;
        Ok(p as usize)
    }

    // The row of a serial that some row holds, and its place.
    pub(crate) fn row_of(&self, serial: u32) -> (usize, Row)
        requires { 0 < total (on_row (is_serial serial)) (state_of self.now).rows }
        ensures value { result.0 ≡ place (state_of self.now) serial }
        ensures bound { result.0 < self.now.programs + 1 }
        ensures row { slice_index_or self.now.rows result.0 None ≡ Some result.1 }
    {
        let Some(i) = rows::row_of(&self.rows[..=self.programs as usize], serial) else {
            unreachable!()
        };
        let Some(row) = self.rows[i] else {
            unreachable!()
        };
        (i, row)
    }

    // The first empty row, where there is one.
    pub(crate) fn vacant(&self) -> usize
        requires { first empty (state_of self.now).rows < self.now.programs + 1 }
        ensures value { result ≡ first empty (state_of self.now).rows }
        ensures bound { result < self.now.programs + 1 }
    {
        match rows::vacant(&self.rows[..=self.programs as usize]) {
            Some(i) => i,
            None => unreachable!(),
        }
    }

    // Moves a program to a stage that uses the same serial.
    pub(crate) fn set_stage(&mut self, p: usize, stage: Stage)
        requires within { p < self.old.programs }
        requires level { (s : ℕ) → uses s stage ≡ uses s (stage_at (state_of self.old) p) }
        requires calm { steady self.old.current.serial self.old.last stage ≡ true }
        ensures { state_of self.new ≡ put (state_of self.old) p stage }
    {
        self.stages[p] = stage;
    }

    pub(crate) fn end_open(&mut self, p: usize) -> Outcome
        requires { opening (stage_at (state_of self.old) p) ≡ true }
        ensures after { state_of self.new ≡ open_ends (state_of self.old) p }
        ensures value { result ≡ Opened self.old.current.serial }
    {
        let serial = self.current.serial;
        let (i, row) = self.row_of(serial);
        self.rows[i] = Some(row.raised());
        self.stages[p] = Stage::Open(serial);
        Outcome::Opened(serial)
    }

    pub(crate) fn end_offer(&mut self, p: usize, root: u32, over: u32) -> Outcome
        requires { stage_at (state_of self.old) p ≡ Offering root over }
        ensures after { state_of self.new ≡ offer_ends (state_of self.old) p root over }
        ensures value { result ≡ offer_answers (state_of self.old) over }
    {
        if over != self.current.serial {
            self.set_stage(p, Stage::Offered(over));
            return Outcome::Stale;
        }
        let version = Version {
            serial: over + 1,
            root,
        };
        let i = self.vacant();
        self.rows[i] = Some(Row { version, users: 0 });
        self.stages[p] = Stage::Offered(over);
        self.current = version;
        Outcome::Accepted(over + 1)
    }

    pub(crate) fn end_close(&mut self, p: usize, serial: u32) -> Outcome
        requires { stage_at (state_of self.old) p ≡ Closing serial }
        ensures after { state_of self.new ≡ close_ends (state_of self.old) p serial }
        ensures value { result ≡ close_answers (state_of self.old) serial }
    {
        let (i, row) = self.row_of(serial);
        if row.users == 1 && serial != self.current.serial {
            self.rows[i] = None;
            self.stages[p] = Stage::Idle;
            return Outcome::HandedOut(serial);
        }
        self.rows[i] = Some(row.lowered());
        self.stages[p] = Stage::Idle;
        Outcome::Nothing
    }

    // What keepers share of a beginning is `Stage::may_open` and the like; what it does to the state is each keeper's own.
    pub(crate) fn begin_open(&mut self, program: u32) -> Result<(), Fault>
        ensures after { state_of self.new ≡ opens (state_of self.old) program }
        ensures value { result ≡ open_answer (state_of self.old) program }
    {
        let p = self.seat(program)?;
        self.stages[p].may_open()?;
        let since = self.current.serial;
        self.set_stage(p, Stage::Opening { since, bound: None });
        Ok(())
    }

    pub(crate) fn begin_publish(&mut self, program: u32, root: u32) -> Result<(), Fault>
        ensures after { state_of self.new ≡ publishes (state_of self.old) program root }
        ensures value { result ≡ publish_answer (state_of self.old) program }
    {
        let p = self.seat(program)?;
        let over = self.stages[p].may_publish()?;
        if self.current.serial == self.last {
            return Err(refused(Refusal::LastSerial));
        }
        self.set_stage(p, Stage::Offering { root, over });
        Ok(())
    }

    pub(crate) fn begin_close(&mut self, program: u32) -> Result<(), Fault>
        ensures after { state_of self.new ≡ closes (state_of self.old) program }
        ensures value { result ≡ close_answer (state_of self.old) program }
    {
        let p = self.seat(program)?;
        let serial = self.stages[p].may_close()?;
        self.set_stage(p, Stage::Closing(serial));
        Ok(())
    }

    pub(crate) fn take_step(&mut self, program: u32) -> Result<Outcome, Fault>
        ensures after { state_of self.new ≡ steps (state_of self.old) program }
        ensures value { result ≡ step_answer (state_of self.old) program }
    {
        let p = self.seat(program)?;
        let stage = self.stages[p];
        match stage {
            Stage::Opening { .. } => Ok(self.end_open(p)),
            Stage::Offering { root, over } => Ok(self.end_offer(p, root, over)),
            Stage::Closing(serial) => Ok(self.end_close(p, serial)),
            Stage::Idle | Stage::Open(_) | Stage::Offered(_) => Err(refused(Refusal::StageForbids)),
        }
    }
}
