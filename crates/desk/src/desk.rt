ghost use Rattle.desk.specs.Performs.{Answers, AnswersLine, Goes, Makes};
ghost use Rattle.desk.specs.Standing.{standing};

use crate::answer::Answer;
use crate::calls::perform;
use announcement::Announcing;
use counting::Counting;
use schedule::{Call, Kind, read};
use std::fmt;

// The keeper that the calls go to: the one that was made last. There are two kinds, so it is an enum and not a boxed trait, which would want the heap; and none is a
// case beside them, so that a desk has methods, which an Option of one would not.
#[derive(Drop)]
pub enum Desk {
    Nothing,
    Announcing(Announcing),
    Counting(Counting),
}

impl Desk {
    // Makes a keeper; where that is refused, what was made before stays. Each kind is put in place in an arm of its own: a desk made by
    // one match and handed on in a Result was copied part by part, in twice the time.
    fn make(&mut self, kind: Kind, programs: u32, last: u32) -> Answer
        ensures { Makes kind programs last (standing self.old) (standing self.new) result }
    {
        match kind {
            Kind::Announcement => match Announcing::new(programs, last) {
                Ok(keeper) => *self = Desk::Announcing(keeper),
                Err(fault) => return Answer::Refused(fault),
            },
            Kind::Counting => match Counting::new(programs, last) {
                Ok(keeper) => *self = Desk::Counting(keeper),
                Err(fault) => return Answer::Refused(fault),
            },
        }
        Answer::Made
    }

    // Carries out a call on what was made last.
    fn go(&mut self, call: Call) -> Answer
        ensures { Goes (standing self.old) call (standing self.new) result }
    {
        match self {
            Desk::Nothing => Answer::Unreadable,
            Desk::Announcing(keeper) => perform(keeper, call),
            Desk::Counting(keeper) => perform(keeper, call),
        }
    }

    // Carries out the call that a line is written as, if it is one.
    pub fn answer_line(&mut self, line: &[u8]) -> Answer
        ensures { AnswersLine (standing self.old) line.now (standing self.new) result }
    {
        match read(line) {
            Some(call) => self.answer(call),
            None => Answer::Unreadable,
        }
    }

    // Carries out a call: what stands on the desk then, and the answer.
    pub fn answer(&mut self, call: Call) -> Answer
        ensures { Answers (standing self.old) call (standing self.new) result }
    {
        match call {
            Call::Keeper {
                kind,
                programs,
                last,
            } => self.make(kind, programs, last),
            _ => self.go(call),
        }
    }
}

// The whole state of the keeper in one line.
impl fmt::Display for Desk {
    fn fmt<W: fmt::Write>(&self, f: &mut fmt::Formatter<W>) -> fmt::Result {
        match self {
            Desk::Nothing => Ok(()),
            Desk::Announcing(keeper) => write!(f, "{keeper}"),
            Desk::Counting(keeper) => write!(f, "{keeper}"),
        }
    }
}
