ghost use Rattle.std.specs.Prelude.{◌≡◌};
ghost use Rattle.desk.specs.Tallies.{noted};

use crate::answer::Answer;
use std::fmt;

// How many lines were calls, how many of those were refused, and how many lines were unreadable.
#[derive(Clone, Copy, Default)]
pub struct Tally {
    pub calls: u64,
    pub refused: u64,
    pub unreadable: u64,
}

impl Tally {
    // Of no line.
    pub fn new() -> Tally
        ensures { result ≡ record { calls = 0; refused = 0; unreadable = 0 } }
    {
        Tally::default()
    }

    // With one line more, by its answer. A count stays at the largest number that it can hold.
    pub fn with(self, answer: Answer) -> Tally
        ensures { result ≡ noted self answer }
    {
        match answer {
            Answer::Unreadable => Tally {
                unreadable: self.unreadable.saturating_add(1),
                ..self
            },
            Answer::Refused(_) => Tally {
                calls: self.calls.saturating_add(1),
                refused: self.refused.saturating_add(1),
                ..self
            },
            _ => Tally {
                calls: self.calls.saturating_add(1),
                ..self
            },
        }
    }
}

impl fmt::Display for Tally {
    fn fmt<W: fmt::Write>(&self, f: &mut fmt::Formatter<W>) -> fmt::Result {
        let Tally {
            calls,
            refused,
            unreadable,
        } = *self;
        write!(
            f,
            "{calls} calls, {refused} refused, {unreadable} unreadable"
        )
    }
}
