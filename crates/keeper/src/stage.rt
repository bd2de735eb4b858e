ghost use Rattle.std.specs.Prelude.{◌≡◌};
ghost use Rattle.keeper.specs.Stages.{has, idle};
ghost use Rattle.keeper.specs.Refusals.{MayOpen, MayPublish, MayClose, MayStep};

use crate::fault::{Fault, Refusal, refused};
use std::fmt;

// What a program is doing.
#[derive(Clone, Copy, PartialEq, Eq, Debug)]
pub enum Stage {
    Idle,
    // Since the serial that was current when it began; bound, or not yet, to the serial that it will open.
    Opening { since: u32, bound: Option<u32> },
    Open(u32),
    // Offers a root to replace the serial that it is over.
    Offering { root: u32, over: u32 },
    Offered(u32),
    Closing(u32),
}

impl Stage {
    // The serial that a program has at the stage.
    pub fn has(self) -> Option<u32>
        ensures { result ≡ has self }
    {
        match self {
            Stage::Idle => None,
            Stage::Opening { bound, .. } => bound,
            Stage::Open(serial) => Some(serial),
            Stage::Offering { over, .. } => Some(over),
            Stage::Offered(serial) => Some(serial),
            Stage::Closing(_) => None,
        }
    }

    pub fn is_idle(self) -> bool
        ensures { result ≡ idle self }
    {
        matches!(self, Stage::Idle)
    }

    // Refuses where the stage forbids an open.
    pub fn may_open(self) -> Result<(), Fault>
        ensures { MayOpen self result }
    {
        match self {
            Stage::Idle => Ok(()),
            _ => Err(refused(Refusal::StageForbids)),
        }
    }

    // The serial that a publish would be over.
    pub fn may_publish(self) -> Result<u32, Fault>
        ensures { MayPublish self result }
    {
        match self {
            Stage::Open(serial) => Ok(serial),
            _ => Err(refused(Refusal::StageForbids)),
        }
    }

    // The serial that a close would close.
    pub fn may_close(self) -> Result<u32, Fault>
        ensures { MayClose self result }
    {
        match self {
            Stage::Open(serial) | Stage::Offered(serial) => Ok(serial),
            _ => Err(refused(Refusal::StageForbids)),
        }
    }

    // Refuses where the stage forbids a step.
    pub fn may_step(self) -> Result<(), Fault>
        ensures { MayStep self result }
    {
        match self {
            Stage::Opening { .. } | Stage::Offering { .. } | Stage::Closing(_) => Ok(()),
            _ => Err(refused(Refusal::StageForbids)),
        }
    }
}

impl fmt::Display for Stage {
    fn fmt<W: fmt::Write>(&self, f: &mut fmt::Formatter<W>) -> fmt::Result {
        match *self {
            Stage::Idle => write!(f, "idle"),
            Stage::Opening { since, bound: None } => write!(f, "opening since {since}"),
            Stage::Opening {
                since,
                bound: Some(serial),
            } => write!(f, "opening since {since} bound {serial}"),
            Stage::Open(serial) => write!(f, "open {serial}"),
            Stage::Offering { root, over } => write!(f, "offering {root} over {over}"),
            Stage::Offered(over) => write!(f, "offered {over}"),
            Stage::Closing(serial) => write!(f, "closing {serial}"),
        }
    }
}
