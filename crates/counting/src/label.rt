ghost use Rattle.std.specs.Prelude.{◌≡◌};
ghost use Rattle.counting.specs.Labels.{label_answer, label_of};
ghost use Rattle.counting.specs.Model.{state_of};

use crate::state::Counting;
use keeper::{Fault, Stage};
use std::fmt;

// The step that a program stands at: each operation has one.
#[derive(Clone, Copy, PartialEq, Eq, Debug)]
pub enum Label {
    Open,
    Publish,
    Close,
}

impl fmt::Display for Label {
    fn fmt<W: fmt::Write>(&self, f: &mut fmt::Formatter<W>) -> fmt::Result {
        match self {
            Label::Open => write!(f, "open"),
            Label::Publish => write!(f, "publish"),
            Label::Close => write!(f, "close"),
        }
    }
}

// The step of a stage, none where none is left.
pub(crate) fn label_of(stage: Stage) -> Option<Label>
    ensures { result ≡ label_of stage }
{
    match stage {
        Stage::Opening { .. } => Some(Label::Open),
        Stage::Offering { .. } => Some(Label::Publish),
        Stage::Closing(_) => Some(Label::Close),
        Stage::Idle | Stage::Open(_) | Stage::Offered(_) => None,
    }
}

impl Counting {
    // The step that a program stands at.
    pub fn label(&self, program: u32) -> Result<Option<Label>, Fault>
        ensures { result ≡ label_answer (state_of self.now) program }
    {
        let p = self.seat(program)?;
        Ok(label_of(self.stages[p]))
    }
}
