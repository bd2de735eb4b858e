use crate::label::Label;
use keeper::{Declared, Fault, Outcome, Stage, Version};
use std::fmt;

// What a line is answered. A refusal is one of the answers, and no error: carrying out a call on a desk cannot fail.
#[derive(Clone, Copy, PartialEq, Eq, Debug)]
pub enum Answer {
    // A keeper was made.
    Made,
    // An open, a publish or a close has begun.
    Begun,
    // A step was taken, at a label.
    Stepped { label: Label, outcome: Outcome },
    // The root of the version that a program has.
    Root(u32),
    Stage(Stage),
    Current(Version),
    Declared(Declared),
    // The state follows, as the keeper itself shows it.
    Show,
    Refused(Fault),
    // The line is no call, or there is nothing yet that it could go to.
    Unreadable,
}

impl fmt::Display for Answer {
    fn fmt<W: fmt::Write>(&self, f: &mut fmt::Formatter<W>) -> fmt::Result {
        match *self {
            Answer::Made => write!(f, "made"),
            Answer::Begun => write!(f, "begun"),
            Answer::Stepped { label, outcome } => write!(f, "{label} {outcome}"),
            Answer::Root(root) => write!(f, "{root}"),
            Answer::Stage(stage) => write!(f, "{stage}"),
            Answer::Current(version) => write!(f, "{version}"),
            Answer::Declared(declared) => write!(f, "{declared}"),
            Answer::Show => Ok(()),
            Answer::Refused(fault) => write!(f, "{fault}"),
            Answer::Unreadable => write!(f, "unreadable"),
        }
    }
}
