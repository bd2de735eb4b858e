use std::fmt;

// The label of a step.
#[derive(Clone, Copy, PartialEq, Eq, Debug)]
pub enum Label {
    Announcement(announcement_theory::Label),
    Counting(counting::Label),
}

impl fmt::Display for Label {
    fn fmt<W: fmt::Write>(&self, f: &mut fmt::Formatter<W>) -> fmt::Result {
        match self {
            Label::Announcement(label) => write!(f, "{label}"),
            Label::Counting(label) => write!(f, "{label}"),
        }
    }
}
