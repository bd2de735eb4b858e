use std::fmt;

// A version as this keeper names it: its serial, and the slot that it was put into.
#[derive(Clone, Copy, PartialEq, Eq, Debug)]
pub struct Mark {
    pub serial: u32,
    pub slot: u32,
}

impl fmt::Display for Mark {
    fn fmt<W: fmt::Write>(&self, f: &mut fmt::Formatter<W>) -> fmt::Result {
        write!(f, "{}@{}", self.serial, self.slot)
    }
}
