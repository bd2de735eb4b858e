use std::fmt;

// How far a version in a slot is on its way out.
#[derive(Clone, Copy, PartialEq, Eq, Debug)]
pub enum Status {
    // Programs may open it.
    Usable,
    // A close looks for programs that announced it and still want help.
    Pending,
    // No program is bound to it any more.
    Frozen,
}

impl fmt::Display for Status {
    fn fmt<W: fmt::Write>(&self, f: &mut fmt::Formatter<W>) -> fmt::Result {
        f.write_str(match self {
            Status::Usable => "usable",
            Status::Pending => "pending",
            Status::Frozen => "frozen",
        })
    }
}

// What a slot that is not empty holds: a version's serial, its root, and how far it is on its way out.
#[derive(Clone, Copy, PartialEq, Eq, Debug)]
pub struct Stored {
    pub serial: u32,
    pub root: u32,
    pub status: Status,
}
