use std::fmt;

// What a step came to, with the serial opened, accepted or handed out.
#[derive(Clone, Copy, PartialEq, Eq, Debug)]
pub enum Outcome {
    // The operation needs further steps.
    GoesOn,
    // An open ended on this serial.
    Opened(u32),
    // A publish ended: the offered root is the current version, with this serial.
    Accepted(u32),
    // A publish ended: the version that it was over is no longer current.
    Stale,
    // A close ended, and no version is given back.
    Nothing,
    // A close ended, and the version with this serial is kept no longer.
    HandedOut(u32),
}

impl fmt::Display for Outcome {
    fn fmt<W: fmt::Write>(&self, f: &mut fmt::Formatter<W>) -> fmt::Result {
        match *self {
            Outcome::GoesOn => write!(f, "goes on"),
            Outcome::Opened(serial) => write!(f, "opened {serial}"),
            Outcome::Accepted(serial) => write!(f, "accepted {serial}"),
            Outcome::Stale => write!(f, "stale"),
            Outcome::Nothing => write!(f, "nothing"),
            Outcome::HandedOut(serial) => write!(f, "handed out {serial}"),
        }
    }
}
