use crate::mark::Mark;
use std::fmt;

// Which round of an open it is: there are at most two.
#[derive(Clone, Copy, PartialEq, Eq, Debug)]
pub enum Round {
    First,
    Second,
}

// What an open remembers at each label: the serial that was current when it began, and u, the version last announced.
#[derive(Clone, Copy, PartialEq, Eq, Debug)]
pub struct Attempt {
    pub since: u32,
    pub u: Mark,
}

// What an offer remembers at each label: its root, the version to be replaced, and the slot that is tried or was filled.
#[derive(Clone, Copy, PartialEq, Eq, Debug)]
pub struct Offer {
    pub root: u32,
    pub over: Mark,
    pub slot: u32,
}

// Where a program stands: between operations, or in one, at a label, with what it has to remember there.
#[derive(Clone, Copy, PartialEq, Eq, Debug)]
pub enum Position {
    Idle,
    Opening { attempt: Attempt, at: OpenLabel },
    // Has this version.
    Open(Mark),
    Offering { offer: Offer, at: OfferLabel },
    // Has offered, over this version, and still has it.
    Offered(Mark),
    // Closes this version.
    Closing { version: Mark, at: CloseLabel },
}

// The labels of an open, w being the version read after the last announcement.
#[derive(Clone, Copy, PartialEq, Eq, Debug)]
pub enum OpenLabel {
    // Announce u with help.
    O1,
    // Is u still current?
    O2,
    // Take the flag off the announcement.
    O3,
    // Read the current version.
    O4 { round: Round },
    // Announce w with help, if no one has helped.
    O5 { w: Mark, round: Round },
    // Is the version announced at O5 still current?
    O6 { round: Round },
}

// The labels of an offer. A scan over the programs remembers the next one.
#[derive(Clone, Copy, PartialEq, Eq, Debug)]
pub enum OfferLabel {
    // Look for an empty slot.
    F1,
    // Help the programs that ask for it.
    F2 { program: u32 },
    // Make the offered version current.
    F3,
}

// The labels of a close. A scan over the programs remembers the next one.
#[derive(Clone, Copy, PartialEq, Eq, Debug)]
pub enum CloseLabel {
    // Empty the own announcement.
    C1,
    // Is the version still current?
    C2,
    // Look at its slot.
    C3,
    // Help the programs that announced it.
    C4 { program: u32 },
    // Freeze its slot.
    C5,
    // Look for a program that has it.
    C6 { program: u32 },
    // Empty its slot.
    C7,
}

// The labels by their names alone, for the question where a program stands in an operation.
#[derive(Clone, Copy, PartialEq, Eq, Debug)]
pub enum Label {
    O1,
    O2,
    O3,
    O4,
    O5,
    O6,
    F1,
    F2,
    F3,
    C1,
    C2,
    C3,
    C4,
    C5,
    C6,
    C7,
}

// A label is written by its name.
impl fmt::Display for Label {
    fn fmt<W: fmt::Write>(&self, f: &mut fmt::Formatter<W>) -> fmt::Result {
        write!(f, "{self:?}")
    }
}
