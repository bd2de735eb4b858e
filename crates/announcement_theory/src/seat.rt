use crate::announcement::Announcement;
use crate::position::Position;

// A program's place in the keeper: where it stands, and what it announces.
#[derive(Clone, Copy, PartialEq, Eq, Debug)]
pub struct Seat {
    pub position: Position,
    pub announced: Announcement,
}

impl Seat {
    // Nobody's place: idle, and announcing nothing.
    pub const IDLE: Seat = Seat {
        position: Position::Idle,
        announced: Announcement::Empty,
    };
}
