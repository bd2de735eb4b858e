use crate::mark::Mark;

// What a program announces, so that others see which version it opens or has.
#[derive(Clone, Copy, PartialEq, Eq, Debug)]
pub enum Announcement {
    Empty,
    // It has this version, or is bound to open it.
    Plain(Mark),
    // It would open this version, and asks to be helped to one.
    Help(Mark),
}
