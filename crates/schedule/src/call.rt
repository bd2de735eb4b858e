// Which keeper a line asks for.
#[derive(Clone, Copy, PartialEq, Eq, Debug)]
pub enum Kind {
    Announcement,
    Counting,
}

// A line of a schedule.
#[derive(Clone, Copy, PartialEq, Eq, Debug)]
pub enum Call {
    // A keeper alone, of so many programs, whose last serial is `last`. A making is a line like any other, and answered like one.
    Keeper {
        kind: Kind,
        programs: u32,
        last: u32,
    },
    Open(u32),
    // A program, and the root or the building place that it publishes.
    Publish {
        program: u32,
        operand: u32,
    },
    Step(u32),
    Close(u32),
    Root(u32),
    Stage(u32),
    Current,
    Declared,
    Show,
}
