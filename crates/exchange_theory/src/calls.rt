use cells_theory::Shown;
use keeper::Outcome;

// What a field of a new cell is taken from: nothing, a number, or the cell that a reading or a building place names.
#[derive(Clone, Copy)]
pub enum Source {
    Empty,
    Number(u32),
    Reading(u32),
    Building(u32),
}

// A call, as a value.
#[derive(Clone, Copy)]
pub enum Call<T> {
    // The program begins to open a version.
    Open(u32),
    // The program begins to offer the cell in one of its building places.
    Publish {
        program: u32,
        place: u32,
    },
    // The program gives up its places and begins to close its version.
    Close(u32),
    // One step of what the program has begun.
    Step(u32),
    // The root of the program's version, into a reading place.
    Root {
        program: u32,
        place: u32,
    },
    // From the cell in a reading place down a field, into a reading place.
    Down {
        program: u32,
        place: u32,
        field: u32,
        to: u32,
    },
    // What is to be seen of the cell in a reading place.
    Look {
        program: u32,
        place: u32,
    },
    // A new cell, into a building place.
    Build {
        program: u32,
        place: u32,
        sources: [Source; 4],
        leaf: T,
    },
    // Frees the first waiting cell.
    Sweep,
}

// What an accepted call answers.
#[derive(Clone, Copy)]
pub enum Answer<T> {
    // An open, a publish or a close has begun.
    Begun,
    // What a step came to.
    Stepped(Outcome),
    // A root, a down or a build is done.
    Done,
    // What a look shows.
    Shown(Shown<T>),
    // A cell was swept.
    Swept,
    // No cell waits.
    Unswept,
}
