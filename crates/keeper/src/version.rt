use std::fmt;

// A version: its serial, and its root, the number of the cell that it begins at.
#[derive(Clone, Copy, PartialEq, Eq, Debug)]
pub struct Version {
    pub serial: u32,
    pub root: u32,
}

impl fmt::Display for Version {
    fn fmt<W: fmt::Write>(&self, f: &mut fmt::Formatter<W>) -> fmt::Result {
        let Version { serial, root } = *self;
        write!(f, "{serial} root {root}")
    }
}

// The most steps of its own that a program takes to open, to publish and to close.
#[derive(Clone, Copy, PartialEq, Eq, Debug)]
pub struct Declared {
    pub opening: u32,
    pub offering: u32,
    pub closing: u32,
}

impl fmt::Display for Declared {
    fn fmt<W: fmt::Write>(&self, f: &mut fmt::Formatter<W>) -> fmt::Result {
        let Declared {
            opening,
            offering,
            closing,
        } = *self;
        write!(f, "{opening} {offering} {closing}")
    }
}
