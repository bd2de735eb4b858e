// What stands for no cell, as a link and as a head. The rules of the memory that the host lends say so, 32 bits a link; and a head becomes
// a link as it is. So neither is an Option.
pub const NO_LINK: u32 = 4_294_967_295;

// The highest count that may still be raised.
pub const MOST: u32 = 999_990;

// One field of a cell: empty, a number, or the number of a cell.
#[derive(Clone, Copy, PartialEq, Eq, Debug)]
pub enum Field {
    Empty,
    Number(u32),
    Cell(u32),
}

// A cell: how often it is named, the next cell of its chain, and four fields. Cells name one another by number, and leaves lie beside
// them, since the host lends its memory as one slice of each.
#[derive(Clone, Copy, PartialEq, Eq, Debug)]
pub struct Cell {
    pub count: u32,
    pub link: u32,
    pub fields: [Field; 4],
}

// The first cell of the free chain and of the waiting chain.
#[derive(Clone, Copy, PartialEq, Eq, Debug)]
pub struct Heads {
    pub free: u32,
    pub waiting: u32,
}
