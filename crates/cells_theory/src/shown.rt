// What a look shows of a field: of a cell only that it is one.
#[derive(Clone, Copy, PartialEq, Eq, Debug)]
pub enum Part {
    Empty,
    Number(u32),
    Cell,
}

// What a look shows of a cell: its leaf and its four fields.
#[derive(Clone, Copy, PartialEq, Eq, Debug)]
pub struct Shown<T> {
    pub leaf: T,
    pub parts: [Part; 4],
}
