// So many of one article.
#[derive(Clone, Copy, PartialEq, Eq, Debug)]
pub struct Item {
    pub article: u32,
    pub quantity: u16,
}

// Where a part stands: offsets in micrometres.
#[derive(Clone, Copy, PartialEq, Eq, Debug)]
pub struct Placement {
    pub x: i32,
    pub y: i32,
    pub z: i32,
}
