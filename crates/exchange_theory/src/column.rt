// A call on a program: the columns of the table of stages against calls.
#[derive(Clone, Copy)]
pub enum Column {
    Open,
    Publish,
    Close,
    Step,
    Root,
    Down,
    Look,
    Build,
}
