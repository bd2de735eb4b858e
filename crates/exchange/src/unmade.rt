use keeper::Fault;

// A making that was refused: the keeper that was given, and why.
#[derive(Drop)]
pub struct Unmade<K> {
    pub keeper: K,
    pub fault: Fault,
}
