use exchange_theory::Desk;

// A keeper of versions, and what the exchange itself holds. The cells and leaves are lent to each call.
#[derive(Drop)]
pub struct Exchange<K> {
    pub(crate) keeper: K,
    pub(crate) desk: Desk,
}
