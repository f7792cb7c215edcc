/// One of a list's items, or what stands behind them.
#[derive(Drop)]
pub enum Turn<A, B> {
    /// An item.
    More(A),
    /// What stands behind the items.
    Last(B),
}
