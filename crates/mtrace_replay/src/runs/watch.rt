//! Who is told how far a run is.

/// What is told how many sizes a run tries next, so that it can show how far the run is. No contract speaks of it.
pub trait Watch {
    /// Tells how many sizes are tried next. Those that were told before aren't counted again.
    fn expect(&self, sizes: u64);
}

/// Nothing watches.
impl Watch for () {
    fn expect(&self, _sizes: u64) {}
}
