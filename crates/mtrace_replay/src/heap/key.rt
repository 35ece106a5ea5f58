//! A key of the index: an address, and the block that it is held under, if it is.

ghost use Rattle.std.specs.Prelude.{◌≡◌, None, not, is_some};
ghost use Rattle.mtrace_replay.specs.Compare.{StandsTo};

use mtrace_log::Addr;
use tlsf_heap::Ptr;
use tlsf_store::GhostCount;

/// A key of the index: an address, and the block that it is held under. Where nothing is held there is no block, and the
/// address still tells a search which way to go.
#[derive(Clone, Copy)]
pub(crate) struct Key {
    address: Addr,
    block: Option<Ptr>,
}

/// How a key stands to an address.
#[derive(Clone, Copy)]
pub(crate) struct LedgerReplayed {
    /// 1 where the key's own address is at most that one, else 0.
    pub reaches: usize,
    /// Whether it is that one.
    pub is_same: bool,
}

impl Key {
    /// An address with the block that it is held under, if it is.
    pub(crate) fn new(address: Addr, block: Option<Ptr>) -> Key
        ensures { result ≡ record { address = address; block = block } }
    {
        Key { address, block }
    }

    /// The address where nothing is held any more.
    pub(crate) fn vacated(&self) -> Key
        ensures { result ≡ record { address = self.now.address; block = None } }
    {
        Key {
            address: self.address,
            block: None,
        }
    }

    /// How this key stands to an address: one comparison of two addresses, which is counted. Without a test, so that the
    /// search which adds by it has no branch to guess.
    #[inline(always)]
    pub(crate) fn compare(&self, address: Addr, comparisons: &mut GhostCount) -> LedgerReplayed
        ensures { StandsTo self.now.address address result comparisons.old.count comparisons.new.count }
    {
        comparisons.tick();
        let (own, other) = (self.address.value(), address.value());
        LedgerReplayed {
            reaches: (((1 << 64) + u128::from(other) - u128::from(own)) >> 64) as usize,
            is_same: self.address == address,
        }
    }

    /// The block that the address is held under.
    pub(crate) fn block(&self) -> Option<Ptr>
        ensures { result ≡ self.now.block }
    {
        self.block
    }

    /// Whether nothing is held.
    pub(crate) fn is_vacant(&self) -> bool
        ensures { result ≡ not (is_some self.now.block) }
    {
        self.block.is_none()
    }
}
