//! A heap whose pools have addresses.

ghost use Rattle.std.specs.Prelude.{All, AllPairs, map};
ghost use Rattle.tlsf_heap.specs.Counted.{range_of};
ghost use Rattle.tlsf_c.specs.LiveFigures.{AreFigures};
ghost use Rattle.tlsf_c.specs.PlacedPools.{IsPlaced, AreApart, AreEntriesOf};

use crate::handle::Handle;
use crate::live_figures::LiveFigures;
use crate::placed_pool::PlacedPool;

/// A heap, where each of its pools lies in memory, and figures. It begins with a new heap, and zeros behind it.
#[repr(C)]
pub struct PlacedHeap {
    /// A word of the program's, which no call changes.
    pub owner: u64,
    /// The heap.
    pub handle: Handle,
    /// An entry for each of its pools. The others hold none.
    pub pools: [PlacedPool; 8],
    /// What is live in it.
    pub figures: LiveFigures,
    pub ghost placed: { All IsPlaced pools },
    pub ghost apart: { AllPairs AreApart pools },
    pub ghost figures_are: { AreFigures figures handle.value.content },
    pub ghost entries: { ∥ AreEntriesOf (map range_of handle.value.content.pools) pools ∥₁ },
}
