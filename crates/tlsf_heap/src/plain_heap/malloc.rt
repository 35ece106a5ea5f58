//! malloc on plain lists.

ghost use Rattle.std.specs.Prelude.{Some};
ghost use Rattle.tlsf_heap.specs.Content.{IsSize};
ghost use Rattle.tlsf_heap.specs.Malloc.{malloc_rounded};
ghost use Rattle.tlsf_heap.specs.Served.{IsServed};
ghost use Rattle.tlsf_heap.specs.PlainHeap.{IsPlain, AnswersPlain};

use super::block::Block;
use super::content::Content;
use crate::{Ptr, Refusal};

/// The content in which the block picked is split for a live one of `asked` bytes, and its pointer.
///
/// # Errors
///
/// `NoFit` where none is picked; `TableFull` where a rest would be left and each record is in use;
/// `OutOfMemory` where memory is refused.
pub fn allocate(content: &Content, asked: u32) -> Result<(Content, Ptr), Refusal>
    requires plain { IsPlain content.now }
    requires size { IsSize asked }
    ensures { AnswersPlain result (IsServed (λ slot. malloc_rounded slot (Some asked))) (λ slot. malloc_rounded slot (Some asked)) content.now }
{
    let place = content.pick(asked).ok_or(Refusal::NoFit)?;
    let size = content.size_at(place);
    if asked < size && content.is_full() {
        return Err(Refusal::TableFull);
    }
    let slot = content.least_slot();
    let live = Block {
        place,
        size: asked,
        owner: Some(slot),
    };
    let rest = Block::gap(u64::from(place) + u64::from(asked), size - asked);
    let mut next = content.copy()?;
    next.unlink(place, size);
    next.link_gap(&rest)?;
    next.replace(place, &[Some(live), rest])?;
    Ok((next, Ptr::new(place, slot)))
}
