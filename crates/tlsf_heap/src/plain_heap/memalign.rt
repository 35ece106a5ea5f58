//! memalign on plain lists.

ghost use Rattle.std.specs.Prelude.{◌≡◌, true, Some};
ghost use Rattle.tlsf_heap.specs.Content.{IsSize};
ghost use Rattle.tlsf_heap.specs.Memalign.{is_alignment, memalign_rounded};
ghost use Rattle.tlsf_heap.specs.Served.{IsServed};
ghost use Rattle.tlsf_heap.specs.PlainHeap.{IsPlain, AnswersPlain};

use super::block::Block;
use super::content::Content;
use crate::memalign::{size_asked, start_of};
use crate::{Ptr, Refusal};

/// The content in which the block picked is split, and the pointer of the live block. That has `asked` bytes
/// and begins at a multiple of the alignment.
///
/// # Errors
///
/// `NoFit` where none is picked; `TableFull` where it would have more blocks than records; `OutOfMemory` where
/// memory is refused.
pub fn split_aligned(content: &Content, align: u32, asked: u32) -> Result<(Content, Ptr), Refusal>
    requires plain { IsPlain content.now }
    requires is { is_alignment align ≡ true }
    requires size { IsSize asked }
    ensures { AnswersPlain result (IsServed (λ slot. memalign_rounded slot align (Some asked))) (λ slot. memalign_rounded slot align (Some asked)) content.now }
{
    let place = content
        .pick(size_asked(align, asked))
        .ok_or(Refusal::NoFit)?;
    let size = content.size_at(place);
    let start = start_of(place, align);
    let front = start - place;
    let slot = content.least_slot();
    let live = Block {
        place: start,
        size: asked,
        owner: Some(slot),
    };
    let gap = Block::gap(u64::from(place), front);
    let rest = Block::gap(u64::from(start) + u64::from(asked), size - front - asked);
    let mut next = content.copy()?;
    next.unlink(place, size);
    next.link_gap(&gap)?;
    next.link_gap(&rest)?;
    next.replace(place, &[gap, Some(live), rest])?;
    if next.has_too_many() {
        return Err(Refusal::TableFull);
    }
    Ok((next, Ptr::new(start, slot)))
}
