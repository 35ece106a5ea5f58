//! free on plain lists.

ghost use Rattle.std.specs.Prelude.{◌≡◌, ◌==◌, true, IfOk};
ghost use Rattle.tlsf_heap.specs.Content.{blocks_of};
ghost use Rattle.tlsf_heap.specs.Free.{is_live, after_free};
ghost use Rattle.tlsf_heap.specs.PlainHeap.{IsPlain};

use super::block::Block;
use super::content::Content;
use crate::Ptr;
use std::alloc::AllocError;

/// The content in which the live block and its free neighbours in the pool are one free block.
pub fn freed(content: &Content, ptr: Ptr) -> Result<Content, AllocError>
    requires plain { IsPlain content.now }
    requires live { is_live (λ slot. slot == ptr.slot) ptr.place (blocks_of content.now.pools) ≡ true }
    ensures plain { IfOk result (λ after. IsPlain after) }
    ensures value { IfOk result (λ after. after ≡ after_free ptr.place content.now) }
{
    let place = ptr.place();
    let previous = content.free_previous(place);
    let next = content.free_next(place);
    let start = Block::start_of(&previous, place);
    let size = content.size_at(place);
    let merged = Block::free(
        start,
        Block::size_of(&previous) + size + Block::size_of(&next),
    );
    let mut after = content.copy()?;
    after.remove(previous)?;
    after.remove(next)?;
    after.replace(place, &[Some(merged)])?;
    after.link(merged.place, merged.size)?;
    Ok(after)
}
