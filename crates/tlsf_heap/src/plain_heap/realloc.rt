//! realloc on plain lists.

ghost use Rattle.std.specs.Prelude.{◌≡◌, ◌≢◌, ◌==◌, true, Some, IfOk};
ghost use Rattle.tlsf_heap.specs.Content.{IsSize, blocks_of, size_at};
ghost use Rattle.tlsf_heap.specs.Free.{is_live};
ghost use Rattle.tlsf_heap.specs.Realloc.{fits_in_place, resized, moved, realloc_sized};
ghost use Rattle.tlsf_heap.specs.Served.{IsMoved};
ghost use Rattle.tlsf_heap.specs.PlainHeap.{IsPlain, AnswersPlain};

use super::block::Block;
use super::content::Content;
use super::free::freed;
use super::malloc::allocate;
use crate::{Ptr, Refusal};
use std::alloc::AllocError;

/// Whether the live block at the place can have `asked` bytes where it is.
pub fn fits_in_place(content: &Content, ptr: Ptr, asked: u32) -> bool
    requires plain { IsPlain content.now }
    requires live { is_live (λ slot. slot == ptr.slot) ptr.place (blocks_of content.now.pools) ≡ true }
    ensures { result ≡ fits_in_place ptr.place asked content.now }
{
    let place = ptr.place();
    let size = content.size_at(place);
    let next = content.free_next(place);
    if asked < size {
        return next.is_some() || !content.is_full();
    }
    asked <= size + Block::size_of(&next)
}

/// The content in which the live block has `asked` bytes where it is, and what is left behind it is free.
pub fn resized(content: &Content, ptr: Ptr, asked: u32) -> Result<Content, AllocError>
    requires plain { IsPlain content.now }
    requires live { is_live (λ slot. slot == ptr.slot) ptr.place (blocks_of content.now.pools) ≡ true }
    requires fits { fits_in_place ptr.place asked content.now ≡ true }
    requires other { asked ≢ size_at ptr.place (blocks_of content.now.pools) }
    requires size { IsSize asked }
    ensures plain { IfOk result (λ after. IsPlain after) }
    ensures value { IfOk result (λ after. after ≡ resized ptr.slot ptr.place asked content.now) }
{
    let place = ptr.place();
    let next = content.free_next(place);
    let size = content.size_at(place) + Block::size_of(&next);
    let live = Block {
        place,
        size: asked,
        owner: Some(ptr.slot()),
    };
    let rest = Block::gap(u64::from(place) + u64::from(asked), size - asked);
    let mut after = content.copy()?;
    after.remove(next)?;
    after.link_gap(&rest)?;
    after.replace(place, &[Some(live), rest])?;
    Ok(after)
}

/// The content in which the live block has `asked` bytes, in its place or moved, and its pointer. A block that
/// gets smaller and can't give back what is left stays as it is.
///
/// # Errors
///
/// As `allocate`, where the block has to move; `OutOfMemory` where memory is refused.
pub fn resize(content: &Content, ptr: Ptr, asked: u32) -> Result<(Content, Ptr), Refusal>
    requires plain { IsPlain content.now }
    requires live { is_live (λ slot. slot == ptr.slot) ptr.place (blocks_of content.now.pools) ≡ true }
    requires size { IsSize asked }
    ensures { AnswersPlain result (λ given. IsMoved (λ slot. realloc_sized slot ptr.place ptr.slot asked) (Some ptr) (Some given)) (λ slot. realloc_sized slot ptr.place ptr.slot asked) content.now }
{
    let size = content.size_at(ptr.place());
    if asked == size {
        return Ok((content.copy()?, ptr));
    }
    if fits_in_place(content, ptr, asked) {
        return Ok((resized(content, ptr, asked)?, ptr));
    }
    if asked < size {
        return Ok((content.copy()?, ptr));
    }
    let (next, new) = allocate(content, asked)?;
    let after = freed(&next, ptr)?;
    Ok((after, new))
}
