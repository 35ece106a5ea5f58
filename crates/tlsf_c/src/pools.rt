//! Pools come and go.

ghost use Rattle.tlsf_heap.specs.Touches.{AtMost, add_pool_touches, remove_pool_touches};
ghost use Rattle.tlsf_heap.specs.Pools.{add_pool, remove_pool};
ghost use Rattle.tlsf_c.specs.Answers.{Answers};
ghost use Rattle.tlsf_c.specs.Kept.{StandsWhere};

use crate::handle::Handle;
use crate::status::{SERVED, number};

/// A pool of `bytes` bytes from the place `base` on, as one free block. At most 25 touches.
///
/// The status is 0 or the number of `BadPool`, `PoolsFull` or `TableFull`.
#[unsafe(no_mangle)]
pub extern "C" fn tlsf_heap_add_pool(handle: &mut Handle, base: u64, bytes: u64) -> u32
    ensures answer { Answers (add_pool base bytes) result handle.old.value handle.new.value }
    ensures stands { StandsWhere handle.old handle.new }
    ensures bound { AtMost add_pool_touches handle.old.value.touches handle.new.value.touches }
{
    match handle.heap().add_pool(base, bytes) {
        Ok(()) => SERVED,
        Err(refusal) => number(refusal),
    }
}

/// The pool that begins at the place `base` is gone. At most 26 touches.
///
/// The status is 0 or the number of `NoPool` or `PoolInUse`.
#[unsafe(no_mangle)]
pub extern "C" fn tlsf_heap_remove_pool(handle: &mut Handle, base: u64) -> u32
    ensures answer { Answers (remove_pool base) result handle.old.value handle.new.value }
    ensures stands { StandsWhere handle.old handle.new }
    ensures bound { AtMost remove_pool_touches handle.old.value.touches handle.new.value.touches }
{
    match handle.heap().remove_pool(base) {
        Ok(()) => SERVED,
        Err(refusal) => number(refusal),
    }
}
