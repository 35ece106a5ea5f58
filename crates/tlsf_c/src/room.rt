//! Items are put into a room.

ghost use Rattle.std.specs.Prelude.{◌≡◌, ℕ, ◌++◌, List, slice_set};
ghost use Rattle.tlsf_c.specs.Room.{put_over, IsPutOver};

/// Puts bytes behind those that were put into the room, as many as there is room for.
pub(crate) fn put_bytes(room: &mut [u8], start: usize, bytes: &[u8])
    ensures { (put stood : List ℕ) → IsPutOver put stood room.old start → room.new ≡ put_over (put ++ bytes.now) stood }
{
    let mut end = start;
    for byte in bytes {
        if end < room.len() {
            room[end] = *byte;
            end += 1;
        }
    }
}

/// Puts an item at an index, where there is room for it.
pub(crate) fn put<T: Copy>(room: &mut [T], index: u64, item: T)
    ensures { room.new ≡ slice_set room.old index item }
{
    let index = index as usize;
    if index < room.len() {
        room[index] = item;
    }
}
