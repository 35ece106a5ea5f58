//! How the vacant keys of an index are spread evenly among the held ones.

ghost use Rattle.std.specs.Prelude.{◌≡◌, ◌≢◌, ◌<◌, ◌≤◌, true, false, length, take};
ghost use Rattle.mtrace_replay.specs.Key.{RiseFrom};
ghost use Rattle.mtrace_replay.specs.Keys.{KeepsRows};
ghost use Rattle.mtrace_replay.specs.Arrange.{held_keys};

use crate::heap::keys::Keys;

/// How many have come since the keys were arranged: new addresses between them, new addresses at the end, and moves
/// of keys for these. By default nothing has come.
#[derive(Clone, Copy, Default)]
pub(crate) struct Came {
    between: usize,
    at_end: usize,
    moved: usize,
}

impl Came {
    /// One more came, at the end or between, and this many keys moved for it.
    pub(crate) fn add(&mut self, is_end: bool, moved: usize) {
        self.moved = self.moved.saturating_add(moved);
        if is_end {
            self.at_end = self.at_end.saturating_add(1);
        } else {
            self.between = self.between.saturating_add(1);
        }
    }

    /// How many keys have moved.
    pub(crate) fn moved(&self) -> usize {
        self.moved
    }

    /// How much of the room that is left is for addresses between the keys: as great a part as came there.
    fn share(&self, left: usize) -> usize
        ensures { result ≤ left }
    {
        let all = self.between.saturating_add(self.at_end).max(1);
        (left.saturating_mul(self.between) / all).min(left)
    }
}

/// Leaves the held keys alone, in their order.
fn leave_held(keys: &mut Keys)
    ensures keys { keys.new.keys ≡ held_keys keys.old.keys }
    ensures rows { KeepsRows keys.old.rows keys.new.rows }
{
    let mut held = 0;
    for at in 0..keys.len() {
        let key = keys.key(at);
        if key.is_vacant() {
            continue;
        }
        keys.set_key(held, &key);
        held += 1;
    }
    keys.resize(held);
}

/// Whether the last held key that is left goes to the last position that is left; else that position stays vacant. The key
/// goes there where all positions are left, or as many positions as keys. It also goes there where the positions in front are
/// fewer than these keys' share of all positions.
fn is_its_position(left: usize, held: usize, end: usize, all: usize) -> bool
    requires some { 0 < end }
    requires all { end ≡ all → 0 < left }
    ensures some_left { result ≡ true → 0 < left }
    ensures vacant { result ≡ false → left ≢ end }
    ensures before { result ≡ false → end ≢ all }
{
    if left == end || end == all {
        return true;
    }
    left > 0 && left.saturating_mul(all) > (end - 1).saturating_mul(held)
}

/// Spreads the first this many keys over all positions, with vacant ones before each.
fn space_out(keys: &mut Keys, held: usize)
    requires some { 0 < held }
    requires within { held ≤ length keys.old.keys }
    requires rise { RiseFrom 0 (take held keys.old.keys) }
    ensures held { held_keys keys.new.keys ≡ held_keys (take held keys.old.keys) }
    ensures rise { RiseFrom 0 keys.new.keys }
    ensures len { length keys.new.keys ≡ length keys.old.keys }
    ensures rows { keys.new.rows ≡ keys.old.rows }
{
    let all = keys.len();
    let mut end = all;
    let mut left = held;
    while end > 0 {
        if is_its_position(left, held, end, all) {
            let key = keys.key(left - 1);
            keys.set_key(end - 1, &key);
            left -= 1;
            end -= 1;
            continue;
        }
        let key = keys.key(end).vacated();
        keys.set_key(end - 1, &key);
        end -= 1;
    }
}

/// Leaves the held keys, and shares the room that is left by where new addresses came. Vacant keys stand evenly among
/// the held ones, at most as many as these. The rest of the room is at the end.
#[inline(never)]
pub(crate) fn arrange(keys: &mut Keys, came: &Came)
    requires rise { RiseFrom 0 keys.old.keys }
    ensures held { held_keys keys.new.keys ≡ held_keys keys.old.keys }
    ensures rise { RiseFrom 0 keys.new.keys }
    ensures within { length keys.new.keys ≤ keys.new.rows.room }
    ensures rows { KeepsRows keys.old.rows keys.new.rows }
{
    leave_held(keys);
    let held = keys.len();
    if held == 0 {
        return;
    }
    let vacant = came.share(keys.room() - held).min(held);
    keys.resize(held + vacant);
    space_out(keys, held);
}
