//! Where an address stands among the keys of an index, and where a new one comes between them.

ghost use Rattle.std.specs.Prelude.{◌≡◌, ℕ, ◌*◌, ◌<◌, ◌≤◌, length, IfOk, IfErr, IsTrue};
ghost use Rattle.std.specs.List.{remove};
ghost use Rattle.mtrace_replay.specs.Key.{all_held, RiseFrom};
ghost use Rattle.mtrace_replay.specs.Keys.{KeepsRows};
ghost use Rattle.mtrace_replay.specs.Search.{StandsAt, FitsAt, Compares, IsVacantAt, IsGap, AreOthers};

use crate::heap::keys::Keys;
use mtrace_log::Addr;
use tlsf_store::GhostCount;

/// The number where the flag is 1, and 0 where it is 0. Without a test, and quicker than to multiply.
fn so_many_if(many: usize, one: usize) -> usize
    requires { one ≤ 1 }
    ensures { result ≡ many * one }
{
    many & 0_usize.wrapping_sub(one)
}

/// Where the last key of the address is, held or vacant; or else where it would be, in order of address. It halves what is left, and
/// compares as many addresses as the number of keys has binary digits. What a comparison tells is added and not tested,
/// so that there is no branch to guess. An address that was seen is that of the last key that reaches it.
#[inline(never)]
pub(crate) fn search(
    keys: &Keys,
    comparisons: &mut GhostCount,
    address: Addr,
) -> Result<usize, usize>
    requires { RiseFrom 0 keys.now.keys }
    ensures found { IfOk result (StandsAt keys.now.keys address) }
    ensures absent { IfErr result (FitsAt keys.now.keys address) }
    ensures compared { Compares (length keys.now.keys) comparisons.old.count comparisons.new.count }
{
    let mut low = 0;
    let mut left = keys.len();
    let mut is_seen = false;
    while left > 0 {
        let half = left / 2;
        let step = left - half;
        let standing = keys.key(low + step - 1).compare(address, comparisons);
        low += so_many_if(step, standing.reaches);
        is_seen |= standing.is_same;
        left = half;
    }
    if is_seen { Ok(low - 1) } else { Err(low) }
}

/// Whether the key there is the last one of the address. It compares that address, and where nothing is held under it the one
/// behind it. It compares at most as many addresses as the number of keys has binary digits.
#[inline(always)]
pub(crate) fn is_last_of(
    keys: &Keys,
    comparisons: &mut GhostCount,
    at: usize,
    address: Addr,
) -> bool
    requires { RiseFrom 0 keys.now.keys }
    ensures stands { IsTrue result → StandsAt keys.now.keys address at }
    ensures compared { Compares (length keys.now.keys) comparisons.old.count comparisons.new.count }
{
    if at >= keys.len() {
        return false;
    }
    let key = keys.key(at);
    if !key.compare(address, comparisons).is_same {
        return false;
    }
    if !key.is_vacant() {
        return true;
    }
    let behind = at + 1;
    behind == keys.len() || keys.key(behind).compare(address, comparisons).reaches == 0
}

/// The vacant key that is nearest to a position between two keys, or the end where that is nearer.
#[inline(never)]
fn nearest_gap(keys: &Keys, at: usize) -> usize
    requires at_most { at ≤ length keys.now.keys }
    requires free { length (all_held keys.now.rows keys.now.keys) < keys.now.rows.room }
    ensures { IsGap keys.now.keys keys.now.rows.room result }
{
    let end = keys.len();
    let has_room = end < keys.room();
    for distance in 0..end + 1 {
        let behind = at + distance;
        if behind < end && keys.key(behind).is_vacant() || behind == end && has_room {
            return behind;
        }
        if distance < at && keys.key(at - distance - 1).is_vacant() {
            return at - distance - 1;
        }
    }
    unreachable!()
}

/// A key to give up, and where a new one will stand among the others.
#[derive(Clone, Copy)]
pub(crate) struct Gap {
    pub from: usize,
    pub to: usize,
}

/// A gap for an address of this position. It is the address's own vacant key, or the nearest vacant one, so that only
/// what lies between moves. Where the end is nearer, and has room, it is one more key there.
#[inline(always)]
pub(crate) fn make_gap(keys: &mut Keys, position: Result<usize, usize>) -> Gap
    requires vacant { IfOk position (IsVacantAt keys.old.keys) }
    requires at_most { IfErr position (λ at. at ≤ length keys.old.keys) }
    requires free { length (all_held keys.old.rows keys.old.keys) < keys.old.rows.room }
    ensures from { result.from < length keys.new.keys }
    ensures to { result.to < length keys.new.keys }
    ensures within { length keys.new.keys ≤ keys.new.rows.room }
    ensures others { AreOthers keys.old.keys (remove keys.new.keys result.from) }
    ensures fits { (address : ℕ) → RiseFrom 0 keys.old.keys → IfOk position (StandsAt keys.old.keys address) → IfErr position (FitsAt keys.old.keys address)
        → FitsAt (remove keys.new.keys result.from) address result.to }
    ensures rows { KeepsRows keys.old.rows keys.new.rows }
{
    let end = keys.len();
    match position {
        Ok(at) => Gap { from: at, to: at },
        Err(at) => {
            let from = nearest_gap(keys, at);
            if from == end {
                keys.resize(end + 1);
                return Gap { from, to: at };
            }
            if from < at {
                return Gap { from, to: at - 1 };
            }
            Gap { from, to: at }
        }
    }
}
