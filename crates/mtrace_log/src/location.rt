ghost use Rattle.std.specs.Prelude.{◌≡◌, ◌≢◌, ℕ, ◌<◌, ◌≤◌, ◌++◌, ◌∷◌, List, length, not, slice_index, MatchOption, SomeIff};
ghost use Rattle.std.specs.List.{prefix_len};
ghost use Rattle.mtrace_log.specs.Bytes.{space};
ghost use Rattle.mtrace_log.specs.Location.{IsLocation, IsLocationByte, EndsLocation, is_blank};

use arrayvec::ArrayVec;
use std::marker::Model;
use std::simd::prelude::*;

/// The greatest number of bytes in a location.
pub const LONGEST_LOCATION: usize = 255;

/// Where in a program a line of a log comes from: 1 to 255 bytes, each above 0x20 and not 0x7F.
#[derive(Clone, Debug, Drop, PartialEq, Eq)]
pub struct Location {
    text: ArrayVec<u8, LONGEST_LOCATION>,
}

impl Model for Location {
    ghost use Rattle.std.specs.Prelude.{ℕ, List};
    ghost use Rattle.mtrace_log.specs.Location.{IsLocation};

    ghost Value = { List ℕ };

    ghost view = { λ location. location.text.items };

    ghost invariant = { λ location. IsLocation location.text.items };

    ghost inverse = { λ bytes. record { text = record { items = bytes } } };
}

/// The first lane that can't stand in a location.
#[inline(always)]
fn first_blank(lanes: u8x16) -> Option<usize>
    ensures { MatchOption result (16 ≡ prefix_len (λ byte. not (is_blank byte)) lanes)
        (λ lane. (lane < 16) × (lane ≡ prefix_len (λ byte. not (is_blank byte)) lanes)) }
{
    let blank = lanes.simd_le(u8x16::splat(b' ')) | lanes.simd_eq(u8x16::splat(0x7F));
    let mask = blank.to_bitmask();
    if mask == 0 {
        return None;
    }
    Some(mask.trailing_zeros() as usize)
}

/// How many bytes at the front can stand in a location, of which `seen` are known to.
#[inline(never)]
fn location_rest(bytes: &[u8], seen: usize) -> usize
    requires within { seen ≤ length bytes.now }
    requires allowed { (k : ℕ) → k < seen → IsLocationByte (slice_index bytes.now k) }
    ensures { EndsLocation bytes.now result }
{
    for at in seen..bytes.len() {
        if bytes[at] <= b' ' || bytes[at] == 0x7F {
            return at;
        }
    }
    bytes.len()
}

/// How many bytes at the front can stand in a location. They are looked at 16 at a time.
#[inline(always)]
fn location_end(bytes: &[u8]) -> usize
    ensures { EndsLocation bytes.now result }
{
    let mut at = 0;
    while bytes.len() - at >= 16 {
        if let Some(lane) = first_blank(u8x16::from_slice(&bytes[at..at + 16])) {
            return at + lane;
        }
        at += 16;
    }
    location_rest(bytes, at)
}

/// What stands behind a space, where one is first.
pub(crate) fn behind_space(bytes: &[u8]) -> Option<&[u8]>
    ensures { MatchOption result ((rest : List ℕ) → bytes.now ≢ space ∷ rest) (λ rest. bytes.now ≡ space ∷ rest.now) }
{
    let [b' ', rest @ ..] = bytes else {
        return None;
    };
    Some(rest)
}

/// A location where it lies, in the line that names it.
#[derive(Drop)]
pub struct LentLocation<'a> {
    pub(crate) text: &'a [u8],
}

impl<'a> Model for LentLocation<'a> {
    ghost use Rattle.std.specs.Prelude.{ℕ, List};
    ghost use Rattle.mtrace_log.specs.Location.{IsLocation};

    ghost Value = { List ℕ };

    ghost view = { λ location. location.text.now };

    ghost invariant = { λ location. IsLocation location.text.now };
}

impl<'a> LentLocation<'a> {
    /// The location of these bytes, if they are one.
    pub fn new(bytes: &'a [u8]) -> Option<LentLocation<'a>>
        ensures { SomeIff result (IsLocation bytes.now) bytes.now }
    {
        if bytes.is_empty() || bytes.len() > LONGEST_LOCATION || location_end(bytes) < bytes.len() {
            return None;
        }
        Some(LentLocation { text: bytes })
    }

    /// The location at the front, and what stands behind the space that ends it.
    pub(crate) fn front(bytes: &'a [u8]) -> Option<(LentLocation<'a>, &'a [u8])>
        ensures { MatchOption result ((location rest : List ℕ) → IsLocation location → bytes.now ≢ location ++ space ∷ rest)
            (λ parts. IsLocation parts.0 × (bytes.now ≡ parts.0 ++ space ∷ parts.1.now)) }
    {
        let end = location_end(bytes);
        if end == 0 || end > LONGEST_LOCATION {
            return None;
        }
        let rest = behind_space(&bytes[end..])?;
        let text = &bytes[..end];
        Some((LentLocation { text }, rest))
    }

    /// Its bytes, where they lie.
    pub fn bytes(&self) -> &[u8]
        ensures { result.now ≡ self.now }
    {
        self.text
    }

    /// The location, kept.
    pub fn keep(&self) -> Location
        ensures { result ≡ self.now }
    {
        let mut text = ArrayVec::new();
        if text.try_extend_from_slice(self.text).is_err() {
            unreachable!();
        }
        Location { text }
    }
}

impl Location {
    /// The location of these bytes, if they are one.
    pub fn new(bytes: &[u8]) -> Option<Self>
        ensures { SomeIff result (IsLocation bytes.now) bytes.now }
    {
        let lent = LentLocation::new(bytes)?;
        Some(lent.keep())
    }

    /// The location, lent.
    pub fn lend(&self) -> LentLocation<'_>
        ensures { result ≡ self.now }
    {
        LentLocation { text: self.bytes() }
    }

    /// The bytes.
    pub fn bytes(&self) -> &[u8]
        ensures bytes { result.now ≡ self.now }
        ensures location { IsLocation result.now }
    {
        self.text.as_slice()
    }
}

/// The location of an event, kept.
pub fn kept_location(at: &Option<LentLocation<'_>>) -> Option<Location>
    ensures { result ≡ at.now }
{
    Some(at.as_ref()?.keep())
}

/// Becomes the location of an event, kept, in its place where one is kept already.
pub fn set_location(kept: &mut Option<Location>, at: &Option<LentLocation<'_>>)
    ensures { kept.new ≡ at.now }
{
    match at {
        Some(lent) => match kept {
            Some(location) => {
                location.text.clear();
                if location.text.try_extend_from_slice(lent.text).is_err() {
                    unreachable!();
                }
            }
            None => *kept = Some(lent.keep()),
        },
        None => *kept = None,
    }
}

/// The location of an event, lent.
pub(crate) fn lent_location(at: &Option<Location>) -> Option<LentLocation<'_>>
    ensures { result ≡ at.now }
{
    Some(at.as_ref()?.lend())
}
