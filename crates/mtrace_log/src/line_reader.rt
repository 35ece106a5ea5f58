ghost use Rattle.std.specs.Prelude.{◌≡◌, ◌≢◌, ◌↔◌, ℕ, ◌+◌, ◌<◌, ◌≤◌, ◌++◌, ◌∷◌, List, length, codes, Err, IsTrue, IfSome, MatchOption};
ghost use Rattle.mtrace_log.specs.Bytes.{space};
ghost use Rattle.mtrace_log.specs.Address.{IsAddress, address_text, pointer_text, size_text};
ghost use Rattle.mtrace_log.specs.Form.{numbers_text, fields_text};
ghost use Rattle.mtrace_log.specs.Form.Form.{marked};
ghost use Rattle.mtrace_log.specs.Fields.{Finds, EndsField, IsFront, HasNoFront, IsPointer, IsSize, AreNumbers, AreFields, HasForm};
ghost use Rattle.mtrace_log.specs.Reading.{ReadsAs};
ghost use Rattle.mtrace_log.specs.declared.event.LineFault.TheVariants.{TooLong};

use crate::addr::Addr;
use crate::event::{Event, LineFault};
use crate::hex;
use crate::location::{LentLocation, behind_space};

/// The longest line of any event, in bytes without its newline.
pub const LONGEST_LINE: usize = 316;

/// The numbers behind the pointer of a line: an alignment or none, and a size.
type Numbers = (Option<Addr>, u64);

/// Whether a field ends before these bytes.
fn ends_field(bytes: &[u8]) -> bool
    ensures { IsTrue result ↔ EndsField bytes.now }
{
    matches!(bytes, [] | [b' ', ..])
}

/// What follows `(nil)`, where a field ends behind it.
fn behind_nil(bytes: &[u8]) -> Option<&[u8]>
    ensures { MatchOption result ((rest : List ℕ) → EndsField rest → bytes.now ≢ codes "(nil)" ++ rest)
        (λ rest. EndsField rest.now × (bytes.now ≡ codes "(nil)" ++ rest.now)) }
{
    match bytes {
        [b'(', b'n', b'i', b'l', b')', rest @ ..] if ends_field(rest) => Some(rest),
        _ => None,
    }
}

/// What follows `0`, where a field ends behind it.
fn behind_zero(bytes: &[u8]) -> Option<&[u8]>
    ensures { MatchOption result ((rest : List ℕ) → EndsField rest → bytes.now ≢ codes "0" ++ rest)
        (λ rest. EndsField rest.now × (bytes.now ≡ codes "0" ++ rest.now)) }
{
    match bytes {
        [b'0', rest @ ..] if ends_field(rest) => Some(rest),
        _ => None,
    }
}

/// ADDR at the front, and what follows it, whether a field ends before that or not.
#[inline(always)]
pub(crate) fn front_addr(bytes: &[u8]) -> Option<(Addr, &[u8])>
    ensures front { MatchOption result (HasNoFront IsAddress address_text bytes.now)
        (λ front. IsAddress front.0 × (bytes.now ≡ address_text front.0 ++ front.1.now)) }
    // Where an address is spelled up to the end of a field, it is this one.
    ensures only { IfSome result (λ front. (n : ℕ) (rest : List ℕ) → IsFront IsAddress address_text bytes.now n rest → rest ≡ front.1.now) }
{
    let [b'0', b'x', digits @ ..] = bytes else {
        return None;
    };
    let (number, rest) = hex::read_digits(digits);
    let addr = Addr::new(number)?;
    Some((addr, rest))
}

/// ADDR at the front, and what follows it.
#[inline(always)]
fn read_addr(bytes: &[u8]) -> Option<(Addr, &[u8])>
    ensures { MatchOption result (HasNoFront IsAddress address_text bytes.now)
        (λ front. IsFront IsAddress address_text bytes.now front.0 front.1.now) }
{
    let Some((addr, rest)) = front_addr(bytes) else {
        return None;
    };
    if !ends_field(rest) {
        return None;
    }
    Some((addr, rest))
}

/// PTR at the front, and what follows it.
#[inline(always)]
fn read_pointer(bytes: &[u8]) -> Option<(Option<Addr>, &[u8])>
    ensures { MatchOption result (HasNoFront IsPointer pointer_text bytes.now)
        (λ front. IsFront IsPointer pointer_text bytes.now front.0 front.1.now) }
{
    if let Some(rest) = behind_nil(bytes) {
        return Some((None, rest));
    }
    let Some((addr, rest)) = read_addr(bytes) else {
        return None;
    };
    Some((Some(addr), rest))
}

/// SIZE at the front, and what follows it.
#[inline(always)]
fn read_size(bytes: &[u8]) -> Option<(u64, &[u8])>
    ensures { MatchOption result (HasNoFront IsSize size_text bytes.now)
        (λ front. IsFront IsSize size_text bytes.now front.0 front.1.now) }
{
    if let Some(rest) = behind_zero(bytes) {
        return Some((0, rest));
    }
    let Some((addr, rest)) = read_addr(bytes) else {
        return None;
    };
    Some((addr.value(), rest))
}

/// SIZE, or ALIGN SIZE
#[inline(always)]
fn read_numbers(bytes: &[u8]) -> Option<Numbers>
    ensures { Finds AreNumbers numbers_text bytes.now result }
{
    let Some((first, rest)) = read_size(bytes) else {
        return None;
    };
    let Some(behind) = behind_space(rest) else {
        return Some((None, first));
    };
    let align = Addr::new(first)?;
    let Some((size, last)) = read_size(behind) else {
        return None;
    };
    if !last.is_empty() {
        return None;
    }
    Some((Some(align), size))
}

/// PTR, or PTR and the numbers
#[inline(always)]
fn read_fields(bytes: &[u8]) -> Option<(Option<Addr>, Option<Numbers>)>
    ensures { Finds (λ fields. AreFields fields.0 fields.1) (λ fields. fields_text fields.0 fields.1) bytes.now result }
{
    let Some((pointer, rest)) = read_pointer(bytes) else {
        return None;
    };
    let Some(behind) = behind_space(rest) else {
        return Some((pointer, None));
    };
    let numbers = read_numbers(behind)?;
    Some((pointer, Some(numbers)))
}

/// The first byte, where a space follows it, and what stands behind that space.
pub(crate) fn split_mark(bytes: &[u8]) -> Option<(u8, &[u8])>
    ensures { MatchOption result ((mark : ℕ) (rest : List ℕ) → bytes.now ≢ mark ∷ space ∷ rest)
        (λ parts. bytes.now ≡ parts.0 ∷ space ∷ parts.1.now) }
{
    let [mark, b' ', rest @ ..] = bytes else {
        return None;
    };
    Some((*mark, rest))
}

/// A mark, a space and fields.
#[inline(always)]
fn read_marked(bytes: &[u8]) -> Option<(u8, Option<Addr>, Option<Numbers>)>
    ensures { Finds (λ parts. AreFields parts.1 parts.2) (λ parts. parts.0 ∷ space ∷ fields_text parts.1 parts.2) bytes.now result }
{
    let (mark, fields) = split_mark(bytes)?;
    let (addr, numbers) = read_fields(fields)?;
    Some((mark, addr, numbers))
}

/// What a line says, with its location where it lies in the line.
type Lent<'a> = Result<Event<LentLocation<'a>>, LineFault>;

/// The event with this location, mark and fields.
#[inline(always)]
fn event_of<'a>(
    at: Option<LentLocation<'a>>,
    mark: u8,
    addr: Option<Addr>,
    numbers: Option<Numbers>,
) -> Lent<'a>
    ensures { HasForm (marked at.entry mark addr numbers) result }
{
    match (mark, addr, numbers) {
        (b'+', addr, Some((None, size))) => return Ok(Event::Alloc { at, addr, size }),
        (b'-', Some(addr), None) => return Ok(Event::Free { at, addr }),
        (b'<', Some(addr), None) => return Ok(Event::Old { at, addr }),
        (b'>', Some(addr), Some((None, size))) => return Ok(Event::New { at, addr, size }),
        (b'!', addr, Some((None, size))) => return Ok(Event::Failed { at, addr, size }),
        (b'*', Some(addr), Some((Some(align), size))) => {
            return Ok(Event::Aligned {
                at,
                addr,
                align,
                size,
            })
        }
        _ => return Err(LineFault::NotALine),
    }
}

/// What stands behind `@ `.
pub(crate) fn behind_at(bytes: &[u8]) -> Option<&[u8]>
    ensures { MatchOption result ((rest : List ℕ) → bytes.now ≢ codes "@ " ++ rest)
        (λ rest. bytes.now ≡ codes "@ " ++ rest.now) }
{
    let [b'@', b' ', rest @ ..] = bytes else {
        return None;
    };
    Some(rest)
}

/// A line that isn't too long, and not behind `@ `.
#[inline(never)]
fn read_unlocated(bytes: &[u8]) -> Lent<'_>
    requires short { length bytes.now ≤ LONGEST_LINE }
    requires unlocated { (rest : List ℕ) → bytes.now ≢ codes "@ " ++ rest }
    ensures { ReadsAs bytes.now result }
{
    if bytes == b"= Start".as_slice() {
        return Ok(Event::Start);
    }
    if bytes == b"= End".as_slice() {
        return Ok(Event::End);
    }
    let Some((mark, addr, numbers)) = read_marked(bytes) else {
        return Err(LineFault::NotALine);
    };
    event_of(None, mark, addr, numbers)
}

/// What a line says, given without its newline, with its location where it lies in the line.
///
/// # Errors
///
/// As [`read_line`].
#[inline(always)]
pub fn read_lent(bytes: &[u8]) -> Result<Event<LentLocation<'_>>, LineFault>
    // The event whose spelling the line is; or too long; or no event's spelling.
    ensures reads { ReadsAs bytes.now result }
    ensures too_long { LONGEST_LINE < length bytes.now → result ≡ Err TooLong }
{
    if bytes.len() > LONGEST_LINE {
        return Err(LineFault::TooLong);
    }
    let Some(located) = behind_at(bytes) else {
        return read_unlocated(bytes);
    };
    let Some((at, marked)) = LentLocation::front(located) else {
        return Err(LineFault::NotALine);
    };
    let Some((mark, addr, numbers)) = read_marked(marked) else {
        return Err(LineFault::NotALine);
    };
    event_of(Some(at), mark, addr, numbers)
}

/// What a line says, with its location kept.
pub(crate) fn kept(read: &Result<Event<LentLocation<'_>>, LineFault>) -> Result<Event, LineFault>
    ensures { result ≡ read.now }
{
    match read {
        Ok(event) => Ok(event.keep()),
        Err(fault) => Err(*fault),
    }
}

/// What a line says, given without its newline.
///
/// # Errors
///
/// `TooLong` exactly where it has more bytes than [`LONGEST_LINE`], and `NotALine` exactly where it has no
/// more and is the line of no event.
pub fn read_line(bytes: &[u8]) -> Result<Event, LineFault>
    // The event whose spelling the line is; or too long; or no event's spelling.
    ensures reads { ReadsAs bytes.now result }
    ensures too_long { LONGEST_LINE < length bytes.now → result ≡ Err TooLong }
{
    kept(&read_lent(bytes))
}
