//! The text of one line of the output, or of a few.

ghost use Rattle.std.specs.Prelude.{◌≡◌, ◌+◌, ◌≤◌, ◌<◌, length, decimal, codes};
ghost use Rattle.std.specs.Option.{option_copied};
ghost use Rattle.arrayvec.specs.ArrayVec.{array_vec_len};
ghost use Rattle.mtrace_log.specs.Address.{address_text};
ghost use Rattle.mtrace_replay.specs.Appends.{Appends, IsShort};
ghost use Rattle.mtrace_replay.specs.Texts.{count_line, refused_line, refusal_text, kind_text, diagnostic_text, at_text, entry_text, number_line, pair_line, peak_words, column};

use crate::held::amount::Amount;
use crate::held::diagnostic::{Diagnostic, Kind};
use crate::held::entry::Entry;
use arrayvec::ArrayVec;
use itoa::Buffer;
use mtrace_log::{Addr, LONGEST_ADDRESS, LONGEST_LOCATION, Location};
use tlsf_heap::Refusal;

/// No text is longer, in bytes.
pub(crate) const LONGEST_TEXT: usize = 800;

/// The text of one line, or of a few.
pub(crate) type LineText = ArrayVec<u8, LONGEST_TEXT>;

/// Appends bytes, for which there is room.
pub(crate) fn push_bytes(text: &mut LineText, bytes: &[u8])
    requires { array_vec_len text.old + length bytes.now ≤ LONGEST_TEXT }
    ensures { Appends bytes.now (length bytes.now) text.old text.new }
{
    let _fits = text.try_extend_from_slice(bytes);
}

pub(crate) fn push_number(text: &mut LineText, number: u128)
    requires { array_vec_len text.old + 40 ≤ LONGEST_TEXT }
    ensures { Appends (decimal number) 40 text.old text.new }
{
    let mut buffer = Buffer::new();
    push_bytes(text, buffer.format(number).as_bytes());
}

pub(crate) fn push_address(text: &mut LineText, address: Addr)
    requires { array_vec_len text.old + LONGEST_ADDRESS ≤ LONGEST_TEXT }
    ensures { Appends (address_text address) LONGEST_ADDRESS text.old text.new }
{
    let spelled = address.text();
    push_bytes(text, spelled.as_slice());
}

/// A refusal in words.
fn refusal_text(refusal: Refusal) -> &'static [u8]
    ensures { IsShort (refusal_text refusal) 20 result.now }
{
    match refusal {
        Refusal::ZeroSize => b"zero size",
        Refusal::NoFit => b"no fit",
        Refusal::TableFull => b"table full",
        Refusal::BadPointer => b"bad pointer",
        Refusal::BadAlign => b"bad alignment",
        Refusal::BadPool => b"bad pool",
        Refusal::PoolsFull => b"pools full",
        Refusal::PoolInUse => b"pool in use",
        Refusal::OutOfMemory => b"out of memory",
        Refusal::NoPool => b"no pool",
    }
}

/// Appends what is wrong with a line.
fn push_kind(text: &mut LineText, kind: Kind)
    requires { array_vec_len text.old ≤ 100 }
    ensures { Appends (kind_text kind) 60 text.old text.new }
{
    match kind {
        Kind::TooLong => push_bytes(text, b"too long"),
        Kind::NotALine => push_bytes(text, b"not a line"),
        Kind::NotHeld(address) => {
            push_address(text, address);
            push_bytes(text, b" is not held");
        }
        Kind::AlreadyHeld(address) => {
            push_address(text, address);
            push_bytes(text, b" is already held");
        }
        Kind::Refused(address, refusal) => {
            push_address(text, address);
            push_bytes(text, b" refused: ");
            push_bytes(text, refusal_text(refusal));
        }
        Kind::Half => push_bytes(text, b"half of a reallocation"),
        Kind::Stray => push_bytes(text, b"no < before >"),
    }
}

/// The line of a diagnostic.
pub(crate) fn diagnostic_text(diagnostic: &Diagnostic) -> LineText
    ensures { result.items ≡ diagnostic_text diagnostic.now }
{
    let mut text = ArrayVec::new();
    push_bytes(&mut text, b"line ");
    push_number(&mut text, u128::from(diagnostic.line));
    push_bytes(&mut text, b": ");
    push_kind(&mut text, diagnostic.kind);
    push_bytes(&mut text, b"\n");
    text
}

/// Appends ` at ` and the location, where there is one.
fn push_location(text: &mut LineText, at: Option<&Location>)
    requires { array_vec_len text.old ≤ 130 }
    ensures { Appends (at_text (option_copied at.entry)) (4 + LONGEST_LOCATION) text.old text.new }
{
    if let Some(location) = at {
        push_bytes(text, b" at ");
        push_bytes(text, location.bytes());
    }
}

/// The line of a block that is held.
pub(crate) fn entry_text(entry: &Entry) -> LineText
    ensures { result.items ≡ entry_text entry.now }
{
    let mut text = ArrayVec::new();
    push_address(&mut text, entry.addr);
    push_bytes(&mut text, b" ");
    push_number(&mut text, u128::from(entry.size));
    push_bytes(&mut text, b" line ");
    push_number(&mut text, u128::from(entry.line));
    push_location(&mut text, entry.at.as_ref());
    push_bytes(&mut text, b"\n");
    text
}

/// Appends a line of a number, behind its word.
pub(crate) fn push_number_line(text: &mut LineText, word: &[u8], number: u64)
    requires { array_vec_len text.old + length word.now + 41 ≤ LONGEST_TEXT }
    ensures { Appends (number_line word.now number) (length word.now + 41) text.old text.new }
{
    push_bytes(text, word);
    push_number(text, u128::from(number));
    push_bytes(text, b"\n");
}

/// Appends a line of a number between its words.
pub(crate) fn push_count_line(text: &mut LineText, word: &[u8], number: u64, last: &[u8])
    requires { array_vec_len text.old + length word.now + length last.now + 41 ≤ LONGEST_TEXT }
    ensures { Appends (count_line word.now number last.now) (length word.now + length last.now + 41) text.old text.new }
{
    push_bytes(text, word);
    push_number(text, u128::from(number));
    push_bytes(text, last);
    push_bytes(text, b"\n");
}

/// Appends how many lines were refused, where some were.
pub(crate) fn push_refused_line(text: &mut LineText, refused: u64)
    requires { array_vec_len text.old + 56 ≤ LONGEST_TEXT }
    ensures { Appends (refused_line refused) 56 text.old text.new }
{
    if refused == 0 {
        return;
    }
    push_count_line(text, b"refused: ", refused, b" lines");
}

/// How many lines were refused, where some were.
pub(crate) fn refused_text(refused: u64) -> LineText
    ensures { result.items ≡ refused_line refused }
{
    let mut text = ArrayVec::new();
    push_refused_line(&mut text, refused);
    text
}

/// Appends a line of two numbers, each behind its words, and the last words.
pub(crate) fn push_wide_pair_line(
    text: &mut LineText,
    word: &[u8],
    first: u128,
    middle: &[u8],
    second: u128,
    last: &[u8],
)
    requires { array_vec_len text.old + length word.now + length middle.now + length last.now + 81 ≤ LONGEST_TEXT }
    ensures { Appends (pair_line word.now first middle.now second last.now) (length word.now + length middle.now + length last.now + 81) text.old text.new }
{
    push_bytes(text, word);
    push_number(text, first);
    push_bytes(text, middle);
    push_number(text, second);
    push_bytes(text, last);
    push_bytes(text, b"\n");
}

/// Appends such a line of two numbers of 64 bits.
pub(crate) fn push_pair_line(
    text: &mut LineText,
    word: &[u8],
    first: u64,
    middle: &[u8],
    second: u64,
    last: &[u8],
)
    requires { array_vec_len text.old + length word.now + length middle.now + length last.now + 81 ≤ LONGEST_TEXT }
    ensures { Appends (pair_line word.now first middle.now second last.now) (length word.now + length middle.now + length last.now + 81) text.old text.new }
{
    push_wide_pair_line(
        text,
        word,
        u128::from(first),
        middle,
        u128::from(second),
        last,
    );
}

/// The line of the totals: how many blocks are held, and how many bytes they have together.
pub(crate) fn wide_total_text(blocks: u64, bytes: u128) -> LineText
    ensures { result.items ≡ pair_line (codes "Total: ") blocks (codes " blocks, ") bytes (codes " bytes.") }
{
    let mut text = ArrayVec::new();
    push_wide_pair_line(
        &mut text,
        b"Total: ",
        u128::from(blocks),
        b" blocks, ",
        bytes,
        b" bytes.",
    );
    text
}

/// The line of the totals, of a sum of 64 bits.
pub(crate) fn total_text(blocks: u64, bytes: u64) -> LineText
    ensures { result.items ≡ pair_line (codes "Total: ") blocks (codes " blocks, ") bytes (codes " bytes.") }
{
    wide_total_text(blocks, u128::from(bytes))
}

/// The words above the sites of what was held after a line, that of the peak.
pub(crate) fn peak_words(line: u64) -> LineText
    ensures { result.items ≡ peak_words line }
{
    let mut text = ArrayVec::new();
    push_bytes(&mut text, b"Held at the peak, line ");
    push_number(&mut text, u128::from(line));
    text
}

/// The end of a line behind those words: how many blocks were held, and how many bytes they have together.
pub(crate) fn section_text(sum: Amount) -> LineText
    ensures { result.items ≡ pair_line (codes ": ") sum.blocks (codes " blocks, ") sum.bytes (codes " bytes.") }
{
    let mut text = ArrayVec::new();
    push_wide_pair_line(
        &mut text,
        b": ",
        u128::from(sum.blocks),
        b" blocks, ",
        sum.bytes,
        b" bytes.",
    );
    text
}

/// Appends a number behind a blank.
pub(crate) fn push_column(text: &mut LineText, number: u128)
    requires { array_vec_len text.old + 41 ≤ LONGEST_TEXT }
    ensures { Appends (column number) 41 text.old text.new }
{
    push_bytes(text, b" ");
    push_number(text, number);
}
