//! The text of the heaps by size that serve a log.

ghost use Rattle.std.specs.Prelude.{◌≡◌, ◌++◌, ◌≤◌, length, map, flat_map, codes, option_map};
ghost use Rattle.arrayvec.specs.ArrayVec.{array_vec_len};
ghost use Rattle.mtrace_log.specs.Output.{Puts};
ghost use Rattle.mtrace_replay.specs.Appends.{Appends};
ghost use Rattle.mtrace_replay.specs.declared.parts.text.PartOf.{PartOf};
ghost use Rattle.mtrace_replay.specs.Texts.{number_line, size_line};
ghost use Rattle.mtrace_replay.specs.Parts.{pool_bytes, records_bytes, sum_over, part_line, parts_text, no_parts_text, peak_line_text};
ghost use Rattle.mtrace_replay.specs.PartsText.{part_in};

use crate::held::line_text::{
    LineText, push_bytes, push_number, push_number_line, push_wide_pair_line,
};
use crate::held::lines::{InLine, put_lines};
use crate::runs::enough::table_bytes;
use crate::runs::fit_text::push_size_line;
use arrayvec::ArrayVec;
use mtrace_log::{Failed, Sink, put_all};
use tlsf_class::GREATEST_SIZE;
use tlsf_store::MOST_RECORDS;

/// A part: its blocks, and their size in bytes.
#[derive(Clone, Copy, Debug, Default, PartialEq, Eq)]
pub(crate) struct PartOf {
    pub(crate) blocks: u64,
    pub(crate) size: u32,
}

impl PartOf {
    /// The bytes of its pool. `None` above the greatest pool, or where there can't be as many records.
    pub(crate) fn pool(&self) -> Option<u64>
        ensures { result ≡ pool_bytes (part_in self.now) }
    {
        let bytes = u128::from(self.blocks) * u128::from(self.size);
        if bytes > u128::from(GREATEST_SIZE) || self.blocks > u64::from(MOST_RECORDS) {
            return None;
        }
        Some(bytes as u64)
    }
}

/// The line of a part.
fn part_text(part: &PartOf) -> LineText
    ensures { result.items ≡ part_line (part_in part.now) }
{
    let mut text = ArrayVec::new();
    push_bytes(&mut text, b"up to ");
    push_number(&mut text, u128::from(part.size));
    push_bytes(&mut text, b": ");
    push_number(&mut text, u128::from(part.blocks));
    push_size_line(&mut text, b" blocks, ", part.pool());
    text
}

/// The bytes of all pools, and of all tables.
#[derive(Clone, Copy, Default)]
struct Sums {
    pools: u64,
    tables: u64,
}

/// The sums over these parts. `None` where one has no pool.
fn sums_of(parts: &[PartOf]) -> Option<Sums>
    requires { length parts.now ≤ 8 }
    ensures pools { option_map (λ sums. sums.pools) result ≡ sum_over pool_bytes (map part_in parts.now) }
    ensures tables { option_map (λ sums. sums.tables) result ≡ sum_over records_bytes (map part_in parts.now) }
{
    let mut sums = Sums::default();
    let mut left = parts.len();
    while left > 0 {
        let part = parts[left - 1];
        sums.pools += part.pool()?;
        sums.tables += table_bytes(part.blocks);
        left -= 1;
    }
    Some(sums)
}

/// The peak.
fn peak_text(bytes: u128, line: u64) -> LineText
    ensures text { result.items ≡ peak_line_text bytes line }
    ensures short { array_vec_len result ≤ 102 }
{
    let mut text = ArrayVec::new();
    let line = u128::from(line);
    push_wide_pair_line(&mut text, b"peak: ", bytes, b" bytes at line ", line, b"");
    text
}

/// The peak, and how many heaps there are.
fn front_text(bytes: u128, line: u64, heaps: u64) -> LineText
    ensures { result.items ≡ peak_line_text bytes line ++ number_line (codes "heaps: ") heaps }
{
    let mut text = peak_text(bytes, line);
    push_number_line(&mut text, b"heaps: ", heaps);
    text
}

/// The sums over the parts.
fn sums_text(parts: &[PartOf]) -> LineText
    requires { length parts.now ≤ 8 }
    ensures { result.items ≡ size_line (codes "sum: ") (sum_over pool_bytes (map part_in parts.now)) ++ size_line (codes "tables: ") (sum_over records_bytes (map part_in parts.now)) }
{
    let sums = sums_of(parts);
    let mut text = ArrayVec::new();
    push_size_line(&mut text, b"sum: ", sums.map(|sums| sums.pools));
    push_size_line(&mut text, b"tables: ", sums.map(|sums| sums.tables));
    text
}

/// Appends that no heaps serve the log.
fn push_no_parts(text: &mut LineText)
    requires { array_vec_len text.old ≤ 300 }
    ensures { Appends no_parts_text 200 text.old text.new }
{
    push_size_line(text, b"heaps: ", None);
    push_size_line(text, b"sum: ", None);
    push_size_line(text, b"tables: ", None);
}

/// The peak, and that no heaps serve the log.
fn no_parts(bytes: u128, line: u64) -> LineText
    ensures { result.items ≡ peak_line_text bytes line ++ no_parts_text }
{
    let mut text = peak_text(bytes, line);
    push_no_parts(&mut text);
    text
}

impl InLine for PartOf {
    ghost line = { λ part. part_line (part_in part) };

    fn put_line<W: Sink>(&self, writer: &mut W) -> Result<(), Failed> {
        put_all(writer, part_text(self).as_slice())
    }
}

/// Puts the lines of the parts, and their sums.
pub(crate) fn put_behind<W: Sink>(writer: &mut W, parts: &[PartOf]) -> Result<(), Failed>
    requires { length parts.now ≤ 8 }
    ensures { Puts result (flat_map (λ part. part_line (part_in part)) parts.now ++ (size_line (codes "sum: ") (sum_over pool_bytes (map part_in parts.now))
        ++ size_line (codes "tables: ") (sum_over records_bytes (map part_in parts.now)))) (W.shown writer.old) (W.shown writer.new) }
{
    put_lines(writer, parts)?;
    put_all(writer, sums_text(parts).as_slice())
}

/// Puts the peak, and the parts.
pub(crate) fn put_parts<W: Sink>(
    writer: &mut W,
    bytes: u128,
    line: u64,
    parts: &[PartOf],
) -> Result<(), Failed>
    requires { length parts.now ≤ 8 }
    ensures { Puts result (peak_line_text bytes line ++ parts_text (map part_in parts.now)) (W.shown writer.old) (W.shown writer.new) }
{
    put_all(
        writer,
        front_text(bytes, line, parts.len() as u64).as_slice(),
    )?;
    put_behind(writer, parts)
}

/// Puts the peak, and that no heaps serve the log.
pub(crate) fn put_no_parts<W: Sink>(writer: &mut W, bytes: u128, line: u64) -> Result<(), Failed>
    ensures { Puts result (peak_line_text bytes line ++ no_parts_text) (W.shown writer.old) (W.shown writer.new) }
{
    put_all(writer, no_parts(bytes, line).as_slice())
}
