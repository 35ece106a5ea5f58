//! The text of a heap's figures, pools, blocks and points.

ghost use Rattle.std.specs.Prelude.{◌≡◌, ◌+◌, ◌≤◌, codes};
ghost use Rattle.arrayvec.specs.ArrayVec.{array_vec_len};
ghost use Rattle.mtrace_replay.specs.Appends.{Appends, IsShort};
ghost use Rattle.mtrace_replay.specs.Texts.{pair_line, spread_text, greatest_line, peak_lines, use_text, row_text, point_text};

use crate::heap::point::Point;
use crate::heap::survey::Survey;
use crate::heap::totals::Totals;
use crate::held::line_text::{
    LONGEST_TEXT, LineText, push_bytes, push_column, push_number, push_number_line, push_pair_line,
};
use arrayvec::ArrayVec;
use tlsf_heap::Row;

/// Appends the line of the peak.
pub(crate) fn push_greatest_line(text: &mut LineText, totals: Totals)
    requires { array_vec_len text.old + 102 ≤ LONGEST_TEXT }
    ensures { Appends (greatest_line totals) 102 text.old text.new }
{
    push_pair_line(
        text,
        b"peak: ",
        totals.peak_bytes,
        b" bytes at line ",
        totals.peak_line,
        b"",
    );
}

/// Appends the high place in thousandths of the peak, or that there is no peak.
fn push_spread(text: &mut LineText, high: u64, peak: u64)
    requires { array_vec_len text.old + 40 ≤ LONGEST_TEXT }
    ensures { Appends (spread_text high peak) 40 text.old text.new }
{
    if peak == 0 {
        push_bytes(text, b"-");
    } else {
        push_number(text, u128::from(high) * 1000 / u128::from(peak));
    }
}

/// The nine lines of the peak.
pub(crate) fn peak_text(totals: Totals, survey: Survey) -> LineText
    ensures { result.items ≡ peak_lines totals survey.free_bytes survey.free_blocks survey.largest_free }
{
    let mut text = ArrayVec::new();
    let (live, blocks) = (totals.live_bytes, totals.live_blocks);
    let (free, free_blocks) = (survey.free_bytes, survey.free_blocks);
    push_number_line(&mut text, b"lines: ", totals.lines);
    push_number_line(&mut text, b"served: ", totals.served);
    push_number_line(&mut text, b"refused: ", totals.refused);
    push_pair_line(
        &mut text,
        b"live: ",
        live,
        b" bytes in ",
        blocks,
        b" blocks",
    );
    push_greatest_line(&mut text, totals);
    push_number_line(&mut text, b"high place: ", totals.high_place);
    push_pair_line(
        &mut text,
        b"free: ",
        free,
        b" bytes in ",
        free_blocks,
        b" blocks",
    );
    push_number_line(&mut text, b"largest free: ", survey.largest_free);
    push_bytes(&mut text, b"spread: ");
    push_spread(&mut text, totals.high_place, totals.peak_bytes);
    push_bytes(&mut text, b"\n");
    text
}

/// Whether a block is live, in words.
fn use_text(used: bool) -> &'static [u8]
    ensures { IsShort (use_text used) 5 result.now }
{
    if used { b" used" } else { b" free" }
}

/// The line of a row.
pub(crate) fn row_text(row: Row) -> LineText
    ensures { result.items ≡ row_text row }
{
    let mut text = ArrayVec::new();
    let (place, size) = (u64::from(row.place), u64::from(row.size));
    push_pair_line(&mut text, b"", place, b" ", size, use_text(row.used));
    text
}

/// The line of a pool: where it begins, and its bytes.
pub(crate) fn pool_text(base: u64, bytes: u64) -> LineText
    ensures { result.items ≡ pair_line (codes "pool ") base (codes ": ") bytes (codes " bytes") }
{
    let mut text = ArrayVec::new();
    push_pair_line(&mut text, b"pool ", base, b": ", bytes, b" bytes");
    text
}

/// The line of a point.
pub(crate) fn point_text(point: &Point) -> LineText
    ensures { result.items ≡ point_text point.now }
{
    let mut text = ArrayVec::new();
    push_number(&mut text, u128::from(point.line));
    push_column(&mut text, u128::from(point.bytes));
    push_column(&mut text, u128::from(point.blocks));
    push_column(&mut text, u128::from(point.reach));
    push_column(&mut text, u128::from(point.free));
    push_column(&mut text, u128::from(point.largest));
    push_bytes(&mut text, b"\n");
    text
}
