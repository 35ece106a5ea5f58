//! The text that tells how large a pool a log needs.

ghost use Rattle.std.specs.Prelude.{◌≡◌, ◌+◌, ◌^◌, ◌<◌, ◌≤◌, ◌++◌, length};
ghost use Rattle.arrayvec.specs.ArrayVec.{array_vec_len};
ghost use Rattle.mtrace_replay.specs.Appends.{Appends};
ghost use Rattle.mtrace_replay.specs.Texts.{size_line, greatest_line, most_line, record_lines, fitted_lines, untried_lines, refused_line};

use crate::heap::text::push_greatest_line;
use crate::heap::totals::Totals;
use crate::held::line_text::{
    LONGEST_TEXT, LineText, push_bytes, push_count_line, push_number, push_number_line,
    push_pair_line, push_refused_line,
};
use crate::runs::enough::table_bytes;
use crate::runs::fitted::Fitted;
use arrayvec::ArrayVec;

/// Appends a line of a size behind its word, or that there is none.
pub(crate) fn push_size_line(text: &mut LineText, word: &[u8], size: Option<u64>)
    requires { array_vec_len text.old + length word.now + 50 ≤ LONGEST_TEXT }
    ensures { Appends (size_line word.now size) (length word.now + 50) text.old text.new }
{
    push_bytes(text, word);
    match size {
        None => push_bytes(text, b"-"),
        Some(size) => {
            push_number(text, u128::from(size));
            push_bytes(text, b" bytes");
        }
    }
    push_bytes(text, b"\n");
}

/// Appends the peak, and the most addresses that were held.
fn push_most(text: &mut LineText, totals: Totals, most: u64)
    requires { array_vec_len text.old ≤ 100 }
    ensures { Appends (greatest_line totals ++ most_line most) 200 text.old text.new }
{
    push_greatest_line(text, totals);
    push_count_line(text, b"held at most: ", most, b" blocks");
}

/// Appends the records, and the bytes of their table.
pub(crate) fn push_records(text: &mut LineText, records: u64)
    requires few { array_vec_len text.old ≤ 300 }
    requires fits { records < 2 ^ 40 }
    ensures { Appends (record_lines records) 130 text.old text.new }
{
    push_number_line(text, b"records: ", records);
    push_size_line(text, b"table: ", Some(table_bytes(records)));
}

/// Appends the records, what the sizes tell that were tried with them, and the pool that is always enough.
fn push_fitted(text: &mut LineText, records: u32, fitted: Fitted, sure: Option<u64>)
    requires { array_vec_len text.old ≤ 300 }
    ensures { text.new.items ≡ text.old.items ++ fitted_lines records fitted sure }
{
    push_records(text, u64::from(records));
    push_size_line(text, b"least pool: ", fitted.least);
    push_size_line(text, b"safe pool: ", fitted.safe);
    push_pair_line(
        text,
        b"sizes tried: ",
        fitted.tried,
        b", ",
        fitted.refused,
        b" refused",
    );
    push_size_line(text, b"sure pool: ", sure);
}

/// Appends that no size was tried.
fn push_untried(text: &mut LineText)
    requires { array_vec_len text.old ≤ 300 }
    ensures { Appends untried_lines 400 text.old text.new }
{
    push_size_line(text, b"records: ", None);
    push_size_line(text, b"table: ", None);
    push_size_line(text, b"least pool: ", None);
    push_size_line(text, b"safe pool: ", None);
    push_number_line(text, b"sizes tried: ", 0);
    push_size_line(text, b"sure pool: ", None);
}

/// The text where the greatest pool serves the log: the peak, the most addresses held, the records, what the sizes tried
/// with them gave, and the pool that is always enough.
pub(crate) fn fitted_text(
    totals: Totals,
    most: u64,
    records: u32,
    fitted: Fitted,
    sure: Option<u64>,
) -> LineText
    ensures { result.items ≡ greatest_line totals ++ most_line most ++ fitted_lines records fitted sure }
{
    let mut text = ArrayVec::new();
    push_most(&mut text, totals, most);
    push_fitted(&mut text, records, fitted, sure);
    text
}

/// The text of a log that the greatest pool doesn't serve: the peak, the most addresses that were held, that no size was
/// tried, and how many lines were refused.
pub(crate) fn untried_text(totals: Totals, most: u64) -> LineText
    ensures { result.items ≡ greatest_line totals ++ most_line most ++ untried_lines ++ refused_line totals.refused }
{
    let mut text = ArrayVec::new();
    push_most(&mut text, totals, most);
    push_untried(&mut text);
    push_refused_line(&mut text, totals.refused);
    text
}
