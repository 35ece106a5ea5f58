//! What is held, by its sites, and who asked, as it is put.

ghost use Rattle.std.specs.Prelude.{◌≡◌, ◌++◌, flat_map, decimal, codes};
ghost use Rattle.mtrace_log.specs.Output.{Puts};
ghost use Rattle.mtrace_replay.specs.Texts.{site_text, section, both_sections, caller_text, calls_line, callers_text};

use crate::held::amount::Amount;
use crate::held::caller::Caller;
use crate::held::count::Count;
use crate::held::line_text::{LineText, peak_words, push_bytes, push_number, section_text};
use crate::held::lines::{InLine, put_lines};
use crate::held::location_text::put_line_at;
use crate::held::site::Site;
use arrayvec::ArrayVec;
use mtrace_log::{Failed, Sink, put_all};

/// The front of the line of a site, up to its location.
fn site_front(blocks: u64, bytes: u128) -> LineText
    ensures { result.items ≡ decimal bytes ++ codes " bytes in " ++ decimal blocks ++ codes " blocks" }
{
    let mut text = ArrayVec::new();
    push_number(&mut text, bytes);
    push_bytes(&mut text, b" bytes in ");
    push_number(&mut text, u128::from(blocks));
    push_bytes(&mut text, b" blocks");
    text
}

impl<'a> InLine for Site<'a> {
    ghost line = { site_text };

    fn put_line<W: Sink>(&self, writer: &mut W) -> Result<(), Failed> {
        let front = site_front(self.blocks, self.bytes);
        put_line_at(writer, front.as_slice(), self.at)
    }
}

/// Puts a section: words, how many blocks are held and their bytes, and a line for each site.
fn put_section<W: Sink>(
    writer: &mut W,
    words: &[u8],
    sum: Amount,
    sites: &[Site<'_>],
) -> Result<(), Failed>
    ensures { Puts result (section words.now sum.blocks sum.bytes sites.now) (W.shown writer.old) (W.shown writer.new) }
{
    put_all(writer, words)?;
    put_all(writer, section_text(sum).as_slice())?;
    put_lines(writer, sites)
}

/// Puts what is held at the peak and what is held at the end, each by its sites.
pub(crate) fn put_both<W: Sink>(
    writer: &mut W,
    peak_line: u64,
    peak_sum: Amount,
    peak_sites: &[Site<'_>],
    end_sum: Amount,
    end_sites: &[Site<'_>],
) -> Result<(), Failed>
    ensures { Puts result (both_sections peak_line peak_sum.blocks peak_sum.bytes peak_sites.now end_sum.blocks end_sum.bytes end_sites.now) (W.shown writer.old) (W.shown writer.new) }
{
    put_section(
        writer,
        peak_words(peak_line).as_slice(),
        peak_sum,
        peak_sites,
    )?;
    put_section(writer, b"Held at the end", end_sum, end_sites)
}

/// The front of the line of a caller, up to its location.
fn caller_front(calls: u64, bytes: u128, temporary: u64) -> LineText
    ensures { result.items ≡ decimal bytes ++ codes " bytes in " ++ decimal calls ++ codes " calls, " ++ decimal temporary ++ codes " temporary" }
{
    let mut text = ArrayVec::new();
    push_number(&mut text, bytes);
    push_bytes(&mut text, b" bytes in ");
    push_number(&mut text, u128::from(calls));
    push_bytes(&mut text, b" calls, ");
    push_number(&mut text, u128::from(temporary));
    push_bytes(&mut text, b" temporary");
    text
}

impl<'a> InLine for Caller<'a> {
    ghost line = { caller_text };

    fn put_line<W: Sink>(&self, writer: &mut W) -> Result<(), Failed> {
        let front = caller_front(self.calls, self.bytes, self.temporary);
        put_line_at(writer, front.as_slice(), self.at)
    }
}

/// The line above the callers: all calls together.
fn calls_text(total: Count) -> LineText
    ensures { result.items ≡ calls_line total }
{
    let mut text = ArrayVec::new();
    push_bytes(&mut text, b"Asked over the log: ");
    push_number(&mut text, u128::from(total.calls));
    push_bytes(&mut text, b" calls, ");
    push_number(&mut text, total.bytes);
    push_bytes(&mut text, b" bytes, ");
    push_number(&mut text, u128::from(total.temporary));
    push_bytes(&mut text, b" temporary.\n");
    text
}

/// Puts who asked: all calls together, and a line for each caller.
pub(crate) fn put_callers<W: Sink>(
    writer: &mut W,
    total: Count,
    callers: &[Caller<'_>],
) -> Result<(), Failed>
    ensures { Puts result (callers_text total callers.now) (W.shown writer.old) (W.shown writer.new) }
{
    put_all(writer, calls_text(total).as_slice())?;
    put_lines(writer, callers)
}
