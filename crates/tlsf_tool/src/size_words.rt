//! The words of `size`: the bounds of a program, or heaps by size.

ghost use Rattle.std.specs.Prelude.{◌≡◌, List, map, MatchBool, codes, Some, None};
ghost use Rattle.mtrace_replay.specs.declared.runs.size_parts.PartBounds.{PartBounds};
ghost use Rattle.clap.specs.Words.{all_of, found_of, rows_of};
ghost use Rattle.tlsf_tool.specs.CommandLine.{HasBounds, HasNoBounds, IsNumberText, IsPartText, ArePartTexts};
ghost use Rattle.tlsf_tool.specs.Asks.{Picks, Asks, MatchesGive};

use crate::asked::{Command, ToolFault};
use crate::option_values::{NO_MEMORY, option_number, size_of, size_or};
use clap::ArgMatches;
use mtrace_replay::{Bounds, PartBounds};
use std::alloc::Global;

/// The text where neither the bounds of a program nor heaps by size are told.
const NO_SIZE: &str =
    "error: size takes --blocks and --largest, or --part\n\nFor more information, try '--help'.\n";

/// The text where a bound of a program stands beside a heap by size, or there are too many heaps.
const NO_BOUNDS: &str =
    "error: --part takes no option beside it but --front, and stands at most 8 times\n\nFor more information, try '--help'.\n";

/// The text where what a heap by size serves can't be read.
const NO_PART: &str =
    "error: --part takes LxM: L blocks, from 1 to 65535, of at most M bytes, from 1 to 1056964608\n\nFor more information, try '--help'.\n";

/// The bounds that a subcommand's matches have.
fn bounds_of(matches: &ArgMatches<'_>) -> Option<Bounds>
    ensures { Picks (HasBounds (rows_of (found_of matches.now))) result }
{
    let bytes = size_of(matches, "bytes");
    let align = size_of(matches, "align");
    let front = size_or(matches, "front", 0);
    let blocks = option_number(matches, "blocks")?;
    let largest = size_of(matches, "largest")?;
    Some(Bounds {
        blocks,
        largest,
        bytes,
        align,
        front,
    })
}

/// The number that this text is read as.
fn blocks_of(text: &str) -> Option<u32>
    ensures { Picks (IsNumberText text.now 32) result }
{
    text.parse::<u32>().ok()
}

/// The size that this text is read as, in bytes.
fn bytes_of(text: &str) -> Option<u64>
    ensures { Picks (IsNumberText text.now 64) result }
{
    text.parse::<u64>().ok()
}

/// The heap by size that this text tells.
fn part_of(text: &str) -> Option<PartBounds>
    ensures { Picks (IsPartText text.now) result }
{
    let (blocks, largest) = text.split_once('x')?;
    let blocks = blocks_of(blocks)?;
    let largest = bytes_of(largest)?;
    if blocks == 0 || blocks > 65_535 || largest == 0 || largest > 1_056_964_608 {
        return None;
    }
    Some(PartBounds { blocks, largest })
}

/// The heaps by size that these texts tell.
fn parts_of(alloc: Global, texts: &[&str]) -> Result<Vec<PartBounds>, ToolFault>
    ensures { Asks (λ parts. ArePartTexts (map (λ text. text.now) texts.now) parts.items) ((parts : List PartBounds) → ArePartTexts (map (λ text. text.now) texts.now) parts → ⊥) result }
{
    let mut parts = Vec::new(alloc);
    for text in texts {
        let Some(part) = part_of(text) else {
            return Err(ToolFault::usage(alloc, NO_PART));
        };
        match parts.push(part) {
            Ok(()) => {}
            Err(_) => return Err(NO_MEMORY),
        }
    }
    Ok(parts)
}

/// Whether a bound of a program is among a subcommand's matches.
fn has_bound(matches: &ArgMatches<'_>) -> bool
    ensures { MatchBool result (HasNoBounds (rows_of (found_of matches.now)) → ⊥) (HasNoBounds (rows_of (found_of matches.now))) }
{
    let blocks = option_number(matches, "blocks");
    let largest = size_of(matches, "largest");
    let sum = size_of(matches, "bytes");
    let align = size_of(matches, "align");
    match (blocks, largest, sum, align) {
        (None, None, None, None) => false,
        _ => true,
    }
}

/// What the matches ask for that tell heaps by size.
fn asked_size_parts(
    alloc: Global,
    texts: &[&str],
    matches: &ArgMatches<'_>,
) -> Result<Command, ToolFault>
    requires told { all_of (codes "part") (rows_of (found_of matches.now)) ≡ Some (map (λ text. text.now) texts.now) }
    ensures { MatchesGive (Some (codes "size", rows_of (found_of matches.now))) result }
{
    if has_bound(matches) {
        return Err(ToolFault::usage(alloc, NO_BOUNDS));
    }
    if texts.len() > 8 {
        return Err(ToolFault::usage(alloc, NO_BOUNDS));
    }
    let front = size_or(matches, "front", 0);
    let parts = parts_of(alloc, texts)?;
    Ok(Command::SizeParts { front, parts })
}

/// What the matches of the subcommand that tells what is enough without a log ask for.
pub(crate) fn asked_size(alloc: Global, matches: &ArgMatches<'_>) -> Result<Command, ToolFault>
    ensures { MatchesGive (Some (codes "size", rows_of (found_of matches.now))) result }
{
    if let Some(texts) = matches.get_strs("part") {
        return asked_size_parts(alloc, texts, matches);
    }
    let Some(bounds) = bounds_of(matches) else {
        return Err(ToolFault::usage(alloc, NO_SIZE));
    };
    Ok(Command::Size { bounds })
}
