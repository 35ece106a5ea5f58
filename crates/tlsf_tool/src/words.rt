//! The words of the command line.

ghost use Rattle.std.specs.Prelude.{◌≡◌, ◌⊎◌, MatchBool, codes, Some, None};
ghost use Rattle.clap.specs.Words.{found_of, kind_of, rows_of, subcommand_rows_of};
ghost use Rattle.tlsf_tool.specs.CommandLine.{HasNumber, HasFlag, HasImage, HasNoHeap, IsOfReport, name_text};
ghost use Rattle.tlsf_tool.specs.Faults.{ExplainsKind, IsUsage};
ghost use Rattle.tlsf_tool.specs.Asks.{MatchesGive, WordsGive};

use crate::asked::{Command, HeapReport, ImageReport, Rereading, ToolFault};
use crate::command_line::tlsf_command;
use crate::option_values::{
    NO_COMMAND, NO_MEMORY, has_setting, heap_of, log_of, option_number, size_of, size_or, word_of,
};
use crate::size_words::asked_size;
use crate::word_faults::told_text;
use clap::error::ErrorKind;
use clap::{ArgMatches, Error};
use mtrace_replay::{LedgerReport, RunFault, Settings};
use std::alloc::Global;

/// The text where a setting of a heap stands beside the option that asks for none.
const NO_SETTINGS: &str =
    "error: --no-heap takes no option beside it: --pool, --pools and --records are of a heap\n\nFor more information, try '--help'.\n";

/// The text where a setting of a heap stands beside the option of an image.
const NO_SETTINGS_OF_IMAGE: &str =
    "error: --image takes no option beside it: --pool, --pools and --records are of a heap\n\nFor more information, try '--help'.\n";

/// The text where a setting of a heap stands beside the option that tells calls.
const NO_CALLS: &str =
    "error: --calls takes no option beside it: --pool, --pools and --records are of a heap\n\nFor more information, try '--help'.\n";

/// The text where a setting of a heap stands beside the option that tells each location.
const NO_SITES: &str =
    "error: --sites takes no option beside it but --points: --pool, --pools and --records are of a heap\n\nFor more information, try '--help'.\n";

/// The text where snapshots are asked of a report on a heap.
const NO_EVERY: &str =
    "error: --every is of a report without a heap: leaks and peak take --no-heap beside it, sites none of --pool, --pools and --records\n\nFor more information, try '--help'.\n";

/// The text where the step between sizes stands beside the number of heaps.
const NO_STEP: &str =
    "error: --heaps takes no --step beside it, which is of one heap\n\nFor more information, try '--help'.\n";

/// What the matches of the subcommand that tells who holds the memory ask for.
fn asked_sites(alloc: Global, matches: &ArgMatches<'_>) -> Result<Command, ToolFault>
    ensures { MatchesGive (Some (codes "sites", rows_of (found_of matches.now))) result }
{
    let log = word_of(alloc, matches, "LOG")?;
    let has_calls = has_flag(matches, "calls");
    let every = size_of(matches, "every");
    let Some(settings) = heap_of(matches) else {
        let report = if has_calls {
            LedgerReport::Callers
        } else {
            LedgerReport::Sites
        };
        return Ok(Command::Ledger { report, every, log });
    };
    if has_calls {
        return Err(ToolFault::usage(alloc, NO_CALLS));
    }
    if let Some(_every) = every {
        return Err(ToolFault::usage(alloc, NO_EVERY));
    }
    let what = Rereading::Sites(settings);
    Ok(Command::Reread { what, log })
}

/// What the matches of the subcommand that tells what is held over the lines ask for.
fn asked_timeline(alloc: Global, matches: &ArgMatches<'_>) -> Result<Command, ToolFault>
    ensures { MatchesGive (Some (codes "timeline", rows_of (found_of matches.now))) result }
{
    let Some(stretches) = option_number(matches, "points") else {
        return Err(ToolFault::usage(alloc, NO_COMMAND));
    };
    let log = word_of(alloc, matches, "LOG")?;
    if !has_flag(matches, "sites") {
        let heap = heap_of(matches);
        let what = Rereading::Timeline { heap, stretches };
        return Ok(Command::Reread { what, log });
    }
    if has_setting(matches) {
        return Err(ToolFault::usage(alloc, NO_SITES));
    }
    let what = Rereading::SiteTimeline(stretches);
    Ok(Command::Reread { what, log })
}

/// What the matches ask for that tell how many heaps by size there are at most.
fn asked_parts(alloc: Global, heaps: u32, matches: &ArgMatches<'_>) -> Result<Command, ToolFault>
    requires heaps { HasNumber (rows_of (found_of matches.now)) (codes "heaps") 32 heaps }
    ensures { MatchesGive (Some (codes "fit", rows_of (found_of matches.now))) result }
{
    if let Some(_step) = size_of(matches, "step") {
        return Err(ToolFault::usage(alloc, NO_STEP));
    }
    let front = size_or(matches, "front", 0);
    let log = word_of(alloc, matches, "LOG")?;
    Ok(Command::Parts { front, heaps, log })
}

/// What the matches of the subcommand that tries sizes ask for.
fn asked_fit(alloc: Global, matches: &ArgMatches<'_>) -> Result<Command, ToolFault>
    ensures { MatchesGive (Some (codes "fit", rows_of (found_of matches.now))) result }
{
    if let Some(heaps) = option_number(matches, "heaps") {
        return asked_parts(alloc, heaps, matches);
    }
    let front = size_or(matches, "front", 0);
    let step = size_of(matches, "step");
    let log = word_of(alloc, matches, "LOG")?;
    let what = Rereading::Fit { front, step };
    Ok(Command::Reread { what, log })
}

/// What the matches of the subcommand that saves ask for.
fn asked_save(alloc: Global, matches: &ArgMatches<'_>) -> Result<Command, ToolFault>
    ensures { MatchesGive (Some (codes "save", rows_of (found_of matches.now))) result }
{
    let (settings, log) = log_of(alloc, matches)?;
    let image = word_of(alloc, matches, "IMAGE")?;
    Ok(Command::Save {
        settings,
        log,
        image,
    })
}

/// What the matches of the subcommand that checks ask for.
fn asked_check(alloc: Global, matches: &ArgMatches<'_>) -> Result<Command, ToolFault>
    ensures { MatchesGive (Some (codes "check", rows_of (found_of matches.now))) result }
{
    let image = word_of(alloc, matches, "IMAGE")?;
    let report = ImageReport::Check;
    Ok(Command::Image { report, image })
}

/// Whether the option of this id is there, which takes no value.
fn has_flag(matches: &ArgMatches<'_>, id: &str) -> bool
    ensures { MatchBool result (HasFlag id.now (rows_of (found_of matches.now))) (HasFlag id.now (rows_of (found_of matches.now)) → ⊥) }
{
    match matches.get_str(id) {
        Some(word) => word == "true",
        None => false,
    }
}

/// What the matches of the subcommand of this name ask for, which is of a report without a heap.
fn asked_ledger(
    alloc: Global,
    name: HeapReport,
    report: LedgerReport,
    matches: &ArgMatches<'_>,
) -> Result<Command, ToolFault>
    requires none { HasNoHeap (rows_of (found_of matches.now)) }
    requires no_image { HasImage name (rows_of (found_of matches.now)) → ⊥ }
    requires name { IsOfReport report (name_text name) }
    ensures { MatchesGive (Some (name_text name, rows_of (found_of matches.now))) result }
{
    let (settings, log) = log_of(alloc, matches)?;
    if settings != Settings::DEFAULT {
        return Err(ToolFault::usage(alloc, NO_SETTINGS));
    }
    let every = size_of(matches, "every");
    Ok(Command::Ledger { report, every, log })
}

/// What the matches of the subcommand ask for of a report on a heap.
fn asked_on_heap(
    alloc: Global,
    name: HeapReport,
    matches: &ArgMatches<'_>,
) -> Result<Command, ToolFault>
    requires none { HasNoHeap (rows_of (found_of matches.now)) → ⊥ }
    requires no_image { HasImage name (rows_of (found_of matches.now)) → ⊥ }
    ensures { MatchesGive (Some (name_text name, rows_of (found_of matches.now))) result }
{
    let (settings, log) = log_of(alloc, matches)?;
    if let Some(_every) = size_of(matches, "every") {
        return Err(ToolFault::usage(alloc, NO_EVERY));
    }
    Ok(Command::Report {
        name,
        settings,
        log,
    })
}

/// What the matches of a report's subcommand ask for.
fn asked_report(
    alloc: Global,
    name: HeapReport,
    matches: &ArgMatches<'_>,
) -> Result<Command, ToolFault>
    requires no_image { HasImage name (rows_of (found_of matches.now)) → ⊥ }
    ensures { MatchesGive (Some (name_text name, rows_of (found_of matches.now))) result }
{
    if !has_flag(matches, "no-heap") {
        return asked_on_heap(alloc, name, matches);
    }
    match name {
        HeapReport::Leaks => asked_ledger(alloc, name, LedgerReport::Held, matches),
        HeapReport::Peak => asked_ledger(alloc, name, LedgerReport::Sums, matches),
        HeapReport::Walk => Err(ToolFault::usage(alloc, NO_COMMAND)),
    }
}

/// What the matches of the subcommand that walks ask for, where it is given an image.
fn asked_image(alloc: Global, matches: &ArgMatches<'_>) -> Result<Command, ToolFault>
    requires image { HasImage HeapReport.Walk (rows_of (found_of matches.now)) }
    ensures { MatchesGive (Some (codes "walk", rows_of (found_of matches.now))) result }
{
    let (settings, image) = log_of(alloc, matches)?;
    if Settings::DEFAULT != settings {
        return Err(ToolFault::usage(alloc, NO_SETTINGS_OF_IMAGE));
    }
    let report = ImageReport::Walk;
    Ok(Command::Image { report, image })
}

/// What the matches of the subcommand that walks ask for.
fn asked_walk(alloc: Global, matches: &ArgMatches<'_>) -> Result<Command, ToolFault>
    ensures { MatchesGive (Some (codes "walk", rows_of (found_of matches.now))) result }
{
    if has_flag(matches, "image") {
        return asked_image(alloc, matches);
    }
    asked_report(alloc, HeapReport::Walk, matches)
}

/// What the matches ask for.
fn asked(alloc: Global, matches: &ArgMatches<'_>) -> Result<Command, ToolFault>
    ensures { MatchesGive (subcommand_rows_of matches.now) result }
{
    let Some((text, sub_matches)) = matches.subcommand() else {
        return Err(ToolFault::usage(alloc, NO_COMMAND));
    };
    match text {
        "sites" => asked_sites(alloc, sub_matches),
        "timeline" => asked_timeline(alloc, sub_matches),
        "fit" => asked_fit(alloc, sub_matches),
        "save" => asked_save(alloc, sub_matches),
        "size" => asked_size(alloc, sub_matches),
        "check" => asked_check(alloc, sub_matches),
        "leaks" => asked_report(alloc, HeapReport::Leaks, sub_matches),
        "peak" => asked_report(alloc, HeapReport::Peak, sub_matches),
        "walk" => asked_walk(alloc, sub_matches),
        _ => Err(ToolFault::usage(alloc, NO_COMMAND)),
    }
}

/// The fault of words that are wrong, of which clap says this.
fn usage_of(alloc: Global, words: &[String], text: String) -> ToolFault
    ensures { IsUsage result ⊎ (result ≡ ToolFault.Run RunFault.OutOfMemory) }
{
    match told_text(alloc, words, text.as_str()) {
        Ok(Some(told)) => ToolFault::Usage(told),
        Ok(None) => ToolFault::Usage(text),
        Err(_) => NO_MEMORY,
    }
}

/// The fault of clap's error for these words, with its text.
fn fault_of(alloc: Global, words: &[String], error: &Error) -> ToolFault
    ensures { (result ≡ ToolFault.Run RunFault.OutOfMemory) ⊎ ExplainsKind (kind_of error.now) result }
{
    if error.kind() == ErrorKind::OutOfMemory {
        return NO_MEMORY;
    }
    match error.to_string(alloc) {
        Ok(text) if error.use_stderr() => usage_of(alloc, words, text),
        Ok(text) => ToolFault::Help(text),
        Err(_) => NO_MEMORY,
    }
}

/// What the words ask for, of which the first is the program's name.
///
/// # Errors
///
/// `Help` where they ask for help or for the version, `Usage` for words that ask for nothing that there
/// is, each with its text; `Run` of `OutOfMemory` where memory is refused.
pub fn command(alloc: Global, words: &[String]) -> Result<Command, ToolFault>
    ensures { WordsGive words.now result }
{
    let Ok(line) = tlsf_command(alloc) else {
        return Err(NO_MEMORY);
    };
    match line.try_get_matches_from(words) {
        Ok(matches) => asked(alloc, &matches),
        Err(error) => Err(fault_of(alloc, words, &error)),
    }
}
