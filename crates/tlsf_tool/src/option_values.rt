//! What the options of a subcommand are set to.

ghost use Rattle.std.specs.Prelude.{◌≡◌, MatchBool, codes, string_bytes, Some, None};
ghost use Rattle.clap.specs.Words.{first_of, found_of, rows_of};
ghost use Rattle.tlsf_tool.specs.CommandLine.{HasNumber, HasOr, HasNoSetting, HasHeap, HasSettings, HasNoLog};
ghost use Rattle.tlsf_tool.specs.Asks.{Picks, Asks};

use crate::asked::ToolFault;
use clap::ArgMatches;
use mtrace_replay::{RunFault, Settings};
use std::alloc::Global;
use tlsf_class::GREATEST_SIZE;

/// Memory was refused.
pub(crate) const NO_MEMORY: ToolFault = ToolFault::Run(RunFault::OutOfMemory);

/// The text where clap takes words that ask for nothing.
pub(crate) const NO_COMMAND: &str = "tlsf: no command; for more, try 'tlsf --help'\n";

/// The size of this id, in bytes, that a subcommand's matches have.
pub(crate) fn size_of(matches: &ArgMatches<'_>, id: &str) -> Option<u64>
    ensures { Picks (HasNumber (rows_of (found_of matches.now)) id.now 64) result }
{
    matches.get_one::<u64>(id)
}

/// The number of this id that a subcommand's matches have.
pub(crate) fn option_number(matches: &ArgMatches<'_>, id: &str) -> Option<u32>
    ensures { Picks (HasNumber (rows_of (found_of matches.now)) id.now 32) result }
{
    matches.get_one::<u32>(id)
}

/// The settings that a subcommand's matches have.
pub(crate) fn settings_of(matches: &ArgMatches<'_>) -> Option<Settings>
    ensures { Picks (HasSettings (rows_of (found_of matches.now))) result }
{
    let pool = size_of(matches, "pool")?;
    let pools = option_number(matches, "pools")?;
    let records = option_number(matches, "records")?;
    Some(Settings {
        pool,
        pools,
        records,
    })
}

/// The word of this id, which a subcommand's matches have.
pub(crate) fn word_of(
    alloc: Global,
    matches: &ArgMatches<'_>,
    id: &str,
) -> Result<String, ToolFault>
    ensures { Asks (λ word. first_of id.now (rows_of (found_of matches.now)) ≡ Some (string_bytes word))
        (first_of id.now (rows_of (found_of matches.now)) ≡ None) result }
{
    let Some(word) = matches.get_str(id) else {
        return Err(ToolFault::usage(alloc, NO_COMMAND));
    };
    match String::from_str(alloc, word) {
        Ok(word) => Ok(word),
        Err(_) => Err(NO_MEMORY),
    }
}

/// The settings and the log that a subcommand's matches have.
pub(crate) fn log_of(
    alloc: Global,
    matches: &ArgMatches<'_>,
) -> Result<(Settings, String), ToolFault>
    ensures { Asks (λ given. HasSettings (rows_of (found_of matches.now)) given.0
        × (first_of (codes "LOG") (rows_of (found_of matches.now)) ≡ Some (string_bytes given.1)))
        (HasNoLog (rows_of (found_of matches.now))) result }
{
    let Some(settings) = settings_of(matches) else {
        return Err(ToolFault::usage(alloc, NO_COMMAND));
    };
    let log = word_of(alloc, matches, "LOG")?;
    Ok((settings, log))
}

/// The size of this id, in bytes, or else this one.
pub(crate) fn size_or(matches: &ArgMatches<'_>, id: &str, other: u64) -> u64
    ensures { HasOr (rows_of (found_of matches.now)) id.now 64 other result }
{
    match size_of(matches, id) {
        Some(size) => size,
        None => other,
    }
}

/// The number of this id, or else this one.
pub(crate) fn number_or(matches: &ArgMatches<'_>, id: &str, other: u32) -> u32
    ensures { HasOr (rows_of (found_of matches.now)) id.now 32 other result }
{
    match option_number(matches, id) {
        Some(number) => number,
        None => other,
    }
}

/// Whether a setting of a heap is among a subcommand's matches.
pub(crate) fn has_setting(matches: &ArgMatches<'_>) -> bool
    ensures { MatchBool result (HasNoSetting (rows_of (found_of matches.now)) → ⊥) (HasNoSetting (rows_of (found_of matches.now))) }
{
    let pool = size_of(matches, "pool");
    let pools = option_number(matches, "pools");
    let records = option_number(matches, "records");
    match (pool, pools, records) {
        (None, None, None) => false,
        _ => true,
    }
}

/// The heap that a subcommand's matches ask for, where they ask for one.
pub(crate) fn heap_of(matches: &ArgMatches<'_>) -> Option<Settings>
    ensures { HasHeap (rows_of (found_of matches.now)) result }
{
    if !has_setting(matches) {
        return None;
    }
    Some(Settings {
        pool: size_or(matches, "pool", u64::from(GREATEST_SIZE)),
        pools: number_or(matches, "pools", 1),
        records: number_or(matches, "records", 65_535),
    })
}
