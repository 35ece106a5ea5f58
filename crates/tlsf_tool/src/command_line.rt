//! The command line, described to clap.

ghost use Rattle.std.specs.Prelude.{◌≡◌, IfOk, codes, pos};
ghost use Rattle.clap.specs.declared.builder.value_parser.ValueParser.TheVariants.{Signed, Unsigned};
ghost use Rattle.tlsf_class.specs.Classes.{unit, greatest_size};
ghost use Rattle.clap.specs.Words.{App, app_of, new_app, with_subcommand};
ghost use Rattle.tlsf_tool.specs.CommandLine.{IsArgOf, IsCommandOf, given_rule, front_rule, repeated_rule, flag_rule, word_rule, heap_line, report_line, ledger_line, choice_line, sites_line, timeline_line, walk_line, fit_line, size_line, save_line, check_line, bare_line, tlsf_line};

use clap::builder::ValueParser;
use clap::{Arg, ArgAction, Command, value_parser};
use std::alloc::{AllocError, Global};
use tlsf_class::{GREATEST_SIZE, UNIT};

/// The program's name, in usage and help too, whatever the file is called that it runs from.
const NAME: &str = "tlsf";

/// The program's version.
const VERSION: &str = "1.2.0";

/// What `tlsf` is for.
const ABOUT: &str =
    "Tells who holds a program's memory, what leaks, and how large a pool it needs, from a log of tlsf-trace or of glibc's mtrace(3).";

/// The end of the program's help.
const EXAMPLES: &str = "Examples:
  tlsf-trace -o a.log ./program             the log of a program, with the stack of each call
  tlsf sites a.log                          who holds the memory of a.log, at its peak and at its end
  tlsf timeline a.log                       what a.log holds over its lines
  tlsf leaks a.log                          what is not freed at the end of a.log
  tlsf leaks --no-heap a.log                the same, where a.log holds more than a heap does
  tlsf peak --pool 1048576 --pools 2 a.log  the peak of a.log on two pools of 1 MiB
  tlsf walk --records 65535 -               the heap at the end of the log on standard input
  tlsf fit a.log                            how large a pool a.log needs, and how many records
  tlsf size --blocks 60 --largest 1040      how large a pool is enough for any 60 blocks of 1040 bytes
  tlsf save a.log a.image                   that heap at the end of a.log, in a file
  tlsf check a.image                        whether that file can be loaded

The status is 0 where nothing was found, 1 where something was, 2 for wrong words or bad settings,
3 where a file can't be read or written, and 4 where memory is refused.";

/// What a subcommand's help tells: what it is for, and examples at the end.
#[derive(Clone, Copy)]
struct Help {
    about: &'static str,
    examples: &'static str,
}

const LEAKS: Help = Help {
    about: "Reports the memory that is not freed at the end of the log: each block's address, size, line and place.",
    examples: "Examples:
  tlsf leaks a.log                                   what is not freed at the end of a.log
  tlsf leaks --records 65535 --pool 1073741808 a.log the same, where it holds more than 8192 blocks
  tlsf leaks --no-heap a.log                         the same, where it holds more than 65535
  tlsf leaks --no-heap --every 60000 a.log           and what was not freed yet, minute by minute",
};

const PEAK: Help = Help {
    about: "Reports the most bytes that the log holds at once, and how much of the heap they need.",
    examples: "Examples:
  tlsf peak a.log                           the peak of a.log on one pool of 16 MiB
  tlsf peak --pool 1048576 --pools 2 a.log  the same on two pools of 1 MiB
  tlsf peak --no-heap a.log                 the most bytes that a.log holds at once, and the line",
};

const WALK: Help = Help {
    about: "Reports the heap's pools at the end of the log, row by row: each used and each free block.",
    examples: "Examples:
  tlsf walk a.log                           the heap's blocks at the end of a.log
  tlsf walk --records 65535 -               those at the end of the log on standard input
  tlsf walk --image a.image                 those of the heap that a.image describes",
};

const SITES: Help = Help {
    about: "Reports who holds the memory, at the peak and at the end of the log: blocks and bytes by the location that asked for them. On a heap, LOG is read twice.",
    examples: "Examples:
  tlsf sites a.log                              who holds the memory of a.log
  tlsf sites --calls a.log                      the same, and who asks how often
  tlsf sites --every 60000 a.log                the same, and who held it minute by minute
  xz -dc a.log.xz | tlsf sites -                who holds the memory of a log that is compressed
  tlsf sites --pool 65536 --records 500 a.log   the same on a heap that has no more",
};

const TIMELINE: Help = Help {
    about: "Reports what is held over the lines of the log: bytes and blocks. With an option of a heap, also how far they reach there and what is free. LOG is read twice.",
    examples: "Examples:
  tlsf timeline a.log                           what a.log holds, at some 100 of its lines
  tlsf timeline --points 1000 a.log             the same at some 1000 lines
  tlsf timeline --sites a.log                   the same, and who held it
  tlsf timeline --pools 1 a.log                 the same on a heap of the greatest size",
};

const FIT: Help = Help {
    about: "Reports how large a pool the log needs, and how many records: sizes from its peak to twice its peak are tried, and greater ones where none of these serves. LOG is read once for each.",
    examples: "Examples:
  tlsf fit a.log                            how large a pool a.log needs, and how many records
  tlsf fit --step 4096 a.log                the same, in steps of 4096 bytes
  tlsf fit --heaps 4 a.log                  which four heaps serve a.log, each for blocks of one size
  tlsf fit --front 8 a.log                  how large a pool a.log needs over tlsf.h",
};

const SIZE: Help = Help {
    about: "Tells how many records and how large a pool are always enough, in whatever order a program asks: for at most L live blocks of at most M bytes. The rounded pool is, where the program rounds each request up to one size: 1056 for 1040 bytes. With --part each heap has such a pool, and its size stands in its line.",
    examples: "Examples:
  tlsf size --blocks 60 --largest 1040                 what is enough for any 60 blocks of 1040 bytes
  tlsf size --blocks 60 --largest 1040 --bytes 20480   the same, where they have 20480 bytes at most
  tlsf size --front 8 --blocks 60 --largest 1040       the same over tlsf.h
  tlsf size --part 2130x64 --part 20x4096              the same for two heaps, each for blocks of one size",
};

const SAVE: Help = Help {
    about: "Writes an image of the heap at the end of the log to a file, from which it can be loaded.",
    examples: "Examples:
  tlsf save a.log a.image                   the heap at the end of a.log, in a file
  tlsf save --pool 65536 - a.image          that of the log on standard input, on 64 KiB",
};

const CHECK: Help = Help {
    about: "Tells whether an image can be loaded, or the first rule that it breaks.",
    examples: "Examples:
  tlsf check a.image                               whether a.image can be loaded
  tlsf save a.log a.image; tlsf check a.image      whether it was written well",
};

const POOL: &str = "Bytes of each pool, a multiple of 16 from 16 to 1073741808";

const POOLS: &str = "Number of pools, from 1 to 8; together they end at 4294967296 bytes at most";

const RECORDS: &str = "Number of records, one for each block, from the number of pools to 65535";

const CHOSEN_POOL: &str =
    "On a heap: bytes of each pool, a multiple of 16 from 16 to 1073741808, else 1073741808";

const CHOSEN_POOLS: &str =
    "On a heap: number of pools, from 1 to 8, else 1; together they end at 4294967296 bytes at most";

const CHOSEN_RECORDS: &str =
    "On a heap: number of records, one for each block, from the number of pools to 65535, else 65535";

const EVERY: &str =
    "Also put the report so far each time that MS milliseconds more are over, by the times that the log tells; from 1 to 4294967295, not on a heap";

const FRONT: &str =
    "Bytes that a heap keeps in front of each block, 8 over tlsf.h, from 0 to 1073741808: each request has so many more; else 0";

/// The option of this id, whose value the parser takes.
fn option<'a>(
    alloc: Global,
    id: &'a str,
    value: &'a str,
    parser: ValueParser<'a>,
    help: &'a str,
) -> Arg<'a>
    ensures { IsArgOf (given_rule id.entry.now parser.entry) result }
{
    Arg::new(alloc, id)
        .long(id)
        .value_name(value)
        .value_parser(parser)
        .help(help)
}

/// The option of this id, which takes no value.
fn flag<'a>(alloc: Global, id: &'a str, help: &'a str) -> Arg<'a>
    ensures { IsArgOf (flag_rule id.entry.now) result }
{
    Arg::new(alloc, id)
        .long(id)
        .action(ArgAction::SetTrue)
        .help(help)
}

/// The option of this id, whose value is any text, and which may be given any number of times.
fn repeated<'a>(alloc: Global, id: &'a str, value: &'a str, help: &'a str) -> Arg<'a>
    ensures { IsArgOf (repeated_rule id.entry.now) result }
{
    Arg::new(alloc, id)
        .long(id)
        .value_name(value)
        .action(ArgAction::Append)
        .help(help)
}

/// What takes a number from 1 to the most.
fn count<'a>(most: u32) -> ValueParser<'a>
    ensures { result ≡ Signed (pos 1) (pos most) }
{
    value_parser!(u32).range(1..=i64::from(most))
}

/// What takes bytes, from the least to the most.
fn bytes<'a>(least: u32, most: u32) -> ValueParser<'a>
    ensures { result ≡ Unsigned least most }
{
    value_parser!(u64).range(i64::from(least)..=i64::from(most))
}

/// The log's name.
fn log_word<'a>(alloc: Global) -> Arg<'a>
    ensures { IsArgOf (word_rule (codes "LOG")) result }
{
    Arg::new(alloc, "LOG").required(true).help(
        "File of the log, - for standard input; timeline, fit without --heaps, and sites on a heap take no pipe",
    )
}

/// The image's name.
fn image_word<'a>(alloc: Global) -> Arg<'a>
    ensures { IsArgOf (word_rule (codes "IMAGE")) result }
{
    Arg::new(alloc, "IMAGE")
        .required(true)
        .help("File of the image")
}

/// A subcommand that takes no words yet.
fn subcommand<'a>(alloc: Global, name: &'a str, help: Help) -> Command<'a>
    ensures { IsCommandOf (new_app name.entry.now) result }
{
    Command::new(alloc, name)
        .about(help.about)
        .after_help(help.examples)
}

/// The option of the bytes of each pool.
fn pool_option<'a>(alloc: Global, help: &'a str) -> Arg<'a>
    ensures { IsArgOf (given_rule (codes "pool") (Unsigned unit greatest_size)) result }
{
    option(alloc, "pool", "BYTES", bytes(UNIT, GREATEST_SIZE), help)
}

/// The option of the number of pools.
fn pools_option<'a>(alloc: Global, help: &'a str) -> Arg<'a>
    ensures { IsArgOf (given_rule (codes "pools") (Signed (pos 1) (pos 8))) result }
{
    option(alloc, "pools", "K", count(8), help)
}

/// The option of the number of records.
fn records_option<'a>(alloc: Global, help: &'a str) -> Arg<'a>
    ensures { IsArgOf (given_rule (codes "records") (Signed (pos 1) (pos 65535))) result }
{
    option(alloc, "records", "N", count(65_535), help)
}

/// The option of the milliseconds between snapshots.
fn every_option<'a>(alloc: Global) -> Arg<'a>
    ensures { IsArgOf (given_rule (codes "every") (Unsigned 1 4294967295)) result }
{
    option(alloc, "every", "MS", bytes(1, u32::MAX), EVERY)
}

/// The option of the bytes that a heap keeps in front of each block.
fn front_option<'a>(alloc: Global) -> Arg<'a>
    ensures { IsArgOf front_rule result }
{
    option(alloc, "front", "BYTES", bytes(0, GREATEST_SIZE), FRONT)
}

/// A subcommand that takes a heap's settings and a log, with these defaults of a pool's bytes and of the records.
fn heap_command<'a>(
    alloc: Global,
    name: &'a str,
    help: Help,
    pool: &'a str,
    records: &'a str,
) -> Result<Command<'a>, AllocError>
    ensures { IfOk result (IsCommandOf (heap_line pool.entry.now records.entry.now name.entry.now)) }
{
    subcommand(alloc, name, help)
        .arg(pool_option(alloc, POOL).default_value(pool))?
        .arg(pools_option(alloc, POOLS).default_value("1"))?
        .arg(records_option(alloc, RECORDS).default_value(records))?
        .arg(log_word(alloc))
}

/// A subcommand that takes a log, and a heap's settings where one is asked for.
fn choice_command<'a>(alloc: Global, name: &'a str, help: Help) -> Result<Command<'a>, AllocError>
    ensures { IfOk result (IsCommandOf (choice_line name.entry.now)) }
{
    subcommand(alloc, name, help)
        .arg(pool_option(alloc, CHOSEN_POOL))?
        .arg(pools_option(alloc, CHOSEN_POOLS))?
        .arg(records_option(alloc, CHOSEN_RECORDS))?
        .arg(log_word(alloc))
}

/// The subcommand of one report, or of what takes the same words.
fn report_command<'a>(alloc: Global, name: &'a str, help: Help) -> Result<Command<'a>, AllocError>
    ensures { IfOk result (IsCommandOf (report_line name.entry.now)) }
{
    heap_command(alloc, name, help, "16777216", "8192")
}

/// The subcommand of a report that needs no heap.
fn ledger_command<'a>(alloc: Global, name: &'a str, help: Help) -> Result<Command<'a>, AllocError>
    ensures { IfOk result (IsCommandOf (ledger_line name.entry.now)) }
{
    let no_heap =
        "Give each block that is asked for, of any size and any number of them; with no option of a heap";
    report_command(alloc, name, help)?
        .arg(flag(alloc, "no-heap", no_heap))?
        .arg(every_option(alloc))
}

/// The subcommand that tells a heap's blocks.
fn walk_command<'a>(alloc: Global) -> Result<Command<'a>, AllocError>
    ensures { IfOk result (IsCommandOf walk_line) }
{
    let image =
        "LOG is an image: of tlsf save, tlsf_save or tlsf_heap_save; with no option of a heap";
    report_command(alloc, "walk", WALK)?.arg(flag(alloc, "image", image))
}

/// The subcommand that tells who holds the memory.
fn sites_command<'a>(alloc: Global) -> Result<Command<'a>, AllocError>
    ensures { IfOk result (IsCommandOf sites_line) }
{
    let calls =
        "Also tell who asks, over the whole log: calls, bytes, and how many blocks the very next line frees; with no option of a heap";
    choice_command(alloc, "sites", SITES)?
        .arg(flag(alloc, "calls", calls))?
        .arg(every_option(alloc))
}

/// The subcommand that tells what is held over the lines.
fn timeline_command<'a>(alloc: Global) -> Result<Command<'a>, AllocError>
    ensures { IfOk result (IsCommandOf timeline_line) }
{
    let stretches =
        "Number of equal parts of the log, from 1 to 10000: a line is told at the end of each";
    let sites =
        "Also tell what each location holds, where that has changed since the line before; with no option of a heap";
    let points = option(alloc, "points", "N", count(10_000), stretches).default_value("100");
    choice_command(alloc, "timeline", TIMELINE)?
        .arg(points)?
        .arg(flag(alloc, "sites", sites))
}

/// The subcommand that tries sizes.
fn fit_command<'a>(alloc: Global) -> Result<Command<'a>, AllocError>
    ensures { IfOk result (IsCommandOf fit_line) }
{
    let step =
        "Bytes between two sizes that are tried, a multiple of 16 from 16 to 1073741808; else a 64th of the peak, rounded up";
    let heaps = "Number of heaps at most, from 1 to 8, each for a range of sizes; not with --step";
    subcommand(alloc, "fit", FIT)
        .arg(option(alloc, "step", "BYTES", bytes(UNIT, GREATEST_SIZE), step))?
        .arg(option(alloc, "heaps", "K", count(8), heaps))?
        .arg(front_option(alloc))?
        .arg(log_word(alloc))
}

/// The subcommand that tells what is enough without a log.
fn size_command<'a>(alloc: Global) -> Result<Command<'a>, AllocError>
    ensures { IfOk result (IsCommandOf size_line) }
{
    let blocks = "Most blocks that are live at once, from 1 to 32766";
    let largest = "Bytes of the largest request, from 1 to 1056964608";
    let sum =
        "Most bytes in live blocks together, each block in whole units of 16, from 1 to 1073741808; else L times M in whole units";
    let align = "Greatest alignment of a request, a power of two from 1 to 536870912";
    let part =
        "One heap of its own for requests of at most M bytes, with at most L live blocks; up to 8 times, with no other option but --front";
    subcommand(alloc, "size", SIZE)
        .arg(option(alloc, "blocks", "L", count(32_766), blocks))?
        .arg(option(alloc, "largest", "M", bytes(1, 1_056_964_608), largest))?
        .arg(option(alloc, "bytes", "U", bytes(1, GREATEST_SIZE), sum))?
        .arg(option(alloc, "align", "A", value_parser!(u64), align))?
        .arg(front_option(alloc))?
        .arg(repeated(alloc, "part", "LxM", part))
}

/// The subcommand that saves.
fn save_command<'a>(alloc: Global) -> Result<Command<'a>, AllocError>
    ensures { IfOk result (IsCommandOf save_line) }
{
    report_command(alloc, "save", SAVE)?.arg(image_word(alloc))
}

/// The subcommand that checks.
fn check_command<'a>(alloc: Global) -> Result<Command<'a>, AllocError>
    ensures { IfOk result (IsCommandOf check_line) }
{
    subcommand(alloc, "check", CHECK).arg(image_word(alloc))
}

/// The command line, with no subcommand yet.
fn bare_command<'a>(alloc: Global) -> Result<Command<'a>, AllocError>
    ensures { IfOk result (λ command. app_of command ≡ bare_line) }
{
    let named = Command::new(alloc, NAME).bin_name(NAME)?;
    Ok(
        named
            .version(VERSION)
            .about(ABOUT)
            .after_help(EXAMPLES)
            .subcommand_required(true),
    )
}

/// A command line with one subcommand more, where that was made.
fn with<'a>(
    line: Command<'a>,
    made: Result<Command<'a>, AllocError>,
) -> Result<Command<'a>, AllocError>
    ensures { (more : App) → IfOk made.entry (IsCommandOf more) → IfOk result (λ command. app_of command ≡ with_subcommand (app_of line.entry) more.top) }
{
    match made {
        Ok(more) => line.subcommand(more),
        Err(error) => Err(error),
    }
}

/// The whole command line.
pub fn tlsf_command<'a>(alloc: Global) -> Result<Command<'a>, AllocError>
    ensures { IfOk result (λ command. app_of command ≡ tlsf_line) }
{
    let bare = bare_command(alloc)?;
    let leaks = with(bare, ledger_command(alloc, "leaks", LEAKS))?;
    let peak = with(leaks, ledger_command(alloc, "peak", PEAK))?;
    let walk = with(peak, walk_command(alloc))?;
    let sites = with(walk, sites_command(alloc))?;
    let timeline = with(sites, timeline_command(alloc))?;
    let fit = with(timeline, fit_command(alloc))?;
    let size = with(fit, size_command(alloc))?;
    let save = with(size, save_command(alloc))?;
    with(save, check_command(alloc))
}
