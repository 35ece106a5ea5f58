//! What is done for words, through `planned`, and which log is standard input.

use super::program::strings;
use crate::asked::{Command, HeapReport, ImageReport, Rereading, ToolFault};
use crate::plan::{Plan, Streams, is_standard, planned};
use crate::tests::expect_eq_at;
use mtrace_replay::Settings;
use std::alloc::Global;
use std::process::Abort;
use std::test::Fail;

pub(super) const TYPED: Streams = Streams {
    typed: true,
    again: false,
    shown: true,
};

const PIPED: Streams = Streams {
    typed: false,
    again: false,
    shown: true,
};

const QUIET: Streams = Streams {
    typed: true,
    again: false,
    shown: false,
};

const BARE: Streams = Streams {
    typed: false,
    again: false,
    shown: false,
};

/// Expects that each of these is refused as wrong words.
pub(super) fn expect_usage(rt: &impl Abort, alloc: Global, rows: &[&[&str]]) -> Result<(), Fail> {
    for words in rows {
        let answer = planned(alloc, strings(alloc, words)?.as_slice(), TYPED);
        let is_usage = matches!(&answer, Err(ToolFault::Usage(_)));
        expect_eq_at(rt, words, is_usage, true);
    }
    Ok(())
}

/// Words of `peak` and of `save`, with the name of their log, whether it is standard input, and whether it is told how far
/// the run is where that is typed. It is told where it is piped.
const LOGS: [(&[&str], &str, bool, bool); 6] = [
    (&["-"], "-", true, false),
    (&["--", "-"], "-", true, false),
    (&["a.log"], "a.log", false, true),
    (&["--", "--"], "--", false, true),
    (&["/dev/stdin"], "/dev/stdin", false, true),
    (&[""], "", false, true),
];

#[test]
fn reports_and_images(rt: HostRuntime) -> Result<(), Fail> {
    let alloc = rt.alloc();
    for (words, log, standard, typed) in LOGS {
        expect_eq_at(
            &rt,
            words,
            is_standard(&String::from_str(alloc, log)?),
            standard,
        );
        for (streams, notice) in [(TYPED, typed), (PIPED, true), (QUIET, false), (BARE, false)] {
            let mut report = strings(alloc, &["tlsf", "peak"])?;
            let mut save = strings(alloc, &["tlsf", "save", "--records", "12345"])?;
            for word in words {
                report.push(String::from_str(alloc, word)?)?;
                save.push(String::from_str(alloc, word)?)?;
            }
            save.push(String::from_str(alloc, "-")?)?;
            let command = Command::Report {
                name: HeapReport::Peak,
                settings: Settings::DEFAULT,
                log: String::from_str(alloc, log)?,
            };
            expect_eq_at(
                &rt,
                words,
                planned(alloc, report.as_slice(), streams)?,
                Plan { command, notice },
            );
            let command = Command::Save {
                settings: Settings {
                    records: 12_345,
                    ..Settings::DEFAULT
                },
                log: String::from_str(alloc, log)?,
                image: String::from_str(alloc, "-")?,
            };
            expect_eq_at(
                &rt,
                words,
                planned(alloc, save.as_slice(), streams)?,
                Plan { command, notice },
            );
        }
    }
    Ok(())
}

/// The greatest heap: `sites` and `timeline` take from it what is not given, where an option of a heap is.
const GREATEST: Settings = Settings {
    pool: 1_073_741_808,
    pools: 1,
    records: 65_535,
};

/// Words of a log that is read more than once, with what it is read for.
const AGAIN: [(&[&str], Rereading); 8] = [
    (
        &["tlsf", "sites", "--pools", "1"],
        Rereading::Sites(GREATEST),
    ),
    (
        &["tlsf", "sites", "--records", "777", "--pools", "5"],
        Rereading::Sites(Settings {
            records: 777,
            pools: 5,
            ..GREATEST
        }),
    ),
    (
        &["tlsf", "timeline"],
        Rereading::Timeline {
            heap: None,
            stretches: 100,
        },
    ),
    (
        &["tlsf", "timeline", "--pool", "64", "--points", "10000"],
        Rereading::Timeline {
            heap: Some(Settings {
                pool: 64,
                ..GREATEST
            }),
            stretches: 10_000,
        },
    ),
    (
        &["tlsf", "timeline", "--pools", "1"],
        Rereading::Timeline {
            heap: Some(GREATEST),
            stretches: 100,
        },
    ),
    (
        &["tlsf", "timeline", "--records", "777"],
        Rereading::Timeline {
            heap: Some(Settings {
                records: 777,
                ..GREATEST
            }),
            stretches: 100,
        },
    ),
    (
        &["tlsf", "fit"],
        Rereading::Fit {
            front: 0,
            step: None,
        },
    ),
    (
        &["tlsf", "fit", "--step", "4096", "--front", "8"],
        Rereading::Fit {
            front: 8,
            step: Some(4096),
        },
    ),
];

#[test]
fn logs_that_are_read_again(rt: HostRuntime) -> Result<(), Fail> {
    let alloc = rt.alloc();
    for (words, what) in AGAIN {
        for streams in [TYPED, PIPED, QUIET, BARE] {
            let mut named = strings(alloc, words)?;
            named.push(String::from_str(alloc, "/dev/stdin")?)?;
            let command = Command::Reread {
                what,
                log: String::from_str(alloc, "/dev/stdin")?,
            };
            let notice = streams.shown;
            expect_eq_at(
                &rt,
                words,
                planned(alloc, named.as_slice(), streams)?,
                Plan { command, notice },
            );
            let mut standard = strings(alloc, words)?;
            standard.push(String::from_str(alloc, "-")?)?;
            let answer = planned(alloc, standard.as_slice(), streams);
            expect_eq_at(
                &rt,
                words,
                matches!(&answer, Err(ToolFault::ReadsOnce)),
                true,
            );
            let command = Command::Reread {
                what,
                log: String::from_str(alloc, "-")?,
            };
            let again = Streams {
                again: true,
                ..streams
            };
            expect_eq_at(
                &rt,
                words,
                planned(alloc, standard.as_slice(), again)?,
                Plan { command, notice },
            );
        }
    }
    Ok(())
}

#[test]
fn images_that_are_checked(rt: HostRuntime) -> Result<(), Fail> {
    let alloc = rt.alloc();
    let check: &[&str] = &["tlsf", "check"];
    let walk: &[&str] = &["tlsf", "walk", "--image"];
    for (report, first) in [(ImageReport::Check, check), (ImageReport::Walk, walk)] {
        for name in ["-", "", "an.image"] {
            let image = String::from_str(alloc, name)?;
            let wanted = Plan {
                command: Command::Image { report, image },
                notice: false,
            };
            let mut words = strings(alloc, first)?;
            words.push(String::from_str(alloc, name)?)?;
            expect_eq_at(&rt, name, planned(alloc, words.as_slice(), TYPED)?, wanted);
        }
    }
    Ok(())
}
