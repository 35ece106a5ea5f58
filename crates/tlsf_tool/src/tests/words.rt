//! Rows of words through `command`.

use super::program::strings;
use crate::asked::{Command, HeapReport, ImageReport, ToolFault};
use crate::tests::{expect_eq, expect_eq_at};
use crate::words::command;
use mtrace_replay::Settings;
use std::test::Fail;

/// The settings where no option is given.
const DEFAULT: Settings = Settings {
    pool: 16_777_216,
    pools: 1,
    records: 8_192,
};

/// Words, with what they ask for.
struct Row {
    words: &'static [&'static str],
    name: HeapReport,
    settings: Settings,
    log: &'static str,
}

const TAKEN: [Row; 18] = [
    Row {
        words: &["tlsf", "leaks", "a.log"],
        name: HeapReport::Leaks,
        settings: DEFAULT,
        log: "a.log",
    },
    Row {
        words: &["tlsf", "peak", "-"],
        name: HeapReport::Peak,
        settings: DEFAULT,
        log: "-",
    },
    Row {
        words: &["tlsf", "walk", "-"],
        name: HeapReport::Walk,
        settings: DEFAULT,
        log: "-",
    },
    Row {
        words: &["tlsf", "walk", "--pool", "4096", "a.log"],
        name: HeapReport::Walk,
        settings: Settings {
            pool: 4_096,
            ..DEFAULT
        },
        log: "a.log",
    },
    Row {
        words: &["tlsf", "leaks", "--pools", "3", "a.log"],
        name: HeapReport::Leaks,
        settings: Settings {
            pools: 3,
            ..DEFAULT
        },
        log: "a.log",
    },
    Row {
        words: &["tlsf", "peak", "--records", "48", "a.log"],
        name: HeapReport::Peak,
        settings: Settings {
            records: 48,
            ..DEFAULT
        },
        log: "a.log",
    },
    Row {
        words: &["tlsf", "peak", "--pool", "24", "-"],
        name: HeapReport::Peak,
        settings: Settings {
            pool: 24,
            ..DEFAULT
        },
        log: "-",
    },
    Row {
        words: &["tlsf", "peak", "--records", "1", "--pools", "2", "-"],
        name: HeapReport::Peak,
        settings: Settings {
            pools: 2,
            records: 1,
            ..DEFAULT
        },
        log: "-",
    },
    Row {
        words: &["tlsf", "peak", "--pool=64", "a.log"],
        name: HeapReport::Peak,
        settings: Settings {
            pool: 64,
            ..DEFAULT
        },
        log: "a.log",
    },
    Row {
        words: &["tlsf", "peak", "a.log", "--pool", "64"],
        name: HeapReport::Peak,
        settings: Settings {
            pool: 64,
            ..DEFAULT
        },
        log: "a.log",
    },
    Row {
        words: &["tlsf", "leaks", "--pool", "16", "a.log"],
        name: HeapReport::Leaks,
        settings: Settings {
            pool: 16,
            ..DEFAULT
        },
        log: "a.log",
    },
    Row {
        words: &["tlsf", "leaks", "--pool", "1073741808", "a.log"],
        name: HeapReport::Leaks,
        settings: Settings {
            pool: 1_073_741_808,
            ..DEFAULT
        },
        log: "a.log",
    },
    Row {
        words: &["tlsf", "leaks", "--pools", "1", "a.log"],
        name: HeapReport::Leaks,
        settings: Settings {
            pools: 1,
            ..DEFAULT
        },
        log: "a.log",
    },
    Row {
        words: &["tlsf", "leaks", "--pools", "8", "a.log"],
        name: HeapReport::Leaks,
        settings: Settings {
            pools: 8,
            ..DEFAULT
        },
        log: "a.log",
    },
    Row {
        words: &["tlsf", "leaks", "--records", "1", "a.log"],
        name: HeapReport::Leaks,
        settings: Settings {
            records: 1,
            ..DEFAULT
        },
        log: "a.log",
    },
    Row {
        words: &["tlsf", "leaks", "--records", "65535", "a.log"],
        name: HeapReport::Leaks,
        settings: Settings {
            records: 65_535,
            ..DEFAULT
        },
        log: "a.log",
    },
    Row {
        words: &["tlsf", "leaks", "--", "--pool"],
        name: HeapReport::Leaks,
        settings: DEFAULT,
        log: "--pool",
    },
    Row {
        words: &["", "leaks", "leaks"],
        name: HeapReport::Leaks,
        settings: DEFAULT,
        log: "leaks",
    },
];

#[test]
fn words_that_are_taken(rt: HostRuntime) -> Result<(), Fail> {
    let alloc = rt.alloc();
    for row in &TAKEN {
        let Command::Report {
            name,
            settings,
            log,
        } = command(alloc, strings(alloc, row.words)?.as_slice())?
        else {
            panic!(rt; "no report");
        };
        expect_eq_at(&rt, row.words, name, row.name);
        expect_eq_at(&rt, row.words, settings, row.settings);
        expect_eq_at(&rt, row.words, log.as_str(), row.log);
    }
    Ok(())
}

/// The words of images that are saved and checked.
#[test]
fn words_of_images(rt: HostRuntime) -> Result<(), Fail> {
    let alloc = rt.alloc();
    let words = strings(
        alloc,
        &["tlsf", "save", "--records", "2", "a.log", "an.image"],
    )?;
    let Command::Save {
        settings,
        log,
        image,
    } = command(alloc, words.as_slice())?
    else {
        panic!(rt; "not asked to save");
    };
    expect_eq(
        &rt,
        settings,
        Settings {
            records: 2,
            ..DEFAULT
        },
    );
    expect_eq(&rt, (log.as_str(), image.as_str()), ("a.log", "an.image"));
    let words = strings(alloc, &["tlsf", "check", "-"])?;
    let Command::Image { report, image } = command(alloc, words.as_slice())? else {
        panic!(rt; "not asked to check");
    };
    expect_eq(&rt, (report, image.as_str()), (ImageReport::Check, "-"));
    let words = strings(alloc, &["tlsf", "walk", "--image", "an.image"])?;
    let Command::Image { report, image } = command(alloc, words.as_slice())? else {
        panic!(rt; "not asked to walk");
    };
    expect_eq(
        &rt,
        (report, image.as_str()),
        (ImageReport::Walk, "an.image"),
    );
    Ok(())
}

/// Words that ask for nothing that there is.
const WRONG: [&[&str]; 33] = [
    &[],
    &["tlsf"],
    &["tlsf", "leaks"],
    &["tlsf", "leaks", "a", "b"],
    &["tlsf", "frees", "x"],
    &["tlsf", "Leaks", "a"],
    &["tlsf", "lea", "a"],
    &["tlsf", "--pool", "64", "leaks", "a"],
    &["tlsf", "leaks", "--pool", "a"],
    &["tlsf", "leaks", "--pool", "64", "--pool", "64", "a"],
    &["tlsf", "leaks", "--size", "64", "a"],
    &["tlsf", "leaks", "--pool", "-8", "a"],
    &["tlsf", "leaks", "--pool", "0x40", "a"],
    &["tlsf", "leaks", "--pool=", "a"],
    &["tlsf", "peak", "--pool", "12", "-"],
    &["tlsf", "peak", "--pool", "15", "-"],
    &["tlsf", "peak", "--pool", "1073741809", "-"],
    &["tlsf", "peak", "--pool", "1073741816", "-"],
    &["tlsf", "peak", "--pools", "0", "-"],
    &["tlsf", "peak", "--pools", "9", "-"],
    &["tlsf", "peak", "--records", "0", "-"],
    &["tlsf", "peak", "--records", "65536", "-"],
    &["tlsf", "peak", "--records", "99999999999999999999999", "-"],
    &["tlsf", "timeline"],
    &["tlsf", "timeline", "--points", "0", "a"],
    &["tlsf", "timeline", "--points", "10001", "a"],
    &["tlsf", "timeline", "--points", "-5", "a"],
    &["tlsf", "leaks", "--version"],
    &["tlsf", "save", "a.log"],
    &["tlsf", "save", "a.log", "an.image", "b"],
    &["tlsf", "check"],
    &["tlsf", "check", "an.image", "b"],
    &["tlsf", "check", "--pool", "64", "an.image"],
];

#[test]
fn words_that_are_wrong(rt: HostRuntime) -> Result<(), Fail> {
    let alloc = rt.alloc();
    for words in WRONG {
        let answer = command(alloc, strings(alloc, words)?.as_slice());
        match &answer {
            Err(ToolFault::Usage(text)) => {
                assert!(rt; text.as_str().starts_with("error: "), "{words:?}: {text}");
                assert!(rt;
                    text.as_str().ends_with("try '--help'.\n"),
                    "{words:?}: {text}"
                );
            }
            _ => assert!(rt; false, "{words:?}"),
        }
    }
    Ok(())
}
