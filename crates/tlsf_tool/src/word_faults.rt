//! How wrong words are told. What was ordered first is told by clap: the commands leaks, peak, walk, save and check, and the
//! options of a heap. A number for another option is told by what that takes, and an option by the commands that have it.

use crate::command_line::tlsf_command;
use crate::shown::Shown;
use clap::Error;
use std::alloc::{AllocError, Global};

/// An option that takes a number.
struct NumberOption {
    name: &'static str,
    /// The option with its value, as clap shows it.
    shown: &'static str,
    /// The commands that have it.
    commands: &'static str,
    /// What it takes, and an example; none where clap tells it.
    takes: Option<(&'static str, &'static str)>,
}

/// The commands with the options of a heap.
const OF_A_HEAP: &str = "leaks, peak, walk, sites, timeline and save";

static OPTIONS: [NumberOption; 12] = [
    NumberOption {
        name: "--pool",
        shown: "--pool <BYTES>",
        commands: OF_A_HEAP,
        takes: None,
    },
    NumberOption {
        name: "--pools",
        shown: "--pools <K>",
        commands: OF_A_HEAP,
        takes: None,
    },
    NumberOption {
        name: "--records",
        shown: "--records <N>",
        commands: OF_A_HEAP,
        takes: None,
    },
    NumberOption {
        name: "--points",
        shown: "--points <N>",
        commands: "timeline",
        takes: Some(("a whole number from 1 to 10000", "100")),
    },
    NumberOption {
        name: "--step",
        shown: "--step <BYTES>",
        commands: "fit",
        takes: Some(("a multiple of 16 from 16 to 1073741808", "4096")),
    },
    NumberOption {
        name: "--heaps",
        shown: "--heaps <K>",
        commands: "fit",
        takes: Some(("a whole number from 1 to 8", "4")),
    },
    NumberOption {
        name: "--front",
        shown: "--front <BYTES>",
        commands: "fit and size",
        takes: Some(("a whole number from 0 to 1073741808", "8")),
    },
    NumberOption {
        name: "--every",
        shown: "--every <MS>",
        commands: "leaks, peak and sites",
        takes: Some(("a whole number from 1 to 4294967295", "60000")),
    },
    NumberOption {
        name: "--blocks",
        shown: "--blocks <L>",
        commands: "size",
        takes: Some(("a whole number from 1 to 32766", "60")),
    },
    NumberOption {
        name: "--largest",
        shown: "--largest <M>",
        commands: "size",
        takes: Some(("a whole number from 1 to 1056964608", "1040")),
    },
    NumberOption {
        name: "--bytes",
        shown: "--bytes <U>",
        commands: "size",
        takes: Some(("a whole number from 1 to 1073741808", "20480")),
    },
    NumberOption {
        name: "--align",
        shown: "--align <A>",
        commands: "size",
        takes: Some(("a power of two from 1 to 536870912", "64")),
    },
];

/// The options that take no value, each with the commands that have it.
static FLAGS: [(&str, &str); 2] = [("--no-heap", "leaks and peak"), ("--calls", "sites")];

/// The option of this name that takes a number.
fn option_of(name: &str) -> Option<&'static NumberOption> {
    OPTIONS.iter().find(|option| option.name == name)
}

/// Whether clap tells the command's wrong words: it was ordered first.
fn is_told_by_clap(command: &str) -> bool {
    matches!(command, "leaks" | "peak" | "walk" | "save" | "check")
}

/// Whether this is a command whose wrong words clap doesn't tell.
fn is_told_here(command: &str) -> bool {
    matches!(command, "sites" | "timeline" | "fit" | "size")
}

/// Whether the word is a number behind a minus sign.
fn is_signed(word: &str) -> bool {
    match word.strip_prefix('-') {
        Some(digits) => !digits.is_empty() && digits.bytes().all(|byte| byte.is_ascii_digit()),
        None => false,
    }
}

/// The words with a number behind a minus sign as its option's value, as in `--pool=-16`. Alone clap takes it for an option.
/// There are none where no such number stands in front of `--`.
fn with_signed_values(alloc: Global, words: &[String]) -> Result<Option<Vec<String>>, AllocError> {
    let mut all: Vec<String> = Vec::new(alloc);
    let mut found = false;
    let mut option = "";
    let mut is_over = false;
    for word in words {
        let word = word.as_str();
        is_over = is_over || word == "--";
        if !is_over && option_of(option).is_some() && is_signed(word) {
            let _ = all.pop();
            all.push(format!(in alloc; "{option}={word}")?)?;
            found = true;
        } else {
            all.push(String::from_str(alloc, word)?)?;
        }
        option = word;
    }
    Ok(if found { Some(all) } else { None })
}

/// The text of clap's error, where that isn't help.
fn text_of_error(alloc: Global, error: &Error) -> Result<Option<String>, AllocError> {
    if !error.use_stderr() {
        return Ok(None);
    }
    let text = error.to_string(alloc)?;
    Ok(Some(text))
}

/// The text of clap for wrong words, with its signed values joined to their options.
fn text_of_words(alloc: Global, words: &[String]) -> Result<Option<String>, AllocError> {
    let line = tlsf_command(alloc)?;
    match line.try_get_matches_from(words) {
        Ok(_matches) => Ok(None),
        Err(error) => text_of_error(alloc, &error),
    }
}

/// The value that clap refuses for an option, by its text.
fn refused_value<'a>(
    alloc: Global,
    text: &'a str,
    shown: &str,
) -> Result<Option<&'a str>, AllocError> {
    let behind = format!(in alloc; "' for '{shown}': ")?;
    let missing = format!(in alloc; "error: a value is required for '{shown}' but")?;
    if text.starts_with(missing.as_str()) {
        return Ok(Some("nothing"));
    }
    match text.strip_prefix("error: invalid value '") {
        Some(rest) => Ok(rest.split_once(behind.as_str()).map(|(value, _)| value)),
        None => Ok(None),
    }
}

/// What an option takes, where it is refused a value by clap's text, and clap doesn't tell it.
fn number_text(alloc: Global, text: &str) -> Result<Option<String>, AllocError> {
    for option in &OPTIONS {
        let Some((takes, example)) = option.takes else {
            continue;
        };
        if let Some(value) = refused_value(alloc, text, option.shown)? {
            let (name, value) = (option.name, Shown(value));
            return Ok(Some(format!(in alloc;
                "error: {name}: {takes}, not {value}; for example {name} {example}\n\nFor more information, try '--help'.\n"
            )?));
        }
    }
    Ok(None)
}

/// The commands that have an option of this name, which this command doesn't have, where clap doesn't tell that.
fn commands_of(name: &str, command: &str) -> Option<&'static str> {
    let flag = FLAGS.iter().find(|flag| flag.0 == name);
    let (commands, is_later) = match flag {
        Some(flag) => (flag.1, true),
        None => {
            let option = option_of(name)?;
            (option.commands, option.takes.is_some())
        }
    };
    if is_told_here(command) || (is_later && is_told_by_clap(command)) {
        return Some(commands);
    }
    None
}

/// Which commands have an option, where clap's text says that the command of these words has none of this name.
fn option_text(alloc: Global, words: &[String], text: &str) -> Result<Option<String>, AllocError> {
    let Some(rest) = text.strip_prefix("error: unexpected argument '") else {
        return Ok(None);
    };
    let (Some((name, _)), Some(command)) = (rest.split_once("' found"), words.get(1)) else {
        return Ok(None);
    };
    let command = command.as_str();
    let Some(commands) = commands_of(name, command) else {
        return Ok(None);
    };
    Ok(Some(format!(in alloc;
        "error: {command} has no option {name}; it is an option of {commands}\n\nFor more information, try '--help'.\n"
    )?))
}

/// How wrong words are told, of which clap says this. There is nothing where that text stands.
pub(crate) fn told_text(
    alloc: Global,
    words: &[String],
    text: &str,
) -> Result<Option<String>, AllocError> {
    if let Some(told) = option_text(alloc, words, text)? {
        return Ok(Some(told));
    }
    let signed = match with_signed_values(alloc, words)? {
        Some(words) if text.starts_with("error: unexpected argument '-") => {
            text_of_words(alloc, words.as_slice())?
        }
        _ => None,
    };
    let Some(signed) = signed else {
        return number_text(alloc, text);
    };
    match number_text(alloc, signed.as_str())? {
        Some(told) => Ok(Some(told)),
        None => Ok(Some(signed)),
    }
}
