//! What the program does for its words, and whether it tells how far it is.

ghost use Rattle.std.specs.Prelude.{◌≡◌};
ghost use Rattle.tlsf_tool.specs.Plan.{is_dash, is_told, PlansFor};

use crate::asked::{Command, ToolFault};
use crate::words::command;
use std::alloc::Global;

/// What the standard streams are.
#[derive(Clone, Copy, Debug, PartialEq, Eq)]
pub struct Streams {
    /// Whether standard input is a terminal.
    pub typed: bool,
    /// Whether standard input is a file, which can be read more than once.
    pub again: bool,
    /// Whether standard error is a terminal.
    pub shown: bool,
}

/// What the program does.
#[derive(Debug, Drop, PartialEq, Eq)]
pub struct Plan {
    /// What the words ask for.
    pub command: Command,
    /// Whether it is told how far the run is.
    pub notice: bool,
}

/// Whether the log of this name is standard input.
pub fn is_standard(log: &String) -> bool
    ensures { result ≡ is_dash log.now }
{
    log.as_str() == "-"
}

/// Whether it is told how far a run of this command is. It is where a log is read and standard error is a terminal, but
/// not of a log that is typed, as the terminal shows what is typed.
fn is_told(streams: Streams, command: &Command) -> bool
    ensures { result ≡ is_told streams command.now }
{
    match command {
        Command::Report { log, .. }
        | Command::Ledger {
            every: None,
            log,
            ..
        }
        | Command::Parts { log, .. }
        | Command::Save { log, .. } => streams.shown && !(streams.typed && is_standard(log)),
        Command::Reread { .. } => streams.shown,
        Command::Ledger { every: Some(_), .. }
        | Command::Size { .. }
        | Command::SizeParts { .. }
        | Command::Image { .. } => false,
    }
}

/// What the program does for these words, of which the first is its name, with these streams.
///
/// # Errors
///
/// Those of `command`; `ReadsOnce` exactly where the words ask to read standard input more than once, and it is no file.
pub fn planned(alloc: Global, words: &[String], streams: Streams) -> Result<Plan, ToolFault>
    ensures { PlansFor words.now streams result }
{
    let command = command(alloc, words)?;
    if matches!(&command, Command::Reread { log, .. } if is_standard(log) && !streams.again) {
        return Err(ToolFault::ReadsOnce);
    }
    let notice = is_told(streams, &command);
    Ok(Plan { command, notice })
}
