//! The program tlsf: replays a log of glibc's tracer mtrace(3) and reports memory that was not freed.
#![tactic(auto)]

ghost use Rattle.std.specs.Prelude.{◌≡◌, IfOk};
ghost use Rattle.std.specs.Vec.Iter.{into_iter_items};

mod asked;
mod causes;
mod check;
mod command_line;
mod files;
mod image_file;
mod option_values;
mod plan;
mod progress;
mod run;
mod service;
mod setting_faults;
mod shown;
mod size_words;
mod statuses;
#[cfg(test)]
mod tests;
mod word_faults;
mod words;

use crate::asked::{Command, HeapReport, ImageReport, Rereading, ToolFault};
use crate::causes::Causes;
use crate::check::check_image;
use crate::files::{FileNumber, are_one, make_file};
use crate::plan::{Streams, is_standard, planned};
use crate::run::Run;
use crate::service::{end_run, run_again, serve, serve_help, serve_save};
use crate::setting_faults::{BAD_SETTINGS, tell_bad_bounds, tell_bad_heap, tell_bad_reading};
use mtrace_replay::{
    Bounds, LedgerReport, PartBounds, RunFault, Settings, run_fit_heaps, run_ledger,
    run_ledger_snapshots, run_size, run_size_parts,
};
use std::alloc::Global;
use std::fs::File;
use std::io::{IsTerminal, Read, Seek, Stdin};
use std::process::ExitCode;
use std::{env, io};

/// The line on words that aren't text.
const NOT_TEXT: &str = "tlsf: a word is no text; for more, try 'tlsf --help'\n";

/// The name under which the system tells of the file that is standard input.
const STANDARD_INPUT: &str = "/dev/stdin";

/// The words in a list. To collect them would ask for its memory again where that is refused.
fn listed_words(alloc: Global, all: env::Args<Global>) -> Result<Vec<String>, ToolFault>
    ensures { IfOk result (λ words. words.items ≡ into_iter_items all) }
{
    let mut words = Vec::new(alloc);
    for word in all {
        if words.push(word).is_err() {
            return Err(ToolFault::Run(RunFault::OutOfMemory));
        }
    }
    Ok(words)
}

/// The words, of which the first is the program's name. Words that aren't text are wrong words.
fn asked_words(rt: &HostRuntime) -> Result<Vec<String>, ToolFault> {
    match env::args(rt) {
        Ok(all) => listed_words(rt.alloc(), all),
        Err(fault) if fault.kind() == io::ErrorKind::OutOfMemory => {
            Err(ToolFault::Run(RunFault::OutOfMemory))
        }
        Err(_) => Err(ToolFault::usage(rt.alloc(), NOT_TEXT)),
    }
}

/// A log that is open, or an image, with the name it has for its reader.
#[derive(Drop)]
struct Input<R> {
    file: R,
    number: Option<FileNumber>,
    name: String,
}

/// The file, unless standard output is that file, too.
fn apart<R: Drop>(run: &Run<'_>, input: Input<R>) -> Result<Input<R>, ToolFault> {
    if run.is_output(input.number) {
        return Err(ToolFault::InputIsOutput(input.name));
    }
    Ok(input)
}

/// Opens a file to read it, which this path leads to.
fn open_path(run: &Run<'_>, name: String, is_standard: bool) -> Result<Input<File>, ToolFault> {
    let path = if is_standard {
        run.reads_standard_input();
        STANDARD_INPUT
    } else {
        name.as_str()
    };
    let Ok(file) = run.open(path) else {
        return Err(ToolFault::CannotOpen(name));
    };
    let number = FileNumber::of_file(&file);
    apart(run, Input { file, number, name })
}

/// Standard input, which is open.
fn standard_input(run: &Run<'_>, name: String) -> Result<Input<Stdin>, ToolFault> {
    run.reads_standard_input();
    let file = run.rt.stdin();
    let number = FileNumber::of_name(run.rt, STANDARD_INPUT);
    apart(run, Input { file, number, name })
}

/// Tells that a report on a heap lacks what the heap refused, and which report doesn't.
fn tell_refused(run: &Run<'_>, name: HeapReport, refused: u64) {
    let report = match name {
        HeapReport::Leaks => "leaks",
        HeapReport::Peak => "peak",
        HeapReport::Walk => return,
    };
    if refused > 0 && run.tells_causes() {
        let _ = eprintln!(run.rt;
            "tlsf: {refused} requests were refused by the heap: {report} --no-heap follows each"
        );
    }
}

/// Makes a report of a log that is open.
fn report<R: Read + Drop>(
    run: &Run<'_>,
    name: HeapReport,
    settings: Settings,
    log: Input<R>,
) -> Result<u8, ToolFault> {
    let mut reader = run.reader(log.file);
    let mut errors = run.errors();
    let mut writer = run.output()?;
    let mut refused = 0;
    let status = serve(
        run.rt.alloc(),
        name,
        settings,
        &mut reader,
        &mut writer,
        &mut errors,
        &mut refused,
    );
    tell_bad_heap(run, status, settings);
    let told = run.end(status, log.name.as_str(), "");
    tell_refused(run, name, refused);
    Ok(told)
}

/// Makes a report of a log that is open, without a heap.
fn follow<R: Read + Drop>(
    run: &Run<'_>,
    report: LedgerReport,
    log: Input<R>,
) -> Result<u8, ToolFault> {
    let mut reader = run.reader(log.file);
    let mut errors = run.errors();
    let mut writer = run.output()?;
    let ended = run_ledger(
        run.rt.alloc(),
        run.seed()?,
        &mut reader,
        &mut writer,
        report,
    );
    let status = end_run(&mut errors, ended);
    Ok(run.end(status, log.name.as_str(), ""))
}

/// Makes a report of a log that is open, without a heap, with snapshots meanwhile. Each is put at once.
fn follow_snapshots<R: Read + Drop>(
    run: &Run<'_>,
    report: LedgerReport,
    every: u64,
    log: Input<R>,
) -> Result<u8, ToolFault> {
    let mut reader = run.reader(log.file);
    let mut errors = run.errors();
    let mut writer = run.unbuffered();
    let ended = run_ledger_snapshots(
        run.rt.alloc(),
        run.seed()?,
        &mut reader,
        &mut writer,
        report,
        every,
    );
    let status = end_run(&mut errors, ended);
    Ok(run.end(status, log.name.as_str(), ""))
}

/// Makes a report of a log that is open, without a heap, and snapshots of it where they are asked for.
fn follow_by<R: Read + Drop>(
    run: &Run<'_>,
    report: LedgerReport,
    every: Option<u64>,
    log: Input<R>,
) -> Result<u8, ToolFault> {
    match every {
        Some(every) => follow_snapshots(run, report, every, log),
        None => follow(run, report, log),
    }
}

/// Tells which heaps by size serve a log that is open.
fn parts<R: Read + Drop>(
    run: &Run<'_>,
    front: u64,
    heaps: u32,
    log: Input<R>,
) -> Result<u8, ToolFault> {
    let mut reader = run.reader(log.file);
    let mut errors = run.errors();
    let mut writer = run.output()?;
    let ended = run_fit_heaps(
        run.rt.alloc(),
        run.seed()?,
        &mut reader,
        &mut writer,
        front,
        heaps,
    );
    let status = end_run(&mut errors, ended);
    Ok(run.end(status, log.name.as_str(), ""))
}

/// Opens the file of a log, and reads it more than once.
fn reread(run: &Run<'_>, what: Rereading, log: String) -> Result<u8, ToolFault> {
    let is_standard = is_standard(&log);
    let mut log = open_path(run, log, is_standard)?;
    if log.file.rewind().is_err() {
        return Err(ToolFault::ReadsFileOnce(log.name));
    }
    let mut reader = run.reader(log.file);
    let mut errors = run.errors();
    let mut writer = run.output()?;
    let ended = run_again(
        run.rt.alloc(),
        run.seed()?,
        what,
        &mut reader,
        &mut writer,
        &run.notice,
    );
    let status = end_run(&mut errors, ended);
    tell_bad_reading(run, status, what);
    Ok(run.end_again(status, log.name.as_str()))
}

/// The fault of an image of this name that can't be made.
fn image_fault(error: &io::Error, image: String) -> ToolFault {
    if error.kind() == io::ErrorKind::OutOfMemory {
        return ToolFault::Run(RunFault::OutOfMemory);
    }
    ToolFault::CannotOpen(image)
}

/// Makes the file of an image, unless it is the log's or standard output, and saves to it the heap at the end of a log that
/// is open. Bad settings leave an empty image.
fn save<R: Read + Drop>(
    run: &Run<'_>,
    settings: Settings,
    log: Input<R>,
    image: String,
) -> Result<u8, ToolFault> {
    let number = FileNumber::of_name(run.rt, image.as_str());
    if are_one(log.number, number) {
        run.refuse_image();
        return Err(ToolFault::CannotOpen(image));
    }
    if run.is_output(number) {
        return Err(ToolFault::ImageIsOutput(image));
    }
    let mut writer = run.output()?;
    let mut file = match run.make_image(image.as_str()) {
        Ok(file) => file,
        Err(error) => return Err(image_fault(&error, image)),
    };
    let mut reader = run.reader(log.file);
    let mut errors = run.errors();
    let mut sink = run.image(&mut file);
    let status = serve_save(
        run.rt.alloc(),
        settings,
        &mut reader,
        &mut writer,
        &mut sink,
        &mut errors,
    );
    drop(sink);
    file.leave();
    tell_bad_heap(run, status, settings);
    if status == BAD_SETTINGS {
        let _ = make_file(run.rt, image.as_str());
    }
    Ok(run.end(status, log.name.as_str(), image.as_str()))
}

/// Tells what is asked of an image that is open. One line isn't buffered.
fn tell_image<R: Read + Drop>(
    run: &Run<'_>,
    report: ImageReport,
    image: Input<R>,
) -> Result<u8, ToolFault> {
    let alloc = run.rt.alloc();
    let mut reader = run.reader(image.file);
    let mut errors = run.errors();
    let status = match report {
        ImageReport::Check => {
            check_image(
                alloc,
                report,
                &mut reader,
                &mut run.unbuffered(),
                &mut errors,
            )
        }
        ImageReport::Walk => {
            let mut writer = run.output()?;
            check_image(alloc, report, &mut reader, &mut writer, &mut errors)
        }
    };
    Ok(run.end(status, image.name.as_str(), ""))
}

/// Tells how large a pool is always enough.
fn size(run: &Run<'_>, bounds: Bounds) -> u8 {
    let mut writer = run.unbuffered();
    let mut errors = run.errors();
    let ended = run_size(&mut writer, bounds);
    let status = end_run(&mut errors, ended);
    tell_bad_bounds(run, status, bounds);
    run.end(status, "", "")
}

/// Tells how large a pool is always enough for each of some heaps by size.
fn size_parts(run: &Run<'_>, front: u64, parts: &[PartBounds]) -> u8 {
    let mut writer = run.unbuffered();
    let mut errors = run.errors();
    let ended = run_size_parts(&mut writer, front, parts);
    let status = end_run(&mut errors, ended);
    run.end(status, "", "")
}

/// Makes a report of a log, which is opened first where it is a file.
fn report_log(
    run: &Run<'_>,
    name: HeapReport,
    settings: Settings,
    log: String,
) -> Result<u8, ToolFault> {
    if is_standard(&log) {
        return report(run, name, settings, standard_input(run, log)?);
    }
    report(run, name, settings, open_path(run, log, false)?)
}

/// Makes a report of a log without a heap. The log is opened first where it is a file.
fn follow_log(
    run: &Run<'_>,
    report: LedgerReport,
    every: Option<u64>,
    log: String,
) -> Result<u8, ToolFault> {
    if is_standard(&log) {
        return follow_by(run, report, every, standard_input(run, log)?);
    }
    follow_by(run, report, every, open_path(run, log, false)?)
}

/// Tells which heaps by size serve a log, which is opened first where it is a file.
fn parts_log(run: &Run<'_>, front: u64, heaps: u32, log: String) -> Result<u8, ToolFault> {
    if is_standard(&log) {
        return parts(run, front, heaps, standard_input(run, log)?);
    }
    parts(run, front, heaps, open_path(run, log, false)?)
}

/// Tells what is asked of an image, which is opened first where it is a file.
fn tell_image_file(run: &Run<'_>, report: ImageReport, image: String) -> Result<u8, ToolFault> {
    if report == ImageReport::Walk && is_standard(&image) {
        return tell_image(run, report, standard_input(run, image)?);
    }
    tell_image(run, report, open_path(run, image, false)?)
}

/// Saves the heap at the end of a log, which is opened first where it is a file.
fn save_log(
    run: &Run<'_>,
    settings: Settings,
    log: String,
    image: String,
) -> Result<u8, ToolFault> {
    if is_standard(&log) {
        return save(run, settings, standard_input(run, log)?, image);
    }
    save(run, settings, open_path(run, log, false)?, image)
}

/// Does what is planned.
fn act(run: &Run<'_>, command: Command) -> Result<u8, ToolFault> {
    match command {
        Command::Report {
            name,
            settings,
            log,
        } => report_log(run, name, settings, log),
        Command::Ledger { report, every, log } => follow_log(run, report, every, log),
        Command::Parts { front, heaps, log } => parts_log(run, front, heaps, log),
        Command::Reread { what, log } => reread(run, what, log),
        Command::Save {
            settings,
            log,
            image,
        } => save_log(run, settings, log, image),
        Command::Size { bounds } => Ok(size(run, bounds)),
        Command::SizeParts { front, parts } => Ok(size_parts(run, front, parts.as_slice())),
        Command::Image { report, image } => tell_image_file(run, report, image),
    }
}

/// Does what the words ask for.
fn run_words(rt: &HostRuntime, causes: &Causes) -> Result<u8, ToolFault> {
    let words = asked_words(rt)?;
    let streams = Streams {
        typed: rt.stdin().is_terminal(),
        again: FileNumber::of_regular(rt, STANDARD_INPUT).is_some(),
        shown: rt.stderr().is_terminal(),
    };
    let plan = planned(rt.alloc(), words.as_slice(), streams)?;
    act(&Run::new(rt, plan.notice, causes), plan.command)
}

/// Tells a fault: help on standard output, any other on standard error, and why a file can't be opened. Answers the status that
/// the program ends with.
fn tell(rt: &HostRuntime, causes: &Causes, fault: &ToolFault) -> u8 {
    let run = Run::new(rt, false, causes);
    match fault {
        ToolFault::Help(text) => {
            let status = serve_help(text.as_str(), &mut run.unbuffered(), &mut run.errors());
            return run.end(status, "", "");
        }
        ToolFault::Usage(text) => {
            let _ = eprint!(rt; "{text}");
        }
        _ => {
            let _ = eprintln!(rt; "{fault}");
        }
    }
    match fault {
        ToolFault::CannotOpen(name) => run.tell_cause(name.as_str(), name.as_str()),
        ToolFault::NoRandomBytes => run.tell_cause("", ""),
        _ => {}
    }
    fault.status()
}

fn main(rt: HostRuntime) -> ExitCode {
    let causes = Causes::new();
    let status = match run_words(&rt, &causes) {
        Ok(status) => status,
        Err(fault) => tell(&rt, &causes, &fault),
    };
    ExitCode::from(status)
}
