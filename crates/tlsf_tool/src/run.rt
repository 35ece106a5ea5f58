//! The streams of a run, and what is told of their failures.

use crate::asked::ToolFault;
use crate::causes::{Causes, Noted, keep};
use crate::files::{FileNumber, are_one, open_file};
use crate::image_file::ImageFile;
use crate::progress::{Cleared, Counted, Notice};
use crate::shown::Shown;
use mtrace_log::{FromRead, ToWrite};
use mtrace_replay::RunFault;
use std::fs::File;
use std::hash::RandomState;
use std::io::{BufWriter, IsTerminal, Read, Stderr, Stdout, Write};
use std::{env, io};

/// The status where a file can't be read or written.
const FILE_FAILED: u8 = 3;

/// Where this variable of the environment is 1, the cause of a fault is told wherever standard error goes.
const TELL_CAUSES: &str = "TLSF_CAUSES";

/// The name under which the system tells of the file that is standard output.
const STANDARD_OUTPUT: &str = "/dev/stdout";

/// What is buffered for standard output.
pub(crate) type Output<'a> = ToWrite<BufWriter<Cleared<'a, Noted<'a, Stdout>>>>;

/// One run of the program.
#[derive(Drop)]
pub(crate) struct Run<'a> {
    /// The system.
    pub rt: &'a HostRuntime,
    /// Where it is told how far the run is.
    pub notice: Notice<'a>,
    causes: &'a Causes,
}

impl<'a> Run<'a> {
    /// A run that begins now.
    pub fn new(rt: &'a HostRuntime, is_told: bool, causes: &'a Causes) -> Run<'a> {
        Run {
            rt,
            notice: Notice::new(rt, is_told),
            causes,
        }
    }

    /// A seed by random bytes of the system, for the maps of addresses and locations: so no log can be made to slow them.
    ///
    /// # Errors
    ///
    /// `NoRandomBytes` where the system gives none.
    pub fn seed(&self) -> Result<RandomState, ToolFault> {
        let seed = RandomState::new(self.rt);
        keep(&self.causes.random, &seed);
        match seed {
            Ok(seed) => Ok(seed),
            Err(_) => Err(ToolFault::NoRandomBytes),
        }
    }

    /// A file that is read.
    pub fn reader<R: Read>(&self, file: R) -> FromRead<Counted<'_, Noted<'_, R>>> {
        FromRead::new(Counted::new(&self.notice, Noted::new(&self.causes.input, file)))
    }

    /// Standard output, buffered, where a notice is cleared first.
    pub fn output(&self) -> Result<Output<'_>, ToolFault> {
        let writer = Noted::new(&self.causes.output, self.rt.stdout());
        match BufWriter::new(self.rt.alloc(), Cleared::new(&self.notice, writer)) {
            Ok(writer) => Ok(ToWrite::new(writer)),
            Err(_) => Err(ToolFault::Run(RunFault::OutOfMemory)),
        }
    }

    /// Standard output, each text at once.
    pub fn unbuffered(&self) -> ToWrite<Noted<'_, Stdout>> {
        ToWrite::new(Noted::new(&self.causes.output, self.rt.stdout()))
    }

    /// The file of an image that is written.
    pub fn image<W: Write>(&self, file: W) -> ToWrite<Noted<'_, W>> {
        ToWrite::new(Noted::new(&self.causes.image, file))
    }

    /// Standard error, where a notice is cleared first.
    pub fn errors(&self) -> ToWrite<Cleared<'_, Stderr>> {
        ToWrite::new(Cleared::new(&self.notice, self.rt.stderr()))
    }

    /// Opens a file to read it.
    pub fn open(&self, path: &str) -> io::Result<File> {
        let answer = open_file(self.rt, path);
        keep(&self.causes.input, &answer);
        answer
    }

    /// Keeps that standard input is read.
    pub fn reads_standard_input(&self) {
        self.causes.is_standard.set(true);
    }

    /// Keeps that an image can't be made where its log is.
    pub fn refuse_image(&self) {
        let answer: io::Result<()> = Err(io::Error::other("image file is input file"));
        keep(&self.causes.image, &answer);
    }

    /// Makes the file of an image.
    pub fn make_image(&self, name: &str) -> io::Result<ImageFile<'_>> {
        let answer = ImageFile::make(self.rt, name);
        keep(&self.causes.image, &answer);
        answer
    }

    /// Whether standard output is this file.
    pub fn is_output(&self, file: Option<FileNumber>) -> bool {
        are_one(file, FileNumber::of_regular(self.rt, STANDARD_OUTPUT))
    }

    /// Whether the cause of a fault is told behind its line: on a terminal, or where it is asked for. Elsewhere the line stands
    /// alone.
    pub fn tells_causes(&self) -> bool {
        self.rt.stderr().is_terminal()
            || matches!(env::var(self.rt, TELL_CAUSES), Ok(told) if told.as_str() == "1")
    }

    /// Tells which file failed, and why, where causes are told.
    pub fn tell_cause(&self, input: &str, image: &str) {
        if self.tells_causes() {
            let _ = self.causes.tell(self.rt, input, image);
        }
    }

    /// Ends a run of this status: where a file failed, tells which one, and why.
    pub fn end(&self, status: u8, input: &str, image: &str) -> u8 {
        if status == FILE_FAILED {
            self.tell_cause(input, image);
        }
        status
    }

    /// Ends a run that read its log more than once. Where a file failed, it tells which one, and why; where no call failed, that the
    /// log has fewer lines than at first.
    pub fn end_again(&self, status: u8, log: &str) -> u8 {
        if status == FILE_FAILED && self.tells_causes() && !self.causes.tell(self.rt, log, "") {
            let log = Shown(log);
            let _ = eprintln!(self.rt; "tlsf: {log} has fewer lines than when it was read first");
        }
        status
    }
}
