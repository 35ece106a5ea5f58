ghost use Rattle.std.specs.Prelude.{◌≡◌, ◌⊎◌};
ghost use Rattle.tlsf_tool.specs.Faults.{IsUsage};
ghost use Rattle.tlsf_tool.specs.Statuses.{status_of_fault};

use crate::shown::Shown;
use crate::statuses::fault_status;
use mtrace_replay::{Bounds, LedgerReport, PartBounds, RunFault, Settings};
use std::alloc::Global;
use thiserror::Error;

/// The reports of a log that is replayed on a heap.
#[derive(Clone, Copy, Debug, PartialEq, Eq)]
pub enum HeapReport {
    /// The report of leaks.
    Leaks,
    /// The report of the peak.
    Peak,
    /// The report of the heap's walk.
    Walk,
}

/// The reports of an image. Each tells the first rule that it breaks, where it breaks one.
#[derive(Clone, Copy, Debug, PartialEq, Eq)]
pub enum ImageReport {
    /// Whether it can be loaded.
    Check,
    /// The pools of its heap, each with its blocks.
    Walk,
}

/// What reads its log more than once.
#[derive(Clone, Copy, Debug, PartialEq, Eq)]
pub enum Rereading {
    /// Who holds the memory of the log, on a heap by the settings. It reads the log twice.
    Sites(Settings),
    /// What is held over the lines of the log. It reads the log twice.
    Timeline {
        /// The heap that the log is replayed on, where one is asked for.
        heap: Option<Settings>,
        /// In how many equal stretches the log is cut.
        stretches: u32,
    },
    /// What each location holds over the lines of the log, which is cut in this many equal stretches. It reads the log twice.
    SiteTimeline(u32),
    /// How large a pool the log needs. It reads the log once, and then once for each size.
    Fit {
        /// How many bytes more each request has.
        front: u64,
        /// The bytes between two sizes, where they are given.
        step: Option<u64>,
    },
}

/// What the words ask for.
#[derive(Debug, Drop, PartialEq, Eq)]
pub enum Command {
    /// A report of a log.
    Report {
        /// Which report.
        name: HeapReport,
        /// The heap that the log is replayed on.
        settings: Settings,
        /// The log's name, `-` for standard input.
        log: String,
    },
    /// A report of a log that no heap is asked for.
    Ledger {
        /// Which report.
        report: LedgerReport,
        /// How many milliseconds apart its snapshots are, where some are asked for.
        every: Option<u64>,
        /// The log's name, `-` for standard input.
        log: String,
    },
    /// Which heaps by size serve a log.
    Parts {
        /// How many bytes more each request has.
        front: u64,
        /// How many there are at most.
        heaps: u32,
        /// The log's name, `-` for standard input.
        log: String,
    },
    /// What reads its log more than once.
    Reread {
        /// What it is.
        what: Rereading,
        /// The log's name.
        log: String,
    },
    /// How large a pool is always enough, without a log.
    Size {
        /// What the program keeps to.
        bounds: Bounds,
    },
    /// How large a pool is always enough for heaps by size, without a log.
    SizeParts {
        /// How many bytes more each request has.
        front: u64,
        /// What each heap serves.
        parts: Vec<PartBounds>,
    },
    /// An image of the heap at the end of a log.
    Save {
        /// The heap that the log is replayed on.
        settings: Settings,
        /// The log's name, `-` for standard input.
        log: String,
        /// The image's name.
        image: String,
    },
    /// What is told of an image.
    Image {
        /// Which report.
        report: ImageReport,
        /// The image's name.
        image: String,
    },
}

/// Why the program doesn't end with what was asked.
#[derive(Debug, Drop, Error)]
pub enum ToolFault {
    /// The words ask for help or for the version; this is it.
    #[error("{0}")]
    Help(String),
    /// The words ask for nothing that there is; the text says why, and how to ask.
    #[error("{0}")]
    Usage(String),
    /// The file of this name can't be opened or made.
    #[error("tlsf: cannot open {}", Shown(.0.as_str()))]
    CannotOpen(String),
    /// The file of this name is to be read, and is standard output.
    #[error("tlsf: {}: input file is output file", Shown(.0.as_str()))]
    InputIsOutput(String),
    /// The file of this name is to get an image, and is standard output.
    #[error("tlsf: {}: image file is output file", Shown(.0.as_str()))]
    ImageIsOutput(String),
    /// The file of this name has to be read more than once, and can't, as a pipe.
    #[error("tlsf: {} can't be read twice", Shown(.0.as_str()))]
    ReadsFileOnce(String),
    /// A log that has to be read more than once is to come from standard input.
    #[error("tlsf: standard input can't be read twice")]
    ReadsOnce,
    /// The system gives no random bytes.
    #[error("tlsf: read failed")]
    NoRandomBytes,
    /// The run ended early.
    #[error("tlsf: {0}")]
    Run(RunFault),
}

impl ToolFault {
    /// The fault of words that ask for nothing that there is, or `Run` of `OutOfMemory` where memory is
    /// refused for its text.
    pub fn usage(alloc: Global, text: &str) -> ToolFault
        ensures { IsUsage result ⊎ (result ≡ ToolFault.Run RunFault.OutOfMemory) }
    {
        match String::from_str(alloc, text) {
            Ok(text) => ToolFault::Usage(text),
            Err(_) => ToolFault::Run(RunFault::OutOfMemory),
        }
    }

    /// The status that the program ends with: 0 for help and the version, 2 for words or settings, 3 for
    /// files, 4 for memory. A log that can be read once alone is a wrong word.
    pub fn status(&self) -> u8
        ensures { result ≡ status_of_fault self.now }
    {
        match self {
            ToolFault::Help(_) => 0,
            ToolFault::Usage(_) | ToolFault::ReadsOnce | ToolFault::ReadsFileOnce(_) => 2,
            ToolFault::CannotOpen(_)
            | ToolFault::InputIsOutput(_)
            | ToolFault::ImageIsOutput(_)
            | ToolFault::NoRandomBytes => 3,
            ToolFault::Run(fault) => fault_status(*fault),
        }
    }
}
