use thiserror::Error;

/// How a run ended that read its log to the end.
#[derive(Clone, Copy, Debug, PartialEq, Eq)]
pub enum Status {
    /// No address is held at the end, and no diagnostic was written.
    Clean,
    /// An address is held at the end, or a diagnostic was written.
    Found,
}

/// Why a run ended early.
#[derive(Clone, Copy, Debug, PartialEq, Eq, Error)]
pub enum RunFault {
    /// The reader failed, or the log has more lines than there are numbers.
    #[error("read failed")]
    Read = 1,
    /// The writer failed.
    #[error("write failed")]
    Write = 2,
    /// Memory was refused.
    #[error("out of memory")]
    OutOfMemory = 3,
    /// No heap can be made by the settings.
    #[error("bad settings")]
    BadSettings = 4,
    /// The writer of the image failed.
    #[error("write failed")]
    Image = 5,
}

const _: () = prove!(
    RunFault::Read as u32 == 1
        && RunFault::Write as u32 == 2
        && RunFault::OutOfMemory as u32 == 3
        && RunFault::BadSettings as u32 == 4
        && RunFault::Image as u32 == 5
);
