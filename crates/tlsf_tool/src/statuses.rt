//! The exit statuses of runs.

ghost use Rattle.std.specs.Prelude.{◌≡◌};
ghost use Rattle.tlsf_tool.specs.Statuses.{status_of_end, status_of_run_fault};

use mtrace_replay::{RunFault, Status};

/// The status of a run that read its log to the end: 0 where nothing was found, 1 where something was.
pub fn end_status(status: Status) -> u8
    ensures { result ≡ status_of_end status }
{
    match status {
        Status::Clean => 0,
        Status::Found => 1,
    }
}

/// The status of a run that ended early: 2 for bad settings, 3 for the reader or a writer, 4 for memory.
pub fn fault_status(fault: RunFault) -> u8
    ensures { result ≡ status_of_run_fault fault }
{
    match fault {
        RunFault::BadSettings => 2,
        RunFault::Read | RunFault::Write | RunFault::Image => 3,
        RunFault::OutOfMemory => 4,
    }
}
