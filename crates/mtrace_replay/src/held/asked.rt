//! How many bytes a line asks the heap for, and which class of its lists.

ghost use Rattle.std.specs.Prelude.{◌≡◌, ◌≤◌, if◌then◌else◌};
ghost use Rattle.tlsf_class.specs.Classes.{greatest_size};
ghost use Rattle.mtrace_replay.specs.Asked.{bytes_asked, class_asked, greater_class};
ghost use Rattle.mtrace_replay.specs.Moment.{asked_size, rounded_bytes};

use mtrace_log::{Event, LentLocation, LineFault};
use tlsf_class::round;
use tlsf_heap::class_size;

/// How many bytes are asked of the heap: for a block of no byte it is asked for one byte.
pub(crate) fn asked_size(size: u64) -> u64
    ensures { result ≡ asked_size size }
{
    if size == 0 { 1 } else { size }
}

/// How many bytes the block for this many bytes has; 0 where no block has as many.
pub(crate) fn rounded_bytes(size: u64) -> u64
    ensures value { result ≡ rounded_bytes size }
    ensures small { result ≤ greatest_size }
{
    match round(asked_size(size)) {
        Some(bytes) => u64::from(bytes),
        None => 0,
    }
}

/// The alignment and the bytes that a line asks for: those of no block where it asks for none.
#[derive(Clone, Copy)]
pub(crate) struct Asked {
    align: u64,
    pub(crate) size: u64,
}

impl Asked {
    ghost use Rattle.tlsf_heap.specs.Sizing.{class_size};

    /// What the line asks for.
    #[inline(always)]
    pub(crate) fn of(event: &Result<Event<LentLocation<'_>>, LineFault>) -> Asked
        ensures class { class_size result.align (asked_size result.size) ≡ class_asked event.now }
        ensures size { result.size ≡ bytes_asked event.now }
    {
        match event {
            Ok(Event::Alloc { size, .. } | Event::New { size, .. }) => Asked {
                align: 1,
                size: *size,
            },
            Ok(Event::Aligned { align, size, .. }) => Asked {
                align: align.value(),
                size: *size,
            },
            Ok(
                Event::Start
                | Event::End
                | Event::Free { .. }
                | Event::Old { .. }
                | Event::Failed { .. },
            )
            | Err(_) => Asked { align: 0, size: 0 },
        }
    }

    /// The class size of what is asked for, in bytes. `None` where there is no such class.
    pub(crate) fn class(self) -> Option<u32>
        ensures { result ≡ class_size self.align (asked_size self.size) }
    {
        class_size(self.align, asked_size(self.size))
    }

    /// The greater of a class size and of that which is asked for, in bytes, where the line is served; else the size.
    /// `None` where one of them is missing.
    pub(crate) fn greatest(self, size: Option<u32>, is_served: bool) -> Option<u32>
        ensures { result ≡ (if is_served then greater_class size (class_size self.align (asked_size self.size)) else size) }
    {
        if !is_served {
            return size;
        }
        let asked = self.class()?;
        Some(size?.max(asked))
    }
}
