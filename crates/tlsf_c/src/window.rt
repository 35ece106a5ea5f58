//! A writer into bytes that a C program hands in.

ghost use Rattle.std.specs.Prelude.{◌≡◌, ◌≢◌, ◌-◌, ◌≤◌, ◌∷◌, List, length, min, take, drop, nat_le};
ghost use Rattle.mtrace_log.specs.declared.call.Call.{Call};
ghost use Rattle.mtrace_log.specs.declared.call.Call.TheVariants.{Failed};
ghost use Rattle.tlsf_c.specs.Room.{put_over};

use crate::room::put_bytes;
use crate::window_trace::WindowTrace;
use mtrace_log::{Call, Failed, Sink};

/// A writer into bytes that are lent to it. It takes all that it is offered, and keeps as much as there is room for.
///
/// It was told the bytes that stood in the room, and then those that were put.
#[derive(Drop)]
pub(crate) struct Window<'a> {
    pub(crate) room: &'a mut [u8],
    pub(crate) end: usize,
    pub(crate) fits: bool,
    pub(crate) trace: WindowTrace,
    ghost told_room: { length room.now ≤ length trace.bytes },
    ghost kept: { room.now ≡ put_over (drop (length room.now) trace.bytes) (take (length room.now) trace.bytes) },
    ghost ends: { end ≡ min (length trace.bytes - length room.now) (length room.now) },
    ghost all: { fits ≡ nat_le (length trace.bytes - length room.now) (length room.now) },
    ghost served: { (calls : List Call) → trace.calls ≢ Failed ∷ calls },
}

impl<'a> Window<'a> {
    ghost use Rattle.std.specs.Prelude.{◌≡◌, length};

    /// The writer into these bytes.
    pub(crate) fn over(room: &'a mut [u8]) -> Window<'a>
        ensures lent { result.room.ghost_name ≡ room.entry.ghost_name }
        ensures room { result.room.now ≡ room.old }
        ensures told { result.trace.bytes ≡ room.old }
    {
        let mut trace = WindowTrace::new();
        trace.add(&Call::Flushed, room);
        Window {
            room,
            end: 0,
            fits: true,
            trace,
        }
    }
}

impl<'a> Sink for Window<'a> {
    ghost use Rattle.tlsf_c.specs.Window.{shown};

    ghost shown = { shown };

    fn put(&mut self, bytes: &[u8]) -> Result<usize, Failed> {
        let start = self.end;
        let left = self.room.len() - start;
        put_bytes(self.room, start, bytes);
        self.end = start + bytes.len().min(left);
        self.fits = self.fits && bytes.len() <= left;
        self.trace.add(&Call::Took(bytes.len()), bytes);
        Ok(bytes.len())
    }

    fn flush(&mut self) -> Result<(), Failed> {
        self.trace.add(&Call::Flushed, &[]);
        Ok(())
    }
}
