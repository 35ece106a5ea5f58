//! A replay of a log over a heap that keeps bytes in front of each block: each request is larger by this front.

ghost use Rattle.std.specs.Prelude.{◌≡◌};
ghost use Rattle.mtrace_replay.specs.Fronted.{fronted_line};

use crate::held::findings::Findings;
use crate::runs::line_replay::{LineReplay, TellFault};
use mtrace_log::{Event, LentLocation, LineFault, Sink};
use std::alloc::AllocError;

/// What a line says, with `front` bytes added to the size of its request, which is at most 2^64 - 1.
#[inline(always)]
fn with_front(
    event: Result<Event<LentLocation<'_>>, LineFault>,
    front: u64,
) -> Result<Event<LentLocation<'_>>, LineFault>
    ensures { result ≡ fronted_line front event.entry }
{
    match event {
        Ok(Event::Alloc { at, addr, size }) => {
            let size = size.saturating_add(front);
            Ok(Event::Alloc { at, addr, size })
        }
        Ok(
            Event::Aligned {
                at,
                addr,
                align,
                size,
            },
        ) => {
            let size = size.saturating_add(front);
            Ok(Event::Aligned {
                at,
                addr,
                align,
                size,
            })
        }
        Ok(Event::New { at, addr, size }) => {
            let size = size.saturating_add(front);
            Ok(Event::New { at, addr, size })
        }
        other => other,
    }
}

/// A replay that adds the front to each request, and hands it to another replay.
#[derive(Drop)]
pub(crate) struct Fronted<P> {
    pub(crate) replay: P,
    /// How many bytes more each request has.
    pub(crate) front: u64,
}

impl<P: LineReplay> LineReplay for Fronted<P> {
    ghost use Rattle.mtrace_replay.specs.Fronted.{fronted_rules};

    ghost rules = { fronted_rules P.rules };

    #[inline(always)]
    fn lines(&self) -> u64 {
        self.replay.lines()
    }

    #[inline(always)]
    fn take_line(
        &mut self,
        number: u64,
        event: Result<Event<LentLocation<'_>>, LineFault>,
        findings: &mut Findings,
    ) -> Result<(), AllocError> {
        self.replay
            .take_line(number, with_front(event, self.front), findings)
    }

    #[inline(always)]
    fn tell_line<W: Sink>(
        &self,
        writer: &mut W,
        findings: &mut Findings,
    ) -> Result<bool, TellFault> {
        self.replay.tell_line(writer, findings)
    }
}
