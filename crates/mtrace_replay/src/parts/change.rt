//! What a line releases, and what it asks for.

ghost use Rattle.std.specs.Prelude.{◌≡◌, true, false, if◌then◌else◌};
ghost use Rattle.mtrace_replay.specs.Asked.{class_asked};
ghost use Rattle.mtrace_replay.specs.Spans.{released_by, address_asked, block_asked};

use super::spans::Block;
use crate::held::asked::Asked;
use mtrace_log::{Addr, Event, LentLocation, LineFault};

/// What a line releases where it is served, and where it isn't. The address that it asks for, and the class size.
#[derive(Clone, Copy)]
pub(crate) struct Change {
    // Of a line `>`, the address of the line before.
    moved: Option<Addr>,
    freed: Option<Addr>,
    address: Option<Addr>,
    // `None` where the request has no class.
    size: Option<u32>,
}

impl Change {
    /// What the line does, behind a line that is `<` for the address `pending`, or not.
    pub(crate) fn of(
        event: &Result<Event<LentLocation<'_>>, LineFault>,
        pending: Option<Addr>,
    ) -> Change
        ensures moved { result.moved ≡ released_by event.now pending true }
        ensures freed { result.freed ≡ released_by event.now pending false }
        ensures address { result.address ≡ address_asked event.now }
        ensures size { result.size ≡ class_asked event.now }
    {
        let size = Asked::of(event).class();
        let (moved, freed, address) = match event {
            Ok(Event::Free { addr, .. }) => (Some(*addr), Some(*addr), None),
            Ok(Event::Alloc { addr, .. }) => (None, None, *addr),
            Ok(Event::Aligned { addr, .. }) => (None, None, Some(*addr)),
            Ok(Event::New { addr, .. }) => (pending, None, Some(*addr)),
            Ok(Event::Start | Event::End | Event::Old { .. } | Event::Failed { .. }) | Err(_) => {
                (None, None, None)
            }
        };
        Change {
            moved,
            freed,
            address,
            size,
        }
    }

    /// The address that is released, by whether the line is served.
    pub(crate) fn released(&self, is_served: bool) -> Option<Addr>
        ensures { result ≡ (if is_served then self.now.moved else self.now.freed) }
    {
        if is_served { self.moved } else { self.freed }
    }

    /// The block that the line is given, where it is served. `None` where its request has no class.
    pub(crate) fn block(&self) -> Option<Block>
        ensures { result ≡ block_asked self.now.address self.now.size }
    {
        Some(Block {
            address: self.address?,
            size: self.size?,
        })
    }
}
