//! A store, or the words of one, as its image tells it.

ghost use Rattle.std.specs.Prelude.{◌≡◌};
ghost use Rattle.tlsf_heap.specs.Images.Described.{told_record};

use super::{HasSections, VACANT};
use tlsf_class::Class;
use tlsf_store::{KeptWords, Pool, Record, Slot, State, Store};

/// What is told of a record.
fn told(block: Record) -> Record
    ensures { result ≡ told_record block }
{
    match block.state {
        State::Vacant => VACANT,
        State::Free => block,
        State::Live => Record {
            prev_free: None,
            next_free: None,
            ..block
        },
    }
}

impl HasSections for Store {
    ghost use Rattle.tlsf_heap.specs.Images.Described.{told_sections};

    ghost sections = { λ store. told_sections store.cells };

    ghost cells = { λ store. store.cells };

    ghost touches = { λ store. store.touches };

    fn count(&self) -> u32 {
        self.records()
    }

    fn record(&mut self, slot: Slot) -> Record {
        told(self.read(slot))
    }

    fn head(&mut self, class: Class) -> Option<Slot> {
        Store::head(self, class)
    }

    fn pool(&mut self, number: u32) -> Option<Pool> {
        Store::pool(self, number)
    }
}

impl<'a> HasSections for KeptWords<'a> {
    ghost use Rattle.tlsf_heap.specs.Images.Described.{told_sections};

    ghost sections = { λ words. told_sections words.cells };

    ghost cells = { λ words. words.cells };

    ghost touches = { λ words. words.touches };

    fn count(&self) -> u32 {
        self.records()
    }

    fn record(&mut self, slot: Slot) -> Record {
        told(self.read(slot))
    }

    fn head(&mut self, class: Class) -> Option<Slot> {
        KeptWords::head(self, class)
    }

    fn pool(&mut self, number: u32) -> Option<Pool> {
        KeptWords::pool(self, number)
    }
}
