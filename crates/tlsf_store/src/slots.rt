//! The number of a record, and the word of a link.

ghost use Rattle.std.specs.Prelude.{◌≡◌, ◌↔◌, IsTrue};
ghost use Rattle.tlsf_store.specs.Records.{most_records, IsBelow};
ghost use Rattle.tlsf_store.specs.Slots.{link_of};

use std::marker::Model;

/// The number of a record in its store's table.
#[derive(Clone, Copy, Debug, Default, PartialEq, Eq)]
pub struct Slot(pub u16);

impl Model for Slot {
    ghost use Rattle.std.specs.Prelude.{ℕ};

    ghost Value = { ℕ };

    ghost view = { λ s. s.0 };

    ghost inverse = { λ n. record { 0 = n } };
}

impl Slot {
    /// The place of the record in the table.
    pub(crate) fn index(self) -> usize
        ensures { result ≡ self }
    {
        usize::from(self.0)
    }
}

/// The word of a missing link. Every slot is below it.
pub const MISSING: u16 = 65_535;

/// The word of a link.
pub(crate) fn link_word(link: Option<Slot>) -> u16
    requires { IsBelow most_records link }
    ensures { link_of result ≡ link }
{
    link.map_or(MISSING, |slot| slot.0)
}

/// The link of a word: none where it is the word of a missing one.
pub fn link_of(word: u16) -> Option<Slot>
    ensures { result ≡ link_of word }
{
    (word != MISSING).then_some(Slot(word))
}

/// Whether the word is that of a missing link, or of a slot below this count.
pub(crate) fn is_below(word: u16, count: usize) -> bool
    ensures { IsTrue result ↔ IsBelow count (link_of word) }
{
    word == MISSING || usize::from(word) < count
}
