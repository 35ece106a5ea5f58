//! What is kept of a block.

ghost use Rattle.std.specs.Prelude.{◌≡◌};

use super::Slot;

/// What a record is for.
#[derive(Clone, Copy, Debug, PartialEq, Eq)]
pub enum State {
    /// It is of no block.
    Vacant,
    /// It is of a free block.
    Free,
    /// It is of a live block.
    Live,
}

impl State {
    ghost use Rattle.tlsf_store.specs.Records.{is_free_state, is_live_state};

    /// Whether a record in this state is of a free block.
    pub fn is_free(self) -> bool
        ensures { result ≡ is_free_state self }
    {
        matches!(self, State::Free)
    }

    /// Whether a record in this state is of a live block.
    pub fn is_live(self) -> bool
        ensures { result ≡ is_live_state self }
    {
        matches!(self, State::Live)
    }
}

/// One block of a pool: where it is, how long it is, and its neighbours.
#[derive(Clone, Copy, Debug, PartialEq, Eq)]
pub struct Record {
    /// Where the block begins, in bytes.
    pub place: u32,
    /// How long the block is, in bytes.
    pub size: u32,
    /// Whether there is a block, and whether it is live.
    pub state: State,
    /// The block in front of it in its pool.
    pub prev: Option<Slot>,
    /// The block behind it in its pool.
    pub next: Option<Slot>,
    /// The free block in front of it in its class's list.
    pub prev_free: Option<Slot>,
    /// The free block behind it in its class's list.
    pub next_free: Option<Slot>,
}

impl Record {
    ghost use Rattle.tlsf_store.specs.Records.{blank_in};

    /// A record in this state, with no block and no links.
    pub(crate) fn blank(state: State) -> Record
        ensures { result ≡ blank_in state }
    {
        Record {
            place: 0,
            size: 0,
            state,
            prev: None,
            next: None,
            prev_free: None,
            next_free: None,
        }
    }
}
