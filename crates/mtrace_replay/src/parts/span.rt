//! Neighbouring ranges of sizes, and the blocks that fall under them.

ghost use Rattle.std.specs.Prelude.{◌≡◌, ◌+◌, ◌^◌, ◌<◌};
ghost use Rattle.mtrace_replay.specs.Span.{one_more, one_less};

/// Neighbouring ranges of sizes, from the first to the last of them.
#[derive(Clone, Copy, Debug, PartialEq, Eq)]
pub(crate) struct Span {
    pub(crate) first: u8,
    pub(crate) last: u8,
    // How many blocks are held, and the most that were held behind a line.
    pub(crate) live: u64,
    pub(crate) most: u64,
    // The largest size, in bytes: 0 where there was none.
    pub(crate) size: u32,
}

impl Span {
    /// With one block more, of this size.
    pub(crate) fn with_one(self, size: u32) -> Span
        requires few { self.live + 1 < 2 ^ 64 }
        ensures { result ≡ one_more size self }
    {
        let live = self.live + 1;
        Span {
            live,
            most: self.most.max(live),
            size: size.max(self.size),
            ..self
        }
    }

    /// With one block less.
    pub(crate) fn without_one(self) -> Span
        ensures { result ≡ one_less self }
    {
        Span {
            live: self.live.saturating_sub(1),
            ..self
        }
    }
}
