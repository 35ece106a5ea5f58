//! Figures of what is live in a heap with addresses.

ghost use Rattle.std.specs.Prelude.{◌≡◌, ◌+◌, ◌-◌, ◌%◌, ◌^◌, ◌<◌, ◌≤◌, max};

/// How many blocks are live, and their bytes, without the eight in front of each.
#[repr(C)]
#[derive(Clone, Copy)]
pub struct LiveFigures {
    /// The bytes of the live blocks.
    pub bytes: u64,
    /// The most that `bytes` has been.
    pub most_bytes: u64,
    /// How many blocks are live.
    pub blocks: u32,
    /// The lowest 32 bits of `most_bytes` once more, so that a change of either shows.
    pub most_again: u32,
}

/// The lowest 32 bits of a number.
#[inline(always)]
pub(crate) fn lowest_bits(number: u64) -> u32
    ensures { result ≡ number % 2 ^ 32 }
{
    (number % (1 << 32)) as u32
}

impl LiveFigures {
    /// A live block that had some bytes has others.
    #[inline(always)]
    pub(crate) fn resized(&mut self, had: u64, has: u64)
        requires counted { had ≤ self.old.bytes }
        requires few { self.old.bytes - had + has < 2 ^ 64 }
        ensures bytes { self.new.bytes ≡ self.old.bytes - had + has }
        ensures blocks { self.new.blocks ≡ self.old.blocks }
        ensures most { self.new.most_bytes ≡ max self.old.most_bytes self.new.bytes }
        ensures again { self.old.most_again ≡ self.old.most_bytes % 2 ^ 32 → self.new.most_again ≡ self.new.most_bytes % 2 ^ 32 }
    {
        self.bytes = self.bytes - had + has;
        if self.bytes > self.most_bytes {
            self.most_bytes = self.bytes;
            self.most_again = lowest_bits(self.bytes);
        }
    }

    /// A block of these bytes is live.
    #[inline(always)]
    pub(crate) fn given(&mut self, bytes: u64)
        requires few { self.old.bytes + bytes < 2 ^ 64 }
        requires few_blocks { self.old.blocks + 1 < 2 ^ 32 }
        ensures bytes { self.new.bytes ≡ self.old.bytes + bytes }
        ensures blocks { self.new.blocks ≡ self.old.blocks + 1 }
        ensures most { self.new.most_bytes ≡ max self.old.most_bytes self.new.bytes }
        ensures again { self.old.most_again ≡ self.old.most_bytes % 2 ^ 32 → self.new.most_again ≡ self.new.most_bytes % 2 ^ 32 }
    {
        self.resized(0, bytes);
        self.blocks += 1;
    }

    /// A block of these bytes isn't live any more.
    #[inline(always)]
    pub(crate) fn freed(&mut self, bytes: u64)
        requires counted { bytes ≤ self.old.bytes }
        requires some { 0 < self.old.blocks }
        ensures bytes { self.new.bytes + bytes ≡ self.old.bytes }
        ensures blocks { self.new.blocks + 1 ≡ self.old.blocks }
        ensures most { self.new.most_bytes ≡ self.old.most_bytes }
        ensures again { self.new.most_again ≡ self.old.most_again }
    {
        self.bytes -= bytes;
        self.blocks -= 1;
    }
}
