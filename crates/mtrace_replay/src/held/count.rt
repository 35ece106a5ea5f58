//! How many calls there are.

ghost use Rattle.std.specs.Prelude.{◌≡◌, ◌+◌, ◌<◌, ◌^◌};
ghost use Rattle.mtrace_replay.specs.Calls.{count_more, count_temporary, no_calls};

/// How many calls there are, of how many bytes, and how many of them are temporary: the very next line releases their block.
#[derive(Clone, Copy, Debug, PartialEq, Eq)]
pub struct Count {
    /// How many calls.
    pub calls: u64,
    /// How many bytes they asked for in sum.
    pub bytes: u128,
    /// How many of them are temporary.
    pub temporary: u64,
}

impl Count {
    /// No call.
    pub fn none() -> Count
        ensures { result ≡ no_calls }
    {
        Count {
            calls: 0,
            bytes: 0,
            temporary: 0,
        }
    }

    /// With one call more, of this size.
    pub fn with_call(self, size: u64) -> Count
        requires calls { self.calls + 1 < 2 ^ 64 }
        requires bytes { self.bytes + size < 2 ^ 128 }
        ensures { result ≡ count_more self size }
    {
        Count {
            calls: self.calls + 1,
            bytes: self.bytes + u128::from(size),
            temporary: self.temporary,
        }
    }

    /// With one temporary call more, of those that there are.
    pub fn with_temporary(self) -> Count
        requires { self.temporary < self.calls }
        ensures { result ≡ count_temporary self }
    {
        Count {
            calls: self.calls,
            bytes: self.bytes,
            temporary: self.temporary + 1,
        }
    }
}
