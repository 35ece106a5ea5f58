//! What the sizes tell that a log was tried on.

ghost use Rattle.std.specs.Prelude.{◌≡◌, ◌++◌, ◌∷◌, ◌+◌, ◌<◌, ◌≤◌, ◌^◌, [], List};
ghost use Rattle.mtrace_replay.specs.Fit.{Verdict, fitted};

/// What the sizes tell that were tried so far, in rising order: by default none was.
#[derive(Clone, Copy, Default)]
pub(crate) struct Fitted {
    /// The first size that serves the log, in bytes.
    pub(crate) least: Option<u64>,
    /// The first size from which on all serve it, in bytes.
    pub(crate) safe: Option<u64>,
    /// How many sizes were tried.
    pub(crate) tried: u64,
    /// How many of them don't serve it.
    pub(crate) refused: u64,
}

impl Fitted {
    /// With one size more, by whether it serves the log.
    pub(crate) fn with(self, size: u64, serves: bool) -> Fitted
        requires tried { self.tried + 1 < 2 ^ 64 }
        requires refused { self.refused + 1 < 2 ^ 64 }
        ensures tried { result.tried ≡ self.tried + 1 }
        ensures refused { result.refused ≤ self.refused + 1 }
        ensures fitted { (verdicts : List Verdict) → self ≡ fitted verdicts → result ≡ fitted (verdicts ++ record { size = size; serves = serves } ∷ []) }
    {
        if serves {
            Fitted {
                least: self.least.or(Some(size)),
                safe: self.safe.or(Some(size)),
                tried: self.tried + 1,
                refused: self.refused,
            }
        } else {
            Fitted {
                least: self.least,
                safe: None,
                tried: self.tried + 1,
                refused: self.refused + 1,
            }
        }
    }
}
