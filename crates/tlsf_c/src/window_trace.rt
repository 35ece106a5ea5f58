//! What contracts alone see of a window.

ghost use Rattle.std.specs.Prelude.{◌≡◌, ℕ, List, [], ◌∷◌, ◌++◌};
ghost use Rattle.std.specs.Borrow.{ftrue};
ghost use Rattle.mtrace_log.specs.declared.call.Call.{Call};

use mtrace_log::Call;
use std::marker::Model;

/// The outcome of each call of a window, the latest first, and which bytes it was told. It takes no byte and no time.
#[derive(Drop)]
pub(crate) struct WindowTrace {
    pub ghost calls: { List Call },
    pub ghost bytes: { List ℕ },
}

impl Model for WindowTrace {
    ghost also_owns = { λ _. ftrue };
}

impl WindowTrace {
    /// No call yet, and no byte.
    pub(crate) fn new() -> WindowTrace
        ensures { result ≡ record { calls = []; bytes = [] } }
    {
        WindowTrace {}
    }

    /// One call more, and these bytes.
    pub(crate) fn add(&mut self, _call: &Call, _bytes: &[u8])
        ensures { self.new ≡ record { calls = _call.now ∷ self.old.calls; bytes = self.old.bytes ++ _bytes.now } }
    {}
}
