ghost use Rattle.std.specs.Prelude.{◌≡◌, List, [], ◌∷◌};
ghost use Rattle.std.specs.Borrow.{ftrue};
ghost use Rattle.mtrace_log.specs.declared.call.Call.{Call};

use crate::call::Call;
use std::marker::Model;

/// The outcome of each call of a reader or a writer, the latest first. Contracts alone see it, and
/// it takes no bytes.
#[derive(Drop)]
pub struct Trace {
    pub ghost calls: { List Call },
}

impl Model for Trace {
    ghost also_owns = { λ _. ftrue };
}

impl Trace {
    /// No call yet.
    pub(crate) fn new() -> Trace
        ensures { result.calls ≡ [] }
    {
        Trace {}
    }

    /// One call more.
    pub(crate) fn add(&mut self, _call: &Call)
        ensures { self.new.calls ≡ _call.now ∷ self.old.calls }
    {}
}
