ghost use Rattle.std.specs.Prelude.{◌≡◌, ◌∷◌, OnOk, OnErr};
ghost use Rattle.mtrace_log.specs.Trace.{began};

use crate::failed::Failed;
use crate::source::Source;

/// A reader that can begin again, so that its bytes can be read more than once.
pub trait Again: Source {
    /// Begins again: from the first on, all bytes are left.
    ///
    /// # Errors
    ///
    /// `Failed` where the reader can't begin again: then what was left is left.
    fn begin(&mut self) -> Result<(), Failed>
        ensures left { OnOk result ((Self.shown self.new).left ≡ (Self.shown self.old).whole) }
        ensures kept { OnErr result ((Self.shown self.new).left ≡ (Self.shown self.old).left) }
        ensures whole { (Self.shown self.new).whole ≡ (Self.shown self.old).whole }
        ensures told { (Self.shown self.new).calls ≡ began result ∷ (Self.shown self.old).calls }
        ensures kept_budget { OnErr result (Self.budget self.new ≡ Self.budget self.old) };
}
