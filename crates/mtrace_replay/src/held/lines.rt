//! Items of which a report puts a line each.

ghost use Rattle.std.specs.Prelude.{List, ℕ, flat_map};
ghost use Rattle.mtrace_log.specs.Output.{Puts};

use mtrace_log::{Failed, Sink};

/// An item that a report puts a line of.
pub(crate) trait InLine {
    // Its line.
    ghost line: { Self → List ℕ };

    /// Puts its line.
    ///
    /// # Errors
    ///
    /// `Failed` where the writer failed, or took no byte of some: then a beginning of the line is put.
    fn put_line<W: Sink>(&self, writer: &mut W) -> Result<(), Failed>
        ensures { Puts result (line self.now) (W.shown writer.old) (W.shown writer.new) };
}

/// Puts the line of each item, in their order.
pub(crate) fn put_lines<T: InLine, W: Sink>(writer: &mut W, items: &[T]) -> Result<(), Failed>
    ensures { Puts result (flat_map T.line items.now) (W.shown writer.old) (W.shown writer.new) }
{
    for item in items {
        item.put_line(writer)?;
    }
    Ok(())
}
