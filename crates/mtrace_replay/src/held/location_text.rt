//! The text of a location.

ghost use Rattle.std.specs.Prelude.{◌++◌, ◌∷◌, []};
ghost use Rattle.std.specs.Option.{option_copied};
ghost use Rattle.mtrace_log.specs.Bytes.{newline};
ghost use Rattle.mtrace_log.specs.Output.{Puts};
ghost use Rattle.mtrace_replay.specs.Texts.{at_text};

use mtrace_log::{Failed, Sink, put_all};

/// Puts ` at ` and the location, where there is one.
fn put_location<W: Sink>(writer: &mut W, at: Option<&[u8]>) -> Result<(), Failed>
    ensures { Puts result (at_text (option_copied at.entry)) (W.shown writer.old) (W.shown writer.new) }
{
    let Some(bytes) = at else {
        return Ok(());
    };
    put_all(writer, b" at ")?;
    put_all(writer, bytes)
}

/// Puts a line: its front, and its location where there is one.
pub(crate) fn put_line_at<W: Sink>(
    writer: &mut W,
    front: &[u8],
    at: Option<&[u8]>,
) -> Result<(), Failed>
    ensures { Puts result (front.now ++ at_text (option_copied at.entry) ++ newline ∷ []) (W.shown writer.old) (W.shown writer.new) }
{
    put_all(writer, front)?;
    put_location(writer, at)?;
    put_all(writer, b"\n")
}
