//! The pieces of a stream between newlines, where they don't lie whole in the buffer.
ghost use Rattle.std.specs.Prelude.{◌≡◌, ℕ, ◌<◌, ◌++◌, [], List, length};
ghost use Rattle.std.specs.Io.KnownBytes.{prepend_known};
ghost use Rattle.mtrace_log.specs.Bytes.{Lacks, newline};
ghost use Rattle.mtrace_log.specs.LineBuffer.{Holds, TakesPiece, CallsUpTo};
ghost use Rattle.mtrace_log.specs.declared.pieces.Stop.TheVariants.{Failed as PieceFailed};

use crate::buffer::Buffer;
use crate::failed::Failed;
use crate::line_buffer::LineBuffer;
use crate::source::Source;

/// How a piece ended.
#[derive(Clone, Copy)]
pub(crate) enum Stop {
    Newline,
    End,
    Failed,
}

/// Takes all unread bytes onto the line.
fn take_all(buffer: &mut Buffer, line: &mut LineBuffer)
    ensures held { (piece : List ℕ) → Holds line.old piece → Holds line.new (piece ++ buffer.old.unread) }
    ensures none { buffer.new.unread ≡ [] }
{
    line.extend(buffer.unread());
    buffer.skip_all();
}

/// The next piece, which begins with the unread bytes, and how it ended.
pub(crate) fn read_piece<R: Source>(buffer: &mut Buffer, reader: &mut R) -> (LineBuffer, Stop)
    requires some { 0 < length buffer.old.unread }
    requires no_newline { Lacks newline buffer.old.unread }
    ensures piece { TakesPiece result.0 result.1 (prepend_known buffer.old.unread (R.shown reader.old).left) (prepend_known buffer.new.unread (R.shown reader.new).left) }
    ensures calls { CallsUpTo result.1 (R.shown reader.old).calls (R.shown reader.new).calls }
    ensures whole { (R.shown reader.new).whole ≡ (R.shown reader.old).whole }
    ensures nothing_held { result.1 ≡ PieceFailed → buffer.new.unread ≡ [] }
{
    let mut line = LineBuffer::new();
    take_all(buffer, &mut line);
    loop {
        match buffer.refill(reader) {
            Ok(0) => return (line, Stop::End),
            Ok(_) => {}
            Err(Failed) => return (line, Stop::Failed),
        }
        if buffer.take_line() {
            line.extend(buffer.line());
            return (line, Stop::Newline);
        }
        take_all(buffer, &mut line);
    }
}
