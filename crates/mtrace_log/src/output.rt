//! Bytes are put to a writer.

ghost use Rattle.mtrace_log.specs.Output.{Puts};

use crate::{Failed, Sink};

/// Puts all of the bytes.
///
/// # Errors
///
/// `Failed` where the writer failed, or took no byte of some: then a beginning of the bytes is put.
pub fn put_all<W: Sink>(writer: &mut W, bytes: &[u8]) -> Result<(), Failed>
    ensures { Puts result bytes.now (W.shown writer.old) (W.shown writer.new) }
{
    let mut rest = bytes;
    while !rest.is_empty() {
        let count = writer.put(rest)?;
        if count == 0 {
            return Err(Failed);
        }
        rest = &rest[count..];
    }
    Ok(())
}
