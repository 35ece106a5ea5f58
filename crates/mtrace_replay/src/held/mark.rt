//! The lines of a log that tell the time.

ghost use Rattle.std.specs.Prelude.{◌≡◌};
ghost use Rattle.std.specs.Str.{all_ascii_digits};
ghost use Rattle.mtrace_replay.specs.Marks.{spelled, marked};

use mtrace_log::{Event, LentLocation, LineFault};

/// Whether all of these bytes are decimal digits.
fn are_digits(bytes: &[u8]) -> bool
    ensures { result ≡ all_ascii_digits bytes.now }
{
    for byte in bytes {
        if !byte.is_ascii_digit() {
            return false;
        }
    }
    true
}

/// The number that decimal digits spell, where it has 64 bits.
fn spelled(digits: &[u8]) -> Option<u64>
    ensures { result ≡ spelled digits.now }
{
    if !are_digits(digits) {
        return None;
    }
    let Ok(text) = str::from_utf8(digits) else {
        unreachable!();
    };
    text.parse::<u64>().ok()
}

/// The number behind this letter in the location of a line that has no effect.
pub(crate) fn marked(event: &Result<Event<LentLocation<'_>>, LineFault>, letter: u8) -> Option<u64>
    ensures { result ≡ marked letter event.now }
{
    let Ok(
        Event::Failed {
            at: Some(at),
            addr: None,
            size: 0,
        },
    ) = event
    else {
        return None;
    };
    let [first, digits @ ..] = at.bytes() else {
        return None;
    };
    if *first != letter {
        return None;
    }
    spelled(digits)
}
