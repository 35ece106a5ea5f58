//! The lines that make up a log, `@ LOCATION - ADDR` and `@ LOCATION + ADDR SIZE`, read up to their newline with no search
//! for it first.

ghost use Rattle.std.specs.Prelude.{◌≡◌, ◌∷◌, IfSome, Ok};
ghost use Rattle.mtrace_log.specs.Bytes.{newline};
ghost use Rattle.mtrace_log.specs.Frequent.{IsFrequent, BeginsFrequent, BeginsFields};
ghost use Rattle.mtrace_log.specs.Reading.{ReadsAs};

use crate::addr::Addr;
use crate::event::Event;
use crate::line_reader::{behind_at, front_addr, split_mark};
use crate::location::{LentLocation, behind_space};

/// What a line says that names its location, and frees a block or asks for one and is given it.
#[derive(Clone, Copy)]
pub(crate) struct Frequent {
    // How many bytes the location has.
    location_length: usize,
    addr: Addr,
    // How many bytes were asked for, if any were.
    size: Option<u64>,
}

/// What stands behind a newline, where one is first.
fn behind_newline(bytes: &[u8]) -> Option<&[u8]>
    ensures { IfSome result (λ rest. bytes.now ≡ newline ∷ rest.now) }
{
    let [b'\n', rest @ ..] = bytes else {
        return None;
    };
    Some(rest)
}

/// What `- ADDR` or `+ ADDR SIZE` with its newline at the front says behind a location of this many bytes, and what stands behind it.
#[inline(always)]
fn front_fields(location_length: usize, bytes: &[u8]) -> Option<(Frequent, &[u8])>
    ensures { IfSome result (λ front. (front.0.location_length ≡ location_length) × BeginsFields bytes.now front.0.addr front.0.size front.1.now) }
{
    let (mark, fields) = split_mark(bytes)?;
    let Some((addr, behind)) = front_addr(fields) else {
        return None;
    };
    if mark == b'-' {
        let rest = behind_newline(behind)?;
        let size = None;
        return Some((
            Frequent {
                location_length,
                addr,
                size,
            },
            rest,
        ));
    }
    if mark != b'+' {
        return None;
    }
    let sized = behind_space(behind)?;
    let Some((size, end)) = front_addr(sized) else {
        return None;
    };
    let rest = behind_newline(end)?;
    let size = Some(size.value());
    Some((
        Frequent {
            location_length,
            addr,
            size,
        },
        rest,
    ))
}

/// What the line at the front says, where it is one of these with its newline, and how many bytes it has.
#[inline(always)]
pub(crate) fn read_frequent(bytes: &[u8]) -> Option<(Frequent, usize)>
    ensures { IfSome result (λ found. BeginsFrequent bytes.now found.0 found.1) }
{
    let located = behind_at(bytes)?;
    let Some((at, marked)) = LentLocation::front(located) else {
        return None;
    };
    let Some((frequent, rest)) = front_fields(at.text.len(), marked) else {
        return None;
    };
    Some((frequent, bytes.len() - rest.len() - 1))
}

impl Frequent {
    /// The event of its line, with its location where it lies there.
    #[inline(always)]
    pub(crate) fn event(self, line: &[u8]) -> Event<LentLocation<'_>>
        requires { IsFrequent line.now self }
        ensures { ReadsAs line.now (Ok result) }
    {
        let text = &line[2..2 + self.location_length];
        let at = Some(LentLocation { text });
        match self.size {
            Some(size) => Event::Alloc {
                at,
                addr: Some(self.addr),
                size,
            },
            None => Event::Free {
                at,
                addr: self.addr,
            },
        }
    }
}
