//! A line `<`, and that no `>` follows it.

ghost use Rattle.std.specs.Prelude.{◌≡◌, ◌+◌, ◌≤◌, ◌++◌, length, if◌then◌else◌, [], option_to_list};
ghost use Rattle.mtrace_replay.specs.Moment.{half, is_new};
ghost use Rattle.mtrace_replay.specs.History.{old_address};

use crate::held::diagnostic::{Diagnostic, Kind};
use crate::held::findings::Findings;
use mtrace_log::{Addr, Event, LentLocation, LineFault};

/// The address of a line `<`.
pub(crate) fn old_address(event: &Result<Event<LentLocation<'_>>, LineFault>) -> Option<Addr>
    ensures { result ≡ old_address event.now }
{
    match event {
        Ok(Event::Old { addr, .. }) => Some(*addr),
        _ => None,
    }
}

/// The diagnostic of the line of this number, where it is `<`, its address pending, and no `>` follows.
pub(crate) fn half_diagnostic(number: u64, pending: Option<Addr>) -> Option<Diagnostic>
    ensures { option_to_list result ≡ half number pending }
{
    match pending {
        Some(_) => Some(Diagnostic {
            line: number,
            kind: Kind::Half,
        }),
        None => None,
    }
}

/// The diagnostic of the line before, of this number and with this address pending, unless the event is `>`.
pub(crate) fn half_before(
    number: u64,
    pending: Option<Addr>,
    event: &Result<Event<LentLocation<'_>>, LineFault>,
) -> Option<Diagnostic>
    ensures { option_to_list result ≡ (if is_new event.now then [] else half number pending) }
{
    match event {
        Ok(Event::New { .. }) => None,
        _ => half_diagnostic(number, pending),
    }
}

/// Puts the diagnostic of the line before, where there is one, before those of this line.
pub(crate) fn put_half(half: Option<Diagnostic>, findings: &mut Findings)
    requires { length (option_to_list half) + length findings.old ≤ 2 }
    ensures { findings.new ≡ option_to_list half ++ findings.old }
{
    if let Some(first) = half {
        findings.put_first(first);
    }
}
