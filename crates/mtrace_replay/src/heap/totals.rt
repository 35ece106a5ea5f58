ghost use Rattle.std.specs.Prelude.{◌≡◌, ◌+◌, ◌<◌, ◌^◌};
ghost use Rattle.mtrace_replay.specs.Totals.{gone_on};

/// The sums over the lines of a log: all 0 before the first.
#[derive(Clone, Copy, Debug, Default, PartialEq, Eq)]
pub struct Totals {
    /// How many lines there were.
    pub lines: u64,
    /// How many lines `+`, `*` and `>` the heap served.
    pub served: u64,
    /// How many lines `+`, `*` and `>` the heap refused.
    pub refused: u64,
    /// The sum of the sizes held, in bytes as asked for.
    pub live_bytes: u64,
    /// How many addresses are held.
    pub live_blocks: u64,
    /// The greatest sum of the sizes held after any number of lines, in bytes.
    pub peak_bytes: u64,
    /// The first number of lines after which that sum was held.
    pub peak_line: u64,
    /// The greatest end of a live block after any line, as a place; 0 where none was.
    pub high_place: u64,
}

impl Totals {
    /// Those with one line more: where the block ends that it was given, if any, whether it was refused, and what is
    /// held after it.
    pub(crate) fn after(
        self,
        end: Option<u64>,
        is_refused: bool,
        live_bytes: u64,
        live_blocks: u64,
    ) -> Totals
        requires lines { self.lines + 1 < 2 ^ 64 }
        requires served { self.served + 1 < 2 ^ 64 }
        requires refused { self.refused + 1 < 2 ^ 64 }
        ensures { result ≡ gone_on self end is_refused live_bytes live_blocks }
    {
        let lines = self.lines + 1;
        let is_peak = live_bytes > self.peak_bytes;
        Totals {
            lines,
            served: self.served + u64::from(end.is_some()),
            refused: self.refused + u64::from(is_refused),
            live_bytes,
            live_blocks,
            peak_bytes: if is_peak { live_bytes } else { self.peak_bytes },
            peak_line: if is_peak { lines } else { self.peak_line },
            high_place: self.high_place.max(end.unwrap_or(0)),
        }
    }
}
