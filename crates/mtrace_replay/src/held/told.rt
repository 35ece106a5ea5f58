//! Which lines are told of a log that is cut in equal stretches.

ghost use Rattle.std.specs.Prelude.{◌≡◌, ◌+◌, ◌<◌, ◌≤◌, [], max, vec_len, vec_capacity};
ghost use Rattle.std.specs.List.Sorted.{IsStrictlyIncreasing};
ghost use Rattle.mtrace_replay.specs.Timeline.{end_of_stretch, AreTold, told_later};

/// The number of the last line of a stretch, where the first is stretch 1. It is 0 for stretch 0.
fn end_of_stretch(lines: u64, stretches: u32, stretch: u32) -> u64
    requires some { 0 < stretches }
    requires within { stretch ≤ stretches }
    ensures { result ≡ end_of_stretch lines stretches stretch }
{
    let end = (u128::from(stretch) * u128::from(lines)).div_ceil(u128::from(stretches));
    u64::try_from(end).unwrap_or(lines)
}

/// Appends a number to those that are told, where it is above the last of them. Answers the last one then.
fn tell(numbers: &mut Vec<u64>, last: u64, number: u64) -> u64
    requires room { last < number → vec_len numbers.old < vec_capacity numbers.old }
    ensures told { numbers.new.items ≡ told_later numbers.old.items last number }
    ensures last { result ≡ max last number }
    ensures one_more { last < number → vec_len numbers.new ≡ vec_len numbers.old + 1 }
    ensures as_many { number ≤ last → vec_len numbers.new ≡ vec_len numbers.old }
    ensures capacity { vec_capacity numbers.old ≤ vec_capacity numbers.new }
{
    if number <= last {
        return last;
    }
    numbers.push_reserved(number);
    number
}

/// The line numbers that are told: 0, the peak's, and where each stretch ends, in rising order.
pub(crate) fn tell_lines(lines: u64, peak: u64, stretches: u32, numbers: &mut Vec<u64>)
    requires some { 0 < stretches }
    requires empty { numbers.old.items ≡ [] }
    requires room { stretches + 2 ≤ vec_capacity numbers.old }
    ensures told { peak ≤ lines → AreTold lines peak stretches numbers.new.items }
    ensures rising { IsStrictlyIncreasing numbers.new.items }
    ensures few { vec_len numbers.new ≤ stretches + 2 }
{
    numbers.push_reserved(0);
    let mut last = 0;
    for stretch in 0..stretches {
        let end = end_of_stretch(lines, stretches, stretch + 1);
        last = tell(numbers, last, peak.min(end));
        last = tell(numbers, last, end);
    }
}
