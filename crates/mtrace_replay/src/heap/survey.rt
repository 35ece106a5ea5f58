//! What stands in a heap.

ghost use Rattle.std.specs.Prelude.{◌≡◌, ◌+◌, ◌<◌, ◌≤◌, ◌^◌, List, [], ◌∷◌, ◌++◌, length, max};
ghost use Rattle.tlsf_heap.specs.declared.row.Row.{Row};
ghost use Rattle.tlsf_heap.specs.Pools.{most_records};
ghost use Rattle.tlsf_heap.specs.Content.{blocks_of};
ghost use Rattle.tlsf_heap.specs.Bare.{bare};
ghost use Rattle.mtrace_replay.specs.Texts.{free_sizes};
ghost use Rattle.mtrace_replay.specs.Rows.{pool_rows};
ghost use Rattle.mtrace_replay.specs.Survey.{live_ends, IsSurvey, SurveysRows, SurveysFew, ReadsRows};

use tlsf_heap::{Cursor, Heaped, Row};

/// What is free in a heap, and how far its live blocks reach.
#[derive(Clone, Copy, Debug, Default, PartialEq, Eq)]
pub(crate) struct Survey {
    /// How many blocks are free.
    pub(crate) free_blocks: u64,
    /// The sum of their sizes, in bytes.
    pub(crate) free_bytes: u64,
    /// The greatest of their sizes, in bytes; 0 where none is free.
    pub(crate) largest_free: u64,
    /// The greatest end of a live block, as a place; 0 where none is live.
    pub(crate) reach: u64,
}

impl Survey {
    /// That of the blocks of both.
    fn joined(self, more: Survey) -> Survey
        requires blocks { self.free_blocks + more.free_blocks < 2 ^ 64 }
        requires bytes { self.free_bytes + more.free_bytes < 2 ^ 64 }
        ensures joined { (first second : List Row) → SurveysRows first self → SurveysRows second more → SurveysRows (first ++ second) result }
        ensures blocks { result.free_blocks ≡ self.free_blocks + more.free_blocks }
        ensures bytes { result.free_bytes ≡ self.free_bytes + more.free_bytes }
    {
        Survey {
            free_blocks: self.free_blocks + more.free_blocks,
            free_bytes: self.free_bytes + more.free_bytes,
            largest_free: self.largest_free.max(more.largest_free),
            reach: self.reach.max(more.reach),
        }
    }
}

/// The survey of a row's block.
fn survey_row(row: Row) -> Survey
    ensures { SurveysFew 1 (row ∷ []) result }
{
    let size = u64::from(row.size);
    if row.used {
        Survey {
            reach: u64::from(row.place) + size,
            ..Survey::default()
        }
    } else {
        Survey {
            free_blocks: 1,
            free_bytes: size,
            largest_free: size,
            ..Survey::default()
        }
    }
}

/// The survey of the rows from a cursor on.
fn survey_rows<H: Heaped>(heap: &mut H, cursor: Cursor) -> Survey
    requires stands { H.stands heap.old cursor }
    requires few { length (H.rest heap.old cursor) ≤ most_records }
    ensures { ReadsRows H.content most_records (H.rest heap.old cursor) result heap.old heap.new }
{
    let mut survey = Survey::default();
    let mut here = cursor;
    while let Some(next) = heap.row(here) {
        survey = survey.joined(survey_row(next.0));
        here = next.1;
    }
    survey
}

/// The survey of the pool that begins at the place `base`.
fn survey_pool<H: Heaped>(heap: &mut H, base: u64) -> Survey
    requires few { length (blocks_of (H.content heap.old).pools) ≤ most_records }
    ensures { ReadsRows H.content most_records (pool_rows (H.content heap.old).pools base) result heap.old heap.new }
{
    match heap.first(base) {
        Ok(cursor) => survey_rows(heap, cursor),
        Err(_) => Survey::default(),
    }
}

/// The survey of a heap.
pub(crate) fn survey_heap<H: Heaped>(heap: &mut H) -> Survey
    requires few { length (blocks_of (H.content heap.old).pools) ≤ most_records }
    ensures survey { IsSurvey result (free_sizes (bare (H.content heap.old))) (live_ends (bare (H.content heap.old))) }
    ensures unchanged { H.content heap.new ≡ H.content heap.old }
{
    heap.keeps_good();
    let pools = heap.pools();
    let mut survey = Survey::default();
    for range in pools.as_slice() {
        survey = survey.joined(survey_pool(heap, range.0));
    }
    survey
}
