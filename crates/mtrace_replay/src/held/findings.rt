//! What is wrong with a line, while it is replayed.

ghost use Rattle.std.specs.Prelude.{◌≡◌, ◌<◌, ◌≤◌, ◌∷◌, ◌++◌, ◌==◌, [], length, option_to_list};
ghost use Rattle.std.specs.List.{list_any};
ghost use Rattle.arrayvec.specs.ArrayVec.{array_vec_len};
ghost use Rattle.mtrace_replay.specs.Totals.{is_refusal};

use crate::held::diagnostic::{Diagnostic, Kind, Note};
use arrayvec::ArrayVec;
use std::marker::Model;

/// At most two diagnostics. To make a `Note` clears room for two, also where there is none. To make this, for a line
/// with nothing wrong, clears nothing.
#[derive(Drop)]
pub(crate) struct Findings {
    first: Option<Diagnostic>,
    second: Option<Diagnostic>,
}

impl Model for Findings {
    ghost use Rattle.std.specs.Prelude.{List, ◌++◌, option_to_list};
    ghost use Rattle.mtrace_replay.specs.declared.held.diagnostic.Diagnostic.{Diagnostic};

    ghost Value = { List Diagnostic };

    ghost view = { λ findings. option_to_list findings.first ++ option_to_list findings.second };
}

/// Whether it is there and says that the heap refused what a line asked for.
fn is_refusal(diagnostic: &Option<Diagnostic>) -> bool
    ensures { result ≡ list_any (λ diagnostic. is_refusal diagnostic.kind) (option_to_list diagnostic.now) }
{
    match diagnostic {
        Some(diagnostic) => matches!(diagnostic.kind, Kind::Refused(..)),
        None => false,
    }
}

/// Appends a diagnostic, where it is there.
fn push_some(diagnostics: &mut Note, diagnostic: &Option<Diagnostic>)
    requires { array_vec_len diagnostics.old < 2 }
    ensures { diagnostics.new.items ≡ diagnostics.old.items ++ option_to_list diagnostic.now }
{
    if let Some(Diagnostic { line, kind }) = *diagnostic {
        diagnostics.push(Diagnostic { line, kind });
    }
}

impl Findings {
    /// Nothing is wrong.
    pub(crate) fn none() -> Findings
        ensures { result ≡ [] }
    {
        Findings {
            first: None,
            second: None,
        }
    }

    /// Nothing is wrong any more.
    pub(crate) fn clear(&mut self)
        ensures { self.new ≡ [] }
    {
        self.first = None;
        self.second = None;
    }

    /// Becomes one diagnostic.
    #[inline(never)]
    pub(crate) fn set_one(&mut self, line: u64, kind: Kind)
        ensures { self.new ≡ record { line = line; kind = kind } ∷ [] }
    {
        self.first = Some(Diagnostic { line, kind });
        self.second = None;
    }

    /// Puts a diagnostic before what is there, which is at most one.
    #[inline(never)]
    pub(crate) fn put_first(&mut self, first: Diagnostic)
        requires { length self.old ≤ 1 }
        ensures { self.new ≡ first ∷ self.old }
    {
        self.second = self.first.or(self.second);
        self.first = Some(first);
    }

    /// Whether nothing is wrong.
    pub(crate) fn is_empty(&self) -> bool
        ensures { result ≡ (length self.now == 0) }
    {
        self.first.is_none() && self.second.is_none()
    }

    /// Whether the heap refused what a line asked for.
    pub(crate) fn has_refusal(&self) -> bool
        ensures { result ≡ list_any (λ diagnostic. is_refusal diagnostic.kind) self.now }
    {
        is_refusal(&self.first) || is_refusal(&self.second)
    }

    /// The diagnostics as a list.
    pub(crate) fn diagnostics(&self) -> Note
        ensures { result.items ≡ self.now }
    {
        let mut diagnostics = ArrayVec::new();
        push_some(&mut diagnostics, &self.first);
        push_some(&mut diagnostics, &self.second);
        diagnostics
    }
}
