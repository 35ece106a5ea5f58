use arrayvec::ArrayVec;
use mtrace_log::Addr;
use tlsf_heap::Refusal;

/// What is wrong with a line.
#[derive(Clone, Copy, Debug, Default, PartialEq, Eq)]
pub enum Kind {
    /// It has more bytes than the longest line.
    #[default]
    TooLong,
    /// It is the line of no event.
    NotALine,
    /// It takes an address that is not held.
    NotHeld(Addr),
    /// It gives an address that is held.
    AlreadyHeld(Addr),
    /// The heap refused the block that it asks for.
    Refused(Addr, Refusal),
    /// It is `<`, and no `>` follows.
    Half,
    /// It is `>`, and the line before it is no `<`.
    Stray,
}

/// What is wrong with a line, and the line's number.
#[derive(Clone, Copy, Debug, Default, PartialEq, Eq)]
pub struct Diagnostic {
    /// The line's number, from 1 on.
    pub line: u64,
    /// What is wrong with it.
    pub kind: Kind,
}

/// What one line adds to the diagnostics.
pub type Note = ArrayVec<Diagnostic, 2>;
