//! Laws of the spellings of events and of the lines of a text, as calls that do nothing: their contracts are what is proved.
ghost use Rattle.std.specs.Prelude.{◌≡◌, ℕ, ◌<◌, ◌≤◌, List, [], ◌∷◌, ◌++◌, length, Result};
ghost use Rattle.mtrace_log.specs.Bytes.{Lacks, newline};
ghost use Rattle.mtrace_log.specs.Spelling.{spell, IsEvent, longest_line};
ghost use Rattle.mtrace_log.specs.Reading.{ReadsAs};
ghost use Rattle.mtrace_log.specs.Lines.{lines_of};
ghost use Rattle.mtrace_log.specs.HasRead.{whole_lines};
ghost use Rattle.std.specs.List.{AllByRecursion};
ghost use Rattle.mtrace_log.specs.Event.{Event};
ghost use Rattle.mtrace_log.specs.declared.event.LineFault.{LineFault};

/// Each event's spelling is one line, which isn't too long.
pub fn spelling_is_a_line()
    ensures no_newline { (event : Event) → IsEvent event → Lacks newline (spell event) }
    ensures short { (event : Event) → IsEvent event → length (spell event) ≤ longest_line }
{}

/// Distinct events have distinct spellings.
pub fn one_spelling()
    ensures { (first second : Event) → IsEvent first → IsEvent second → spell first ≡ spell second → first ≡ second }
{}

/// A line reads as one answer only.
pub fn one_answer()
    ensures { (bytes : List ℕ) (first second : Result Event LineFault) → ReadsAs bytes first → ReadsAs bytes second → first ≡ second }
{}

/// Pieces that each end in a newline are the first lines of a text. A last piece without newline is
/// one line, where it isn't empty.
pub fn lines_from_the_front()
    ensures whole { (pieces : List (List ℕ)) (rest : List ℕ) → AllByRecursion (Lacks newline) pieces
        → lines_of (whole_lines pieces ++ rest) ≡ pieces ++ lines_of rest }
    ensures last { (piece : List ℕ) → Lacks newline piece → 0 < length piece → lines_of piece ≡ piece ∷ [] }
    ensures end { lines_of [] ≡ [] }
{}
