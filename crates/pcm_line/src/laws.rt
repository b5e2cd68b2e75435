// What holds of lines, their spellings and their faults.
ghost use Rattle.std.specs.Prelude.{◌≡◌, ◌⊎◌, ℕ, List};
ghost use Rattle.pcm_line.specs.declared.error.LineError.{LineError};
ghost use Rattle.pcm_line.specs.declared.line.Line.{Line};
ghost use Rattle.pcm_line.specs.Grammar.{IsLine, LineFault};
ghost use Rattle.pcm_line.specs.Sayable.{IsWellTyped, Sayable};

/// A line has exactly one spelling, and a spelling is that of one line.
pub fn one_spelling()
    ensures spelling { (a b : List ℕ) (line : Line) → IsLine a line → IsLine b line → a ≡ b }
    ensures meaning { (bytes : List ℕ) (a b : Line) → IsLine bytes a → IsLine bytes b → a ≡ b }
{}

/// All bytes are a line or have a fault, never both, and they have one fault at most.
pub fn one_answer()
    ensures some { (bytes : List ℕ) → ((line : Line) × IsLine bytes line) ⊎ ((e : LineError) × LineFault bytes e) }
    ensures never_both { (bytes : List ℕ) (line : Line) (e : LineError) → IsLine bytes line → ¬ LineFault bytes e }
    ensures one_fault { (bytes : List ℕ) (a b : LineError) → LineFault bytes a → LineFault bytes b → a ≡ b }
{}

/// The lines that have a spelling are those that can be said: numbers below 2^63, clients and substreams below 16, a
/// client exactly where the call has one, s0 in a Go, bytes only in a Write, a Store and a Give.
pub fn sayable_lines()
    ensures spelled { (line : Line) → IsWellTyped line → Sayable line → (bytes : List ℕ) × IsLine bytes line }
    ensures said { (bytes : List ℕ) (line : Line) → IsLine bytes line → Sayable line }
{}
