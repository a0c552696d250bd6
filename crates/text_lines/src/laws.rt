//! Laws of the definitions. No function here does anything; each one's contract is a theorem.

ghost use Rattle.std.specs.Prelude.{◌≡◌, ℕ, ◌<◌, List, ◌∷◌, ◌++◌, decimal, Some};
ghost use Rattle.std.specs.List.{AllByRecursion, join_with_byte};
ghost use Rattle.text_lines.specs.Number.{cut, number_of};
ghost use Rattle.text_lines.specs.Part.{Lacks, lines_text, parts_of};
ghost use Rattle.text_lines.specs.RunWord.{IsUncut, run_text, run_turns, run_word_of};
ghost use Rattle.text_lines.specs.ThreadRun.{AreLongest, expanded, shortest, thread_runs, turns_of};
ghost use Rattle.text_lines.specs.declared.run_word.RunWord.{RunWord as Word};
ghost use Rattle.text_lines.specs.declared.thread_run.ThreadRun.{ThreadRun};

/// The parts of a text, joined by the byte, are the text; parts that lack the byte, at least one, are the parts again
/// once joined.
#[tactic(auto, using(crate::proofs::Joined::parts_joined, crate::proofs::Joined::text_joined))]
pub fn parts_are_joined()
    ensures joined { (byte : ℕ) (text : List ℕ) → join_with_byte byte (parts_of byte text) ≡ text }
    ensures parted { (byte : ℕ) (part : List ℕ) (parts : List (List ℕ)) → Lacks byte part → AllByRecursion (Lacks byte) parts →
        parts_of byte (join_with_byte byte (part ∷ parts)) ≡ part ∷ parts }
{}

/// Lines without line feeds inside, each with its line feed, before any text: the parts are these lines and then the
/// text's own.
#[tactic(auto, using(crate::proofs::Joined::lines_parted))]
pub fn lines_are_parts()
    ensures { (lines : List (List ℕ)) (rest : List ℕ) → AllByRecursion (Lacks 10) lines →
        parts_of 10 (lines_text lines ++ rest) ≡ lines ++ parts_of 10 rest }
{}

/// The one word of a number that is not cut is its decimal.
#[tactic(auto, using(crate::proofs::Decimals::number_again, crate::proofs::Decimals::number_is))]
pub fn numbers_are_decimal()
    ensures spelled { (number : ℕ) → number < cut → number_of (decimal number) ≡ Some number }
    ensures only { (number : ℕ) (word : List ℕ) → number < cut → number_of word ≡ Some number → word ≡ decimal number }
{}

/// A run whose numbers are not cut is read back from its spelling, and the word of such a run is its spelling.
#[tactic(auto, using(crate::proofs::Spelled::run_again, crate::proofs::Spelled::run_is))]
pub fn runs_are_spelled()
    ensures spelled { (run : Word) → IsUncut run → run_word_of (run_text run) ≡ Some run }
    ensures only { (run : Word) (word : List ℕ) → IsUncut run → run_word_of word ≡ Some run → word ≡ run_text run }
{}

/// The longest runs of some turns stand for them, each spelling stands for its run, and no other longest runs stand
/// for the same turns.
#[tactic(auto, using(crate::proofs::Longest::longest_laws))]
pub fn longest_runs_are_unique()
    ensures turns { (turns : List ℕ) → expanded (thread_runs turns) ≡ turns }
    ensures spelled { (run : ThreadRun) → run_turns (shortest run) ≡ turns_of run }
    ensures longest { (turns : List ℕ) → AreLongest (thread_runs turns) }
    ensures unique { (runs : List ThreadRun) → AreLongest runs → thread_runs (expanded runs) ≡ runs }
{}
