//! Laws of the definition of case texts. No function here does anything; each one's contract is a theorem.

ghost use Rattle.std.specs.Prelude.{◌≡◌, ◌↔◌, ℕ, List, ◌++◌, length, Ok, Err, Some};
ghost use Rattle.std.specs.List.{AllByRecursion};
ghost use Rattle.run_types.specs.declared.case.Case.{Case as Recorded};
ghost use Rattle.case_text.specs.Error.{place_of};
ghost use Rattle.case_text.specs.Laws.{Spells};
ghost use Rattle.case_text.specs.Line.{AreUncut, IsForm, line_of, line_text};
ghost use Rattle.case_text.specs.Read.{case_of};
ghost use Rattle.case_text.specs.declared.error.CaseError.{CaseError};
ghost use Rattle.case_text.specs.declared.line.Line.{Line};
ghost use Rattle.ir_types.specs.declared.«module».Module.{Module};
ghost use Rattle.text_lines.specs.Part.{Lacks, lines_text};

/// A text has the shape of a line whose numbers are below 2^64 where it is the line's own spelling, its name is plain
/// if it has one, and there is a run if it is of runs; and nowhere else.
pub fn a_line_is_its_spelling()
    ensures { (text : List ℕ) (line : Line) → AreUncut line →
        ((line_of text ≡ Some line) ↔ ((text ≡ line_text line) × IsForm line)) }
{}

/// An accepted text is the lines of its case, each byte of it.
#[tactic(auto, using(crate::proofs::Accepted::accepted))]
pub fn accepted_text_is_its_lines()
    ensures { (code : Module) (text : List ℕ) (case : Recorded) → case_of code text ≡ Ok case →
        (body : List Line) × Spells code text case body }
{}

/// What is spelled so is accepted, as the case that it spells.
#[tactic(auto, using(crate::proofs::Spelled::spelled))]
pub fn spelled_text_is_accepted()
    ensures { (code : Module) (text : List ℕ) (case : Recorded) (body : List Line) →
        Spells code text case body → case_of code text ≡ Ok case }
{}

/// A text that is refused at a line is refused so by the lines up to that one: whatever follows them, the same line
/// is refused for the same reason. A line that lacks its line feed is none of these lines, since what ends there may
/// go on.
#[tactic(auto, using(crate::proofs::Steps::refused))]
pub fn refused_line_is_never_accepted()
    ensures { (code : Module) (lines : List (List ℕ)) (rest other : List ℕ) (error : CaseError) →
        AllByRecursion (Lacks 10) lines → place_of error ≡ length lines →
        case_of code (lines_text lines ++ rest) ≡ Err error → case_of code (lines_text lines ++ other) ≡ Err error }
{}
