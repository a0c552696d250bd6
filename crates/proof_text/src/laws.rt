//! Laws of the text of proofs. No function here does anything; each one's contract is a theorem.

ghost use Rattle.proof_text.specs.Laws.{ReadIsText, TextIsRead};

/// What proofs are written as is read as these proofs, where their numbers are in their bounds and their clauses are
/// clauses.
pub fn text_is_read()
    ensures { TextIsRead }
{}

/// A text of which proofs are read is what they are written as, each byte of it, and they have their numbers in their
/// bounds.
pub fn read_is_text()
    ensures { ReadIsText }
{}
