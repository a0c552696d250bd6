//! Laws of the definition of a text's tokens. The functions here do nothing; their contracts are theorems.

ghost use Rattle.std.specs.Prelude.{ℕ, ◌≤◌, List, length, All, IfSome};
ghost use Rattle.std.specs.List.{AllPairs};
ghost use Rattle.ir_lex.specs.Laws.{IsTokenOf, IsFaultOf, LaidOut, Precedes};
ghost use Rattle.ir_lex.specs.Lexer.{front, tokens_of};

/// A text is blanks, comments, skipped lines and its tokens, one behind the other, up to its end or to the place where
/// no token begins.
pub fn text_is_laid_out()
    ensures { (text : List ℕ) → LaidOut front text (tokens_of text) }
{}

/// Each token is a slice of the text at its start, on its line, has the shape of its kind, and no longer front of the
/// text from there is a token of any kind.
pub fn tokens_are_longest()
    ensures { (text : List ℕ) → All (IsTokenOf text) (tokens_of text).tokens }
{}

/// Each token ends before the next one begins.
pub fn tokens_rise()
    ensures { (text : List ℕ) → AllPairs Precedes (tokens_of text).tokens }
{}

/// Where a text's tokens end before the text does, no front of what is left is a token of any kind.
pub fn faults_begin_no_token()
    ensures { (text : List ℕ) → IfSome (tokens_of text).fault (IsFaultOf text) }
{}

/// A text has at most as many tokens as bytes.
pub fn tokens_are_few()
    ensures { (text : List ℕ) → length (tokens_of text).tokens ≤ length text }
{}
