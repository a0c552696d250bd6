//! What a token is, and what stands where none begins.

use std::marker::Model;

/// What a token is.
#[derive(Clone, Copy, Debug, PartialEq, Eq)]
pub enum TokenKind {
    /// `%` and a name.
    Local,
    /// `@` and a name.
    Global,
    /// A name and `:`.
    Label,
    /// A letter, and then letters, digits, `_` and `.`.
    Word,
    /// Digits, with an optional `-` before them.
    Number,
    /// A quoted text, with an optional `c` before it.
    Text,
    /// `!` and letters, digits, `_` and `.`, or `#` and digits.
    Meta,
    /// `...` or one of `= , * ( ) [ ] { } < > ! |`.
    Mark,
}

/// A token, with all of its bytes.
#[derive(Debug, Drop)]
pub struct Token<'s> {
    pub kind: TokenKind,
    /// Its bytes, a slice of the source, with sigil, quotes and colon.
    pub text: &'s [u8],
    /// How many bytes of the source stand before it.
    pub start: u32,
    /// The line where it stands, from 1.
    pub line: u32,
}

impl<'s> Model for Token<'s> {
    ghost use Rattle.ir_lex.specs.Token.{Lexeme};

    ghost Value = { Lexeme };

    ghost view = { λ token. record { kind = token.kind; text = token.text.now; start = token.start; line = token.line } };
}

/// A place where no token begins.
#[derive(Clone, Copy, Debug, PartialEq, Eq)]
pub struct LexError {
    /// The line of the place, from 1.
    pub line: u32,
    /// How many bytes of the source stand before it.
    pub at: u32,
}
