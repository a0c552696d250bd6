//! What is left of a text, and its next token.

ghost use Rattle.std.specs.Prelude.{◌≡◌, ◌≤◌, length, MatchOption, MatchResult, OnErr};
ghost use Rattle.ir_lex.specs.Lexer.{ended, failed, ahead, answer_of, rest_of, tokens_of};

use crate::place::Place;
use crate::token::{LexError, Token};
use std::marker::Model;

/// The longest text that is read, 4 MiB.
pub const MOST_BYTES: usize = 4194304;

/// What is left of a text, which contracts see as its tokens and the place behind them where none begins, if there is
/// one.
#[derive(Drop)]
pub struct Lexer<'s> {
    place: Place<'s>,
}

impl<'s> Model for Lexer<'s> {
    ghost use Rattle.ir_lex.specs.Lexer.{Lexed};
    ghost use Rattle.ir_lex.specs.Place.{lexed_from};

    ghost Value = { Lexed };

    ghost view = { λ lexer. lexed_from lexer.place };
}

impl<'s> Lexer<'s> {
    /// A lexer at the front of the text.
    #[inline(always)]
    pub fn new(text: &'s [u8]) -> Lexer<'s>
        requires { length text.now ≤ MOST_BYTES }
        ensures { result ≡ tokens_of text.now }
    {
        Lexer {
            place: Place {
                rest: text,
                start: 0,
                line: 1,
                fresh: true,
                run: 0,
            },
        }
    }

    /// The next token; none at the end, and again after it. Where no token begins the lexer stays there.
    #[inline(always)]
    pub fn next(&mut self) -> Result<Option<Token<'s>>, LexError>
        ensures given { MatchResult result (λ next. MatchOption next (self.old ≡ ended) (λ token. self.old ≡ ahead token self.new)) (λ error. self.old ≡ failed error) }
        ensures answer { result ≡ answer_of self.old }
        ensures rest { self.new ≡ rest_of self.old }
        ensures unchanged { OnErr result (self.new ≡ self.old) }
    {
        let place = self.place.past_gap();
        self.place = place;
        match place.token() {
            Some((token, after)) => {
                self.place = after;
                Ok(Some(token))
            }
            None => place.ending(),
        }
    }
}
