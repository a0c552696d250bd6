//! A place in a text, and the way from one token to the next. The functions on this way are inlined, here and in the
//! files below, since places and results pass through memory at a call.

ghost use Rattle.std.specs.Prelude.{◌≡◌, ◌≢◌, ◌+◌, ◌<◌, ◌≤◌, ◌∷◌, length, true, false, IfSome, MatchOption};
ghost use Rattle.std.specs.List.{prefix_len};
ghost use Rattle.ir_lex.specs.Bytes.{is_name_byte, is_space};
ghost use Rattle.ir_lex.specs.Lexer.{passes_line};

use crate::bytes::{is_space, line_len};
use crate::extent::extent;
use crate::gap::is_skipped;
use crate::token::{LexError, Token};

/// A place in a text, with all that follows.
#[derive(Clone, Copy)]
pub struct Place<'s> {
    pub rest: &'s [u8],
    /// How many bytes stand before it.
    pub start: u32,
    pub line: u32,
    /// Whether only blanks stand before it on its line.
    pub fresh: bool,
    /// How many bytes of a plain name stand at the front, or 0 where that isn't known: so that none is read again for
    /// each of the tokens in `1-1-1-1`, of which any could begin a label.
    pub run: usize,
    ghost in_text: { start + length rest.now ≤ 4194304 },
    ghost in_lines: { line ≤ start + 1 },
    ghost in_run: { 0 < run → run ≡ prefix_len is_name_byte rest.now },
}

impl<'s> Place<'s> {
    ghost use Rattle.ir_lex.specs.Lexer.{ahead, answer_of};
    ghost use Rattle.ir_lex.specs.Place.{lexed_from, ending_of, IsAtToken};

    /// The place behind blanks, comments and skipped lines.
    #[inline(always)]
    pub fn past_gap(self) -> Place<'s>
        ensures same { lexed_from result ≡ lexed_from self.entry }
        ensures at_token { IsAtToken result }
    {
        let mut place = self;
        while let Some(next) = place.past_one() {
            place = next;
        }
        place
    }

    /// The place behind a blank, a comment or a skipped line; none where another byte stands, or none.
    #[inline(always)]
    #[tactic(auto, using(crate::proofs::Tokens::past_feed, crate::proofs::Tokens::past_space))]
    fn past_one(self) -> Option<Place<'s>>
        ensures same { MatchOption result (IsAtToken self.entry) (λ next. lexed_from next ≡ lexed_from self.entry) }
        ensures shorter { IfSome result (λ next. length next.rest.now < length self.entry.rest.now) }
    {
        let (first, rest) = self.rest.split_first()?;
        if is_space(*first) {
            return Some(Place {
                rest,
                start: self.start + 1,
                line: self.line,
                fresh: self.fresh,
                run: 0,
            });
        }
        if *first == b'\n' {
            return Some(Place {
                rest,
                start: self.start + 1,
                line: self.line + 1,
                fresh: true,
                run: 0,
            });
        }
        if *first == b';' {
            return Some(self.past_line(*first, rest));
        }
        if self.fresh && is_skipped(self.rest) {
            return Some(self.past_line(*first, rest));
        }
        None
    }

    /// The place behind the line that begins here, with these bytes.
    #[inline(always)]
    #[tactic(auto, using(crate::proofs::Tokens::past_line))]
    fn past_line(self, first: u8, rest: &'s [u8]) -> Place<'s>
        requires here { self.rest.now ≡ first ∷ rest.now }
        requires no_feed { first ≢ 10 }
        requires no_space { is_space first ≡ false }
        requires passes { passes_line first self.rest.now self.fresh ≡ true }
        ensures same { lexed_from result ≡ lexed_from self.entry }
        ensures shorter { length result.rest.now < length self.entry.rest.now }
    {
        let line_len = line_len(rest);
        let (_, rest) = rest.split_at(line_len);
        Place {
            rest,
            start: self.start + 1 + line_len as u32,
            line: self.line,
            fresh: false,
            run: 0,
        }
    }

    /// The token here and the place behind it; none where no token begins, and at the end.
    #[inline(always)]
    #[tactic(auto, using(crate::proofs::Tokens::tokens_end, crate::proofs::Tokens::tokens_fault, crate::proofs::Tokens::tokens_found))]
    pub fn token(self) -> Option<(Token<'s>, Place<'s>)>
        requires { IsAtToken self }
        ensures { MatchOption result (lexed_from self.entry ≡ ending_of self.entry) (λ found. lexed_from self.entry ≡ ahead found.0 (lexed_from found.1)) }
    {
        let (first, rest) = self.rest.split_first()?;
        let found = extent(*first, rest, self.run)?;
        let (text, rest) = self.rest.split_at(found.more + 1);
        let token = Token {
            kind: found.kind,
            text,
            start: self.start,
            line: self.line,
        };
        let place = Place {
            rest,
            start: self.start + (found.more + 1) as u32,
            line: self.line,
            fresh: false,
            run: found.run,
        };
        Some((token, place))
    }

    /// What is answered where no token begins.
    #[inline(always)]
    pub fn ending(self) -> Result<Option<Token<'s>>, LexError>
        ensures { result ≡ answer_of (ending_of self.entry) }
    {
        match self.rest {
            [] => Ok(None),
            [_, ..] => Err(LexError {
                line: self.line,
                at: self.start,
            }),
        }
    }
}
