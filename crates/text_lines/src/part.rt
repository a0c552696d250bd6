//! Texts parted at a byte.

ghost use Rattle.std.specs.Prelude.{◌≡◌, ◌<◌, ◌==◌, ◌↔◌, [], ◌∷◌, length, position, IfSome, IsTrue, MatchOption, option_map};
ghost use Rattle.text_lines.specs.Part.{parts_left, parts_of};

use std::marker::Model;

/// What is left of a text that is parted at each byte of a value, which contracts see as its parts. A text has
/// one part more than it has such bytes.
#[derive(Drop)]
pub struct Parts<'s> {
    byte: u8,
    rest: Option<&'s [u8]>,
}

impl<'s> Model for Parts<'s> {
    ghost use Rattle.std.specs.Prelude.{ℕ, List, option_map};
    ghost use Rattle.text_lines.specs.Part.{parts_left};

    ghost Value = { List (List ℕ) };

    ghost view = { λ parts. parts_left parts.byte (option_map (λ text. text.now) parts.rest) };
}

impl<'s> Parts<'s> {
    /// The parts of a text.
    pub fn new(byte: u8, text: &'s [u8]) -> Parts<'s>
        ensures { result ≡ parts_of byte text.now }
    {
        Parts {
            byte,
            rest: Some(text),
        }
    }

    /// The same parts, to be read a second time.
    pub fn again(&self) -> Parts<'s>
        ensures { result ≡ self.now }
    {
        Parts {
            byte: self.byte,
            rest: self.rest,
        }
    }

    /// Takes off the first part, where one is left.
    pub fn next(&mut self) -> Option<&'s [u8]>
        ensures { MatchOption result ((self.old ≡ []) × (self.new ≡ [])) (λ part. self.old ≡ part.now ∷ self.new) }
    {
        let (part, rest) = split(self.byte, self.rest?);
        self.rest = rest;
        Some(part)
    }

    /// Whether no part is left.
    pub fn is_empty(&self) -> bool
        ensures { IsTrue result ↔ (self.now ≡ []) }
    {
        self.rest.is_none()
    }
}

/// What stands before the first such byte, and what follows it, where there is one.
#[tactic(auto, using(crate::proofs::FirstPart::first_part))]
fn split(byte: u8, text: &[u8]) -> (&[u8], Option<&[u8]>)
    ensures { parts_of byte text.now ≡ result.0.now ∷ parts_left byte (option_map (λ rest. rest.now) result.1) }
{
    match place_of(byte, text) {
        None => (text, None),
        Some(place) => (&text[..place], Some(&text[place + 1..])),
    }
}

/// The place of the first such byte.
fn place_of(byte: u8, text: &[u8]) -> Option<usize>
    ensures value { result ≡ position (λ b. b == byte) text.now }
    ensures bound { IfSome result (λ place. place < length text.now) }
{
    text.iter().position(|b| *b == byte)
}
