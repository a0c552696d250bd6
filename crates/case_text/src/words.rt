//! The words of a line of an input, and of a line of a watched site.

ghost use Rattle.std.specs.Prelude.{◌≡◌};
ghost use Rattle.std.specs.List.{list_all};
ghost use Rattle.case_text.specs.Words.{is_input, is_name_byte, is_plain, is_width, watch_words};

use std::marker::Model;
use text_lines::{Parts, one_number};

/// A slot, its width in bits, and its value.
#[derive(Clone, Copy)]
pub struct InputWords {
    pub slot: u128,
    pub width: u128,
    pub value: u128,
}

impl InputWords {
    /// Whether slot, width and value are in their bounds.
    pub fn is_input(self) -> bool
        ensures { result ≡ is_input self }
    {
        self.slot < 1 << 16 && is_width(self.width) && self.value < 1 << self.width
    }
}

fn is_width(width: u128) -> bool
    ensures { result ≡ is_width width }
{
    matches!(width, 8 | 16 | 32 | 64)
}

/// A function by its plain name, and the number of an instruction in it.
#[derive(Drop)]
pub struct WatchWords<'s> {
    pub name: &'s [u8],
    pub inst: u128,
}

impl<'s> Model for WatchWords<'s> {
    ghost use Rattle.case_text.specs.Words.{Watched};

    ghost Value = { Watched };

    ghost view = { λ words. record { name = words.name.now; inst = words.inst } };
}

impl<'s> WatchWords<'s> {
    pub fn read(words: Parts<'s>) -> Option<WatchWords<'s>>
        ensures { result ≡ watch_words words.entry }
    {
        let mut words = words;
        let name = words.next()?;
        if !is_plain(name) {
            return None;
        }
        let inst = one_number(words)?;
        Some(WatchWords { name, inst })
    }
}

/// A letter, a digit, `$`, `.`, `_` or `-`.
fn is_name_byte(byte: u8) -> bool
    ensures { result ≡ is_name_byte byte }
{
    byte.is_ascii_alphanumeric() || matches!(byte, b'$' | b'.' | b'_' | b'-')
}

/// Whether a name stands without quotes.
fn is_plain(name: &[u8]) -> bool
    ensures { result ≡ is_plain name.now }
{
    !name.is_empty() && are_name_bytes(name)
}

fn are_name_bytes(name: &[u8]) -> bool
    ensures { result ≡ list_all is_name_byte name.now }
{
    name.iter().all(|byte| is_name_byte(*byte))
}
