//! Numbers: decimal digits without a leading zero.

ghost use Rattle.std.specs.Prelude.{◌≡◌, min};
ghost use Rattle.std.specs.Bool.{IsTrue};
ghost use Rattle.std.specs.Char.{is_ascii_digit};
ghost use Rattle.std.specs.List.{list_all};
ghost use Rattle.std.specs.Str.Parse.{digits_value};
ghost use Rattle.text_lines.specs.Number.{cut, is_numeral, number_of, one_number, three_numbers, two_numbers};

use crate::part::Parts;

/// One past the greatest number of 64 bits.
const CUT: u128 = 1 << 64;

/// The number that the word spells, where it spells one. A number that is too large for 64 bits is cut to 2^64.
#[tactic(auto, unfolding(crate::specs::Number::number_of))]
pub fn read_number(word: &[u8]) -> Option<u128>
    ensures { result ≡ number_of word.now }
{
    if is_numeral(word) {
        Some(cut_value(word))
    } else {
        None
    }
}

/// The number of a text of one word.
pub fn one_number(words: Parts<'_>) -> Option<u128>
    ensures { result ≡ one_number words.entry }
{
    let mut words = words;
    let number = read_number(words.next()?)?;
    if words.is_empty() { Some(number) } else { None }
}

/// The numbers of a text of two words.
pub fn two_numbers(words: Parts<'_>) -> Option<(u128, u128)>
    ensures { result ≡ two_numbers words.entry }
{
    let mut words = words;
    let first = read_number(words.next()?)?;
    let second = one_number(words)?;
    Some((first, second))
}

/// The numbers of a text of three words.
pub fn three_numbers(words: Parts<'_>) -> Option<(u128, u128, u128)>
    ensures { result ≡ three_numbers words.entry }
{
    let mut words = words;
    let first = read_number(words.next()?)?;
    let (second, third) = two_numbers(words)?;
    Some((first, second, third))
}

/// Whether the word is digits without a leading zero.
fn is_numeral(word: &[u8]) -> bool
    ensures { result ≡ is_numeral word.now }
{
    !word.is_empty() && !(word.len() > 1 && word[0] == b'0') && are_digits(word)
}

fn are_digits(word: &[u8]) -> bool
    ensures { result ≡ list_all is_ascii_digit word.now }
{
    word.iter().all(|byte| byte.is_ascii_digit())
}

/// The number that the digits write, cut to 2^64.
fn cut_value(digits: &[u8]) -> u128
    requires { IsTrue (is_numeral digits.now) }
    ensures { result ≡ min (digits_value 10 digits.now) cut }
{
    let Ok(text) = str::from_utf8(digits) else {
        return CUT;
    };
    match text.parse::<u64>() {
        Ok(value) => u128::from(value),
        Err(_) => CUT,
    }
}
