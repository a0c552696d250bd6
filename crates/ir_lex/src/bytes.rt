//! The classes of bytes in a module's text, and how many bytes of a class stand at the front.

ghost use Rattle.std.specs.Prelude.{◌≡◌, ◌≤◌, length, not, ◌&&◌, ◌==◌};
ghost use Rattle.std.specs.Char.{is_ascii_digit};
ghost use Rattle.std.specs.List.{prefix_len};
ghost use Rattle.ir_lex.specs.Bytes.{is_space, is_mark, is_word_byte, is_name_byte, is_inside, is_in_line};

const WORD: u8 = 1;

const NAME: u8 = 2;

const MARK: u8 = 4;

const SPACE: u8 = 8;

// For each byte a digit, whose low four bits are the flags above: of the marks all but `!`, which may begin metadata.
static CLASSES: [u8; 256] = *b"\
    00000000080008000000000000000000\
    80002000444042303333333333004440\
    03333333333333333333333333340403\
    03333333333333333333333333344400\
    00000000000000000000000000000000\
    00000000000000000000000000000000\
    00000000000000000000000000000000\
    00000000000000000000000000000000";

/// Space, tab or carriage return.
#[inline(always)]
pub fn is_space(byte: u8) -> bool
    ensures { result ≡ is_space byte }
{
    CLASSES[byte as usize] & SPACE != 0
}

/// One of `= , * ( ) [ ] { } < > |`, the marks with which no longer token begins.
#[inline(always)]
pub fn is_lone_mark(byte: u8) -> bool
    ensures { result ≡ is_mark byte && not (byte == 33) }
{
    CLASSES[byte as usize] & MARK != 0
}

/// A letter, a digit, `_` or `.`.
#[inline(always)]
pub fn is_word_byte(byte: u8) -> bool
    ensures { result ≡ is_word_byte byte }
{
    CLASSES[byte as usize] & WORD != 0
}

/// A letter, a digit, `_`, `.`, `$` or `-`.
#[inline(always)]
pub fn is_name_byte(byte: u8) -> bool
    ensures { result ≡ is_name_byte byte }
{
    CLASSES[byte as usize] & NAME != 0
}

#[inline(always)]
pub fn space_len(bytes: &[u8]) -> usize
    ensures value { result ≡ prefix_len is_space bytes.now }
    ensures within { result ≤ length bytes.now }
{
    bytes.iter().take_while(|byte| is_space(**byte)).count()
}

#[inline(always)]
pub fn digit_len(bytes: &[u8]) -> usize
    ensures value { result ≡ prefix_len is_ascii_digit bytes.now }
    ensures within { result ≤ length bytes.now }
{
    bytes
        .iter()
        .take_while(|byte| byte.is_ascii_digit())
        .count()
}

#[inline(always)]
pub fn word_len(bytes: &[u8]) -> usize
    ensures value { result ≡ prefix_len is_word_byte bytes.now }
    ensures within { result ≤ length bytes.now }
{
    bytes.iter().take_while(|byte| is_word_byte(**byte)).count()
}

#[inline(always)]
pub fn plain_len(bytes: &[u8]) -> usize
    ensures value { result ≡ prefix_len is_name_byte bytes.now }
    ensures within { result ≤ length bytes.now }
{
    bytes.iter().take_while(|byte| is_name_byte(**byte)).count()
}

/// How many bytes stand before a quote or the line's end.
#[inline(always)]
pub fn inside_len(bytes: &[u8]) -> usize
    ensures value { result ≡ prefix_len is_inside bytes.now }
    ensures within { result ≤ length bytes.now }
{
    bytes
        .iter()
        .take_while(|byte| **byte != b'"' && **byte != b'\n')
        .count()
}

/// How many bytes stand before the line's end.
#[inline(always)]
pub fn line_len(bytes: &[u8]) -> usize
    ensures value { result ≡ prefix_len is_in_line bytes.now }
    ensures within { result ≤ length bytes.now }
{
    bytes.iter().take_while(|byte| **byte != b'\n').count()
}
