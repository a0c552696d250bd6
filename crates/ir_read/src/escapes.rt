//! The bytes that strings spell.

ghost use Rattle.std.specs.Prelude.{◌≡◌, ◌*◌, ◌+◌, ◌%◌, ◌≤◌, IfOk};
ghost use Rattle.ir_read.specs.declared.escapes.Begun.TheVariants as begun_as;
ghost use Rattle.ir_read.specs.Escapes as spec;

use std::alloc::{AllocError, Global};

/// What of an escape stands before a byte.
#[derive(Clone, Copy)]
pub enum Begun {
    Nothing,
    Backslash,
    /// A backslash and the hexadecimal digit of this value.
    High(u8),
}

/// The bytes of a string, whose text is `c` and two quotes with what they hold: a backslash byte for `\\`, the byte of two
/// hexadecimal digits for a backslash and these, and any other byte for itself.
pub fn bytes_of_string(alloc: Global, text: &[u8]) -> Result<Vec<u8>, AllocError>
    ensures { IfOk result (λ bytes. bytes.items ≡ spec.bytes_of_string text.now) }
{
    decoded(alloc, quoted(text))
}

/// What stands between the quotes.
fn quoted(text: &[u8]) -> &[u8]
    ensures { result.now ≡ spec.quoted text.now }
{
    match text {
        [_, _, inside @ .., _] => inside,
        _ => b"",
    }
}

fn decoded(alloc: Global, text: &[u8]) -> Result<Vec<u8>, AllocError>
    ensures { IfOk result (λ bytes. bytes.items ≡ spec.decoded begun_as.Nothing text.now) }
{
    let mut bytes = Vec::new(alloc);
    let mut begun = Begun::Nothing;
    for byte in text {
        if let Some(whole) = whole_at(begun, *byte) {
            bytes.push(whole)?;
        }
        begun = behind(begun, *byte);
    }
    Ok(bytes)
}

/// The byte that is whole with one more of the text, where one is.
fn whole_at(begun: Begun, byte: u8) -> Option<u8>
    ensures { result ≡ spec.whole_at begun byte }
{
    match begun {
        Begun::Nothing => { if byte == b'\\' { None } else { Some(byte) } }
        Begun::Backslash => { if byte == b'\\' { Some(byte) } else { None } }
        Begun::High(high) => Some(high.wrapping_mul(16).wrapping_add(digit_of(byte))),
    }
}

/// What of an escape stands behind the byte.
fn behind(begun: Begun, byte: u8) -> Begun
    ensures { result ≡ spec.behind begun byte }
{
    match begun {
        Begun::Nothing => {
            if byte == b'\\' {
                Begun::Backslash
            } else {
                Begun::Nothing
            }
        }
        Begun::Backslash => {
            if byte == b'\\' {
                Begun::Nothing
            } else {
                Begun::High(digit_of(byte))
            }
        }
        Begun::High(_) => Begun::Nothing,
    }
}

/// The value of a hexadecimal digit, and 0 of any other byte.
fn digit_of(byte: u8) -> u8
    ensures { result ≡ spec.digit_of byte }
{
    match byte {
        b'0'..=b'9' => byte - b'0',
        b'a'..=b'f' => byte - b'a' + 10,
        b'A'..=b'F' => byte - b'A' + 10,
        _ => 0,
    }
}
