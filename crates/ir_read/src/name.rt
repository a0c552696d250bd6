//! The names that tokens have.

ghost use Rattle.std.specs.Prelude.{◌≡◌};
ghost use Rattle.ir_read.specs.Name as spec;

use crate::number::is_all_digits;
use crate::terminal::{Terminal, after_first};

/// The name of a register, a global or a label, without sigil, quotes and colon. Nothing between quotes is decoded.
pub fn name_of(terminal: Terminal, text: &[u8]) -> &[u8]
    ensures { result.now ≡ spec.name_of terminal text.now }
{
    unquoted(bare_name(terminal, text))
}

/// Whether the name is a number: digits without quotes.
pub fn is_numbered(terminal: Terminal, text: &[u8]) -> bool
    ensures { result ≡ spec.is_numbered terminal text.now }
{
    is_all_digits(bare_name(terminal, text))
}

/// A name with its quotes, if it has some.
pub fn bare_name(terminal: Terminal, text: &[u8]) -> &[u8]
    ensures { result.now ≡ spec.bare_name terminal text.now }
{
    match terminal {
        Terminal::Label => before_last(text),
        _ => after_first(text),
    }
}

fn before_last(text: &[u8]) -> &[u8]
    ensures { result.now ≡ spec.before_last text.now }
{
    match text {
        [] => text,
        [front @ .., _] => front,
    }
}

fn unquoted(name: &[u8]) -> &[u8]
    ensures { result.now ≡ spec.unquoted name.now }
{
    match name {
        [b'"', inside @ ..] => before_last(inside),
        _ => name,
    }
}
