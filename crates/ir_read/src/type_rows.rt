//! The rows of the rules for types.

ghost use Rattle.std.specs.Prelude.{◌≡◌, option_map};
ghost use Rattle.ir_read.specs.Grammar as table;

use crate::grammar::Rule;
use crate::terminal::Terminal;

#[inline(always)]
pub fn type_row(terminal: Terminal) -> Option<&'static [Rule]>
    ensures { option_map (λ rules. rules.now) result ≡ table.type_row terminal }
{
    match terminal {
        Terminal::Int | Terminal::Ptr | Terminal::Local => Some(&[]),
        Terminal::LeftBracket => Some(&[Rule::ArraySize, Rule::KeyX, Rule::Type, Rule::CloseArray]),
        Terminal::LeftBrace => Some(&[Rule::Fields]),
        Terminal::Less => Some(&[Rule::PackedBrace, Rule::Fields, Rule::CloseType]),
        _ => None,
    }
}

#[inline(always)]
pub fn aggregate_row(terminal: Terminal) -> Option<&'static [Rule]>
    ensures { option_map (λ rules. rules.now) result ≡ table.aggregate_row terminal }
{
    match terminal {
        Terminal::LeftBrace => Some(&[Rule::Fields]),
        Terminal::Less => Some(&[Rule::PackedBrace, Rule::Fields, Rule::CloseType]),
        _ => None,
    }
}

#[inline(always)]
pub fn fields_row(terminal: Terminal) -> Option<&'static [Rule]>
    ensures { option_map (λ rules. rules.now) result ≡ table.fields_row terminal }
{
    match terminal {
        Terminal::RightBrace => Some(&[]),
        _ => None,
    }
}

#[inline(always)]
pub fn more_fields_row(terminal: Terminal) -> Option<&'static [Rule]>
    ensures { option_map (λ rules. rules.now) result ≡ table.more_fields_row terminal }
{
    match terminal {
        Terminal::RightBrace => Some(&[]),
        Terminal::Comma => Some(&[Rule::Type, Rule::MoreFields]),
        _ => None,
    }
}
