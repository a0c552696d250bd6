//! The rows of the rules for constants and operands.

ghost use Rattle.std.specs.Prelude.{◌≡◌, option_map};
ghost use Rattle.ir_read.specs.Grammar as table;

use crate::grammar::Rule;
use crate::terminal::Terminal;

#[inline(always)]
pub fn initializer_row(terminal: Terminal) -> Option<&'static [Rule]>
    ensures { option_map (λ rules. rules.now) result ≡ table.initializer_row terminal }
{
    match terminal {
        Terminal::Natural
        | Terminal::Negative
        | Terminal::LiteralWord
        | Terminal::Bytes
        | Terminal::Global
        | Terminal::OddGlobal => Some(&[]),
        Terminal::GetElementPtr => Some(&[
            Rule::OpenConstant,
            Rule::Type,
            Rule::CommaPtr,
            Rule::GlobalName,
            Rule::Indices,
        ]),
        Terminal::IntToPtr => Some(&[
            Rule::OpenConstant,
            Rule::ValueType,
            Rule::Literal,
            Rule::KeyTo,
            Rule::KeyPtr,
            Rule::CloseParen,
        ]),
        Terminal::LeftBracket => Some(&[Rule::Elements]),
        Terminal::LeftBrace => Some(&[Rule::Members]),
        Terminal::Less => Some(&[Rule::PackedBrace, Rule::Members, Rule::CloseMembers]),
        _ => None,
    }
}

#[inline(always)]
pub fn elements_row(terminal: Terminal) -> Option<&'static [Rule]>
    ensures { option_map (λ rules. rules.now) result ≡ table.elements_row terminal }
{
    match terminal {
        Terminal::RightBracket => Some(&[]),
        _ => None,
    }
}

#[inline(always)]
pub fn more_elements_row(terminal: Terminal) -> Option<&'static [Rule]>
    ensures { option_map (λ rules. rules.now) result ≡ table.more_elements_row terminal }
{
    match terminal {
        Terminal::RightBracket => Some(&[]),
        Terminal::Comma => Some(&[Rule::Type, Rule::Initializer, Rule::MoreElements]),
        _ => None,
    }
}

#[inline(always)]
pub fn members_row(terminal: Terminal) -> Option<&'static [Rule]>
    ensures { option_map (λ rules. rules.now) result ≡ table.members_row terminal }
{
    match terminal {
        Terminal::RightBrace => Some(&[]),
        _ => None,
    }
}

#[inline(always)]
pub fn more_members_row(terminal: Terminal) -> Option<&'static [Rule]>
    ensures { option_map (λ rules. rules.now) result ≡ table.more_members_row terminal }
{
    match terminal {
        Terminal::RightBrace => Some(&[]),
        Terminal::Comma => Some(&[Rule::Type, Rule::Initializer, Rule::MoreMembers]),
        _ => None,
    }
}

#[inline(always)]
pub fn operand_row(terminal: Terminal) -> Option<&'static [Rule]>
    ensures { option_map (λ rules. rules.now) result ≡ table.operand_row terminal }
{
    match terminal {
        Terminal::Local
        | Terminal::Natural
        | Terminal::Negative
        | Terminal::LiteralWord
        | Terminal::Bytes
        | Terminal::Global
        | Terminal::OddGlobal => Some(&[]),
        Terminal::GetElementPtr => Some(&[
            Rule::OpenConstant,
            Rule::Type,
            Rule::CommaPtr,
            Rule::GlobalName,
            Rule::Indices,
        ]),
        Terminal::IntToPtr => Some(&[
            Rule::OpenConstant,
            Rule::ValueType,
            Rule::Literal,
            Rule::KeyTo,
            Rule::KeyPtr,
            Rule::CloseParen,
        ]),
        _ => None,
    }
}

#[inline(always)]
pub fn comma_ptr_row(terminal: Terminal) -> Option<&'static [Rule]>
    ensures { option_map (λ rules. rules.now) result ≡ table.comma_ptr_row terminal }
{
    match terminal {
        Terminal::Comma => Some(&[Rule::KeyPtr]),
        _ => None,
    }
}

#[inline(always)]
pub fn indices_row(terminal: Terminal) -> Option<&'static [Rule]>
    ensures { option_map (λ rules. rules.now) result ≡ table.indices_row terminal }
{
    match terminal {
        Terminal::RightParen => Some(&[]),
        Terminal::Comma => Some(&[Rule::ValueType, Rule::Literal, Rule::Indices]),
        _ => None,
    }
}
