//! The rows of the rules for calls.

ghost use Rattle.std.specs.Prelude.{◌≡◌, option_map};
ghost use Rattle.ir_read.specs.Grammar as table;

use crate::grammar::Rule;
use crate::terminal::Terminal;

#[inline(always)]
pub fn callee_row(terminal: Terminal) -> Option<&'static [Rule]>
    ensures { option_map (λ rules. rules.now) result ≡ table.callee_row terminal }
{
    match terminal {
        Terminal::LeftParen => Some(&[Rule::Written, Rule::CalleeName, Rule::OpenArguments]),
        Terminal::Global | Terminal::OddGlobal => Some(&[Rule::OpenArguments]),
        _ => None,
    }
}

#[inline(always)]
pub fn written_row(terminal: Terminal) -> Option<&'static [Rule]>
    ensures { option_map (λ rules. rules.now) result ≡ table.written_row terminal }
{
    match terminal {
        Terminal::RightParen => Some(&[]),
        Terminal::Ellipsis => Some(&[Rule::CloseWritten]),
        _ => None,
    }
}

#[inline(always)]
pub fn more_written_row(terminal: Terminal) -> Option<&'static [Rule]>
    ensures { option_map (λ rules. rules.now) result ≡ table.more_written_row terminal }
{
    match terminal {
        Terminal::RightParen => Some(&[]),
        Terminal::Comma => Some(&[Rule::NextWritten]),
        _ => None,
    }
}

#[inline(always)]
pub fn next_written_row(terminal: Terminal) -> Option<&'static [Rule]>
    ensures { option_map (λ rules. rules.now) result ≡ table.next_written_row terminal }
{
    match terminal {
        Terminal::Ellipsis => Some(&[Rule::CloseWritten]),
        _ => None,
    }
}

#[inline(always)]
pub fn open_arguments_row(terminal: Terminal) -> Option<&'static [Rule]>
    ensures { option_map (λ rules. rules.now) result ≡ table.open_arguments_row terminal }
{
    match terminal {
        Terminal::LeftParen => Some(&[Rule::Arguments]),
        _ => None,
    }
}

#[inline(always)]
pub fn arguments_row(terminal: Terminal) -> Option<&'static [Rule]>
    ensures { option_map (λ rules. rules.now) result ≡ table.arguments_row terminal }
{
    match terminal {
        Terminal::RightParen => Some(&[Rule::Body]),
        _ => None,
    }
}

#[inline(always)]
pub fn more_arguments_row(terminal: Terminal) -> Option<&'static [Rule]>
    ensures { option_map (λ rules. rules.now) result ≡ table.more_arguments_row terminal }
{
    match terminal {
        Terminal::RightParen => Some(&[Rule::Body]),
        Terminal::Comma => Some(&[Rule::ValueType, Rule::Operand, Rule::MoreArguments]),
        _ => None,
    }
}
