//! The rows of the rules for the items of a module.

ghost use Rattle.std.specs.Prelude.{◌≡◌, option_map};
ghost use Rattle.ir_read.specs.Grammar as table;

use crate::grammar::Rule;
use crate::terminal::Terminal;

#[inline(always)]
pub fn items_row(terminal: Terminal) -> Option<&'static [Rule]>
    ensures { option_map (λ rules. rules.now) result ≡ table.items_row terminal }
{
    match terminal {
        Terminal::End => Some(&[]),
        Terminal::Local => Some(&[Rule::Equals, Rule::KeyType, Rule::Aggregate, Rule::Items]),
        Terminal::Global | Terminal::OddGlobal => Some(&[
            Rule::Equals,
            Rule::GlobalKind,
            Rule::Type,
            Rule::Initializer,
            Rule::Items,
        ]),
        Terminal::KeyDeclare => Some(&[
            Rule::ResultType,
            Rule::GlobalName,
            Rule::OpenDeclared,
            Rule::Items,
        ]),
        Terminal::KeyDefine => Some(&[
            Rule::ResultType,
            Rule::DefinedName,
            Rule::OpenParameters,
            Rule::OpenBody,
            Rule::Body,
            Rule::Items,
        ]),
        _ => None,
    }
}

#[inline(always)]
pub fn open_declared_row(terminal: Terminal) -> Option<&'static [Rule]>
    ensures { option_map (λ rules. rules.now) result ≡ table.open_declared_row terminal }
{
    match terminal {
        Terminal::LeftParen => Some(&[Rule::Declared]),
        _ => None,
    }
}

#[inline(always)]
pub fn declared_row(terminal: Terminal) -> Option<&'static [Rule]>
    ensures { option_map (λ rules. rules.now) result ≡ table.declared_row terminal }
{
    match terminal {
        Terminal::RightParen => Some(&[]),
        Terminal::Ellipsis => Some(&[Rule::CloseParen]),
        _ => None,
    }
}

#[inline(always)]
pub fn declared_name_row(terminal: Terminal) -> Option<&'static [Rule]>
    ensures { option_map (λ rules. rules.now) result ≡ table.declared_name_row terminal }
{
    match terminal {
        Terminal::Local => Some(&[Rule::MoreDeclared]),
        _ => None,
    }
}

#[inline(always)]
pub fn more_declared_row(terminal: Terminal) -> Option<&'static [Rule]>
    ensures { option_map (λ rules. rules.now) result ≡ table.more_declared_row terminal }
{
    match terminal {
        Terminal::RightParen => Some(&[]),
        Terminal::Comma => Some(&[Rule::NextDeclared]),
        _ => None,
    }
}

#[inline(always)]
pub fn next_declared_row(terminal: Terminal) -> Option<&'static [Rule]>
    ensures { option_map (λ rules. rules.now) result ≡ table.next_declared_row terminal }
{
    match terminal {
        Terminal::Ellipsis => Some(&[Rule::CloseParen]),
        _ => None,
    }
}

#[inline(always)]
pub fn open_parameters_row(terminal: Terminal) -> Option<&'static [Rule]>
    ensures { option_map (λ rules. rules.now) result ≡ table.open_parameters_row terminal }
{
    match terminal {
        Terminal::LeftParen => Some(&[Rule::Parameters]),
        _ => None,
    }
}

#[inline(always)]
pub fn parameters_row(terminal: Terminal) -> Option<&'static [Rule]>
    ensures { option_map (λ rules. rules.now) result ≡ table.parameters_row terminal }
{
    match terminal {
        Terminal::RightParen => Some(&[]),
        _ => None,
    }
}

#[inline(always)]
pub fn parameter_name_row(terminal: Terminal) -> Option<&'static [Rule]>
    ensures { option_map (λ rules. rules.now) result ≡ table.parameter_name_row terminal }
{
    match terminal {
        Terminal::Local => Some(&[Rule::MoreParameters]),
        _ => None,
    }
}

#[inline(always)]
pub fn more_parameters_row(terminal: Terminal) -> Option<&'static [Rule]>
    ensures { option_map (λ rules. rules.now) result ≡ table.more_parameters_row terminal }
{
    match terminal {
        Terminal::RightParen => Some(&[]),
        Terminal::Comma => Some(&[Rule::ParameterType, Rule::ParameterName]),
        _ => None,
    }
}
