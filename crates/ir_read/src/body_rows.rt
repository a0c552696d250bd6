//! The rows of the rules for functions' bodies.

ghost use Rattle.std.specs.Prelude.{◌≡◌, option_map};
ghost use Rattle.ir_read.specs.Grammar as table;

use crate::grammar::Rule;
use crate::terminal::Terminal;

#[inline(always)]
pub fn body_row(terminal: Terminal) -> Option<&'static [Rule]>
    ensures { option_map (λ rules. rules.now) result ≡ table.body_row terminal }
{
    match terminal {
        Terminal::Label => Some(&[Rule::Body]),
        Terminal::RightBrace => Some(&[]),
        Terminal::Local => Some(&[Rule::Equals, Rule::Operation]),
        Terminal::Store => Some(&[Rule::ValueType, Rule::Operand, Rule::CommaTyped, Rule::Body]),
        Terminal::Br => Some(&[Rule::Branch]),
        Terminal::Switch => Some(&[
            Rule::ValueType,
            Rule::Operand,
            Rule::CommaLabel,
            Rule::OpenCases,
        ]),
        Terminal::Ret => Some(&[Rule::Returned]),
        Terminal::Unreachable => Some(&[Rule::Body]),
        _ => None,
    }
}

#[inline(always)]
pub fn operation_row(terminal: Terminal) -> Option<&'static [Rule]>
    ensures { option_map (λ rules. rules.now) result ≡ table.operation_row terminal }
{
    match terminal {
        Terminal::Binary => Some(&[
            Rule::ValueType,
            Rule::Operand,
            Rule::CommaOperand,
            Rule::Body,
        ]),
        Terminal::Icmp => Some(&[
            Rule::Predicate,
            Rule::ValueType,
            Rule::Operand,
            Rule::CommaOperand,
            Rule::Body,
        ]),
        Terminal::Cast | Terminal::IntToPtr => Some(&[
            Rule::ValueType,
            Rule::Operand,
            Rule::KeyTo,
            Rule::ValueType,
            Rule::Body,
        ]),
        Terminal::Select => Some(&[
            Rule::ValueType,
            Rule::Operand,
            Rule::CommaTyped,
            Rule::CommaTyped,
            Rule::Body,
        ]),
        Terminal::Phi => Some(&[Rule::ValueType, Rule::Edge, Rule::MoreEdges]),
        Terminal::Alloca => Some(&[Rule::Type, Rule::Count]),
        Terminal::Load => Some(&[Rule::ValueType, Rule::CommaTyped, Rule::Body]),
        Terminal::GetElementPtr => Some(&[Rule::Type, Rule::CommaTyped, Rule::Steps]),
        Terminal::Call => Some(&[Rule::ResultType, Rule::Callee]),
        _ => None,
    }
}

#[inline(always)]
pub fn comma_typed_row(terminal: Terminal) -> Option<&'static [Rule]>
    ensures { option_map (λ rules. rules.now) result ≡ table.comma_typed_row terminal }
{
    match terminal {
        Terminal::Comma => Some(&[Rule::ValueType, Rule::Operand]),
        _ => None,
    }
}

#[inline(always)]
pub fn comma_operand_row(terminal: Terminal) -> Option<&'static [Rule]>
    ensures { option_map (λ rules. rules.now) result ≡ table.comma_operand_row terminal }
{
    match terminal {
        Terminal::Comma => Some(&[Rule::Operand]),
        _ => None,
    }
}

#[inline(always)]
pub fn comma_label_row(terminal: Terminal) -> Option<&'static [Rule]>
    ensures { option_map (λ rules. rules.now) result ≡ table.comma_label_row terminal }
{
    match terminal {
        Terminal::Comma => Some(&[Rule::KeyLabel, Rule::LocalName]),
        _ => None,
    }
}

#[inline(always)]
pub fn edge_row(terminal: Terminal) -> Option<&'static [Rule]>
    ensures { option_map (λ rules. rules.now) result ≡ table.edge_row terminal }
{
    match terminal {
        Terminal::LeftBracket => Some(&[Rule::Operand, Rule::CommaBlock, Rule::CloseEdge]),
        _ => None,
    }
}

#[inline(always)]
pub fn comma_block_row(terminal: Terminal) -> Option<&'static [Rule]>
    ensures { option_map (λ rules. rules.now) result ≡ table.comma_block_row terminal }
{
    match terminal {
        Terminal::Comma => Some(&[Rule::LocalName]),
        _ => None,
    }
}

#[inline(always)]
pub fn more_edges_row(terminal: Terminal) -> Option<&'static [Rule]>
    ensures { option_map (λ rules. rules.now) result ≡ table.more_edges_row terminal }
{
    match terminal {
        Terminal::Comma => Some(&[Rule::Edge, Rule::MoreEdges]),
        _ => None,
    }
}

#[inline(always)]
pub fn count_row(terminal: Terminal) -> Option<&'static [Rule]>
    ensures { option_map (λ rules. rules.now) result ≡ table.count_row terminal }
{
    match terminal {
        Terminal::Comma => Some(&[Rule::ValueType, Rule::Operand, Rule::Body]),
        _ => None,
    }
}

#[inline(always)]
pub fn steps_row(terminal: Terminal) -> Option<&'static [Rule]>
    ensures { option_map (λ rules. rules.now) result ≡ table.steps_row terminal }
{
    match terminal {
        Terminal::Comma => Some(&[Rule::ValueType, Rule::Operand, Rule::Steps]),
        _ => None,
    }
}

#[inline(always)]
pub fn branch_row(terminal: Terminal) -> Option<&'static [Rule]>
    ensures { option_map (λ rules. rules.now) result ≡ table.branch_row terminal }
{
    match terminal {
        Terminal::KeyLabel => Some(&[Rule::LocalName, Rule::Body]),
        _ => None,
    }
}

#[inline(always)]
pub fn open_cases_row(terminal: Terminal) -> Option<&'static [Rule]>
    ensures { option_map (λ rules. rules.now) result ≡ table.open_cases_row terminal }
{
    match terminal {
        Terminal::LeftBracket => Some(&[Rule::Cases]),
        _ => None,
    }
}

#[inline(always)]
pub fn cases_row(terminal: Terminal) -> Option<&'static [Rule]>
    ensures { option_map (λ rules. rules.now) result ≡ table.cases_row terminal }
{
    match terminal {
        Terminal::RightBracket => Some(&[Rule::Body]),
        _ => None,
    }
}

#[inline(always)]
pub fn returned_row(terminal: Terminal) -> Option<&'static [Rule]>
    ensures { option_map (λ rules. rules.now) result ≡ table.returned_row terminal }
{
    match terminal {
        Terminal::Void => Some(&[Rule::Body]),
        _ => None,
    }
}
