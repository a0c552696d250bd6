//! The rows of the rules of one token.

ghost use Rattle.std.specs.Prelude.{◌≡◌, option_map};
ghost use Rattle.ir_read.specs.Grammar as table;

use crate::grammar::Rule;
use crate::terminal::Terminal;

#[inline(always)]
pub fn equals_row(terminal: Terminal) -> Option<&'static [Rule]>
    ensures { option_map (λ rules. rules.now) result ≡ table.token_row Rule.Equals terminal }
{
    match terminal {
        Terminal::Equals => Some(&[]),
        _ => None,
    }
}

#[inline(always)]
pub fn key_type_row(terminal: Terminal) -> Option<&'static [Rule]>
    ensures { option_map (λ rules. rules.now) result ≡ table.token_row Rule.KeyType terminal }
{
    match terminal {
        Terminal::KeyType => Some(&[]),
        _ => None,
    }
}

#[inline(always)]
pub fn global_kind_row(terminal: Terminal) -> Option<&'static [Rule]>
    ensures { option_map (λ rules. rules.now) result ≡ table.token_row Rule.GlobalKind terminal }
{
    match terminal {
        Terminal::KeyGlobal => Some(&[]),
        _ => None,
    }
}

#[inline(always)]
pub fn global_name_row(terminal: Terminal) -> Option<&'static [Rule]>
    ensures { option_map (λ rules. rules.now) result ≡ table.token_row Rule.GlobalName terminal }
{
    match terminal {
        Terminal::Global | Terminal::OddGlobal => Some(&[]),
        _ => None,
    }
}

#[inline(always)]
pub fn defined_name_row(terminal: Terminal) -> Option<&'static [Rule]>
    ensures { option_map (λ rules. rules.now) result ≡ table.token_row Rule.DefinedName terminal }
{
    match terminal {
        Terminal::Global => Some(&[]),
        _ => None,
    }
}

#[inline(always)]
pub fn parameter_type_row(terminal: Terminal) -> Option<&'static [Rule]>
    ensures { option_map (λ rules. rules.now) result ≡ table.token_row Rule.ParameterType terminal }
{
    match terminal {
        Terminal::Int | Terminal::Ptr => Some(&[]),
        _ => None,
    }
}

#[inline(always)]
pub fn open_body_row(terminal: Terminal) -> Option<&'static [Rule]>
    ensures { option_map (λ rules. rules.now) result ≡ table.token_row Rule.OpenBody terminal }
{
    match terminal {
        Terminal::LeftBrace => Some(&[]),
        _ => None,
    }
}

#[inline(always)]
pub fn close_paren_row(terminal: Terminal) -> Option<&'static [Rule]>
    ensures { option_map (λ rules. rules.now) result ≡ table.token_row Rule.CloseParen terminal }
{
    match terminal {
        Terminal::RightParen => Some(&[]),
        _ => None,
    }
}

#[inline(always)]
pub fn array_size_row(terminal: Terminal) -> Option<&'static [Rule]>
    ensures { option_map (λ rules. rules.now) result ≡ table.token_row Rule.ArraySize terminal }
{
    match terminal {
        Terminal::Natural => Some(&[]),
        _ => None,
    }
}

#[inline(always)]
pub fn key_x_row(terminal: Terminal) -> Option<&'static [Rule]>
    ensures { option_map (λ rules. rules.now) result ≡ table.token_row Rule.KeyX terminal }
{
    match terminal {
        Terminal::KeyX => Some(&[]),
        _ => None,
    }
}

#[inline(always)]
pub fn close_array_row(terminal: Terminal) -> Option<&'static [Rule]>
    ensures { option_map (λ rules. rules.now) result ≡ table.token_row Rule.CloseArray terminal }
{
    match terminal {
        Terminal::RightBracket => Some(&[]),
        _ => None,
    }
}

#[inline(always)]
pub fn packed_brace_row(terminal: Terminal) -> Option<&'static [Rule]>
    ensures { option_map (λ rules. rules.now) result ≡ table.token_row Rule.PackedBrace terminal }
{
    match terminal {
        Terminal::LeftBrace => Some(&[]),
        _ => None,
    }
}

#[inline(always)]
pub fn close_type_row(terminal: Terminal) -> Option<&'static [Rule]>
    ensures { option_map (λ rules. rules.now) result ≡ table.token_row Rule.CloseType terminal }
{
    match terminal {
        Terminal::Greater => Some(&[]),
        _ => None,
    }
}

#[inline(always)]
pub fn value_type_row(terminal: Terminal) -> Option<&'static [Rule]>
    ensures { option_map (λ rules. rules.now) result ≡ table.token_row Rule.ValueType terminal }
{
    match terminal {
        Terminal::Int | Terminal::Ptr => Some(&[]),
        _ => None,
    }
}

#[inline(always)]
pub fn result_type_row(terminal: Terminal) -> Option<&'static [Rule]>
    ensures { option_map (λ rules. rules.now) result ≡ table.token_row Rule.ResultType terminal }
{
    match terminal {
        Terminal::Int | Terminal::Ptr | Terminal::Void => Some(&[]),
        _ => None,
    }
}

#[inline(always)]
pub fn literal_row(terminal: Terminal) -> Option<&'static [Rule]>
    ensures { option_map (λ rules. rules.now) result ≡ table.token_row Rule.Literal terminal }
{
    match terminal {
        Terminal::Natural | Terminal::Negative | Terminal::LiteralWord | Terminal::Bytes => Some(
            &[],
        ),
        _ => None,
    }
}

#[inline(always)]
pub fn close_members_row(terminal: Terminal) -> Option<&'static [Rule]>
    ensures { option_map (λ rules. rules.now) result ≡ table.token_row Rule.CloseMembers terminal }
{
    match terminal {
        Terminal::Greater => Some(&[]),
        _ => None,
    }
}

#[inline(always)]
pub fn open_constant_row(terminal: Terminal) -> Option<&'static [Rule]>
    ensures { option_map (λ rules. rules.now) result ≡ table.token_row Rule.OpenConstant terminal }
{
    match terminal {
        Terminal::LeftParen => Some(&[]),
        _ => None,
    }
}

#[inline(always)]
pub fn key_ptr_row(terminal: Terminal) -> Option<&'static [Rule]>
    ensures { option_map (λ rules. rules.now) result ≡ table.token_row Rule.KeyPtr terminal }
{
    match terminal {
        Terminal::Ptr => Some(&[]),
        _ => None,
    }
}

#[inline(always)]
pub fn key_to_row(terminal: Terminal) -> Option<&'static [Rule]>
    ensures { option_map (λ rules. rules.now) result ≡ table.token_row Rule.KeyTo terminal }
{
    match terminal {
        Terminal::KeyTo => Some(&[]),
        _ => None,
    }
}

#[inline(always)]
pub fn predicate_row(terminal: Terminal) -> Option<&'static [Rule]>
    ensures { option_map (λ rules. rules.now) result ≡ table.token_row Rule.Predicate terminal }
{
    match terminal {
        Terminal::Predicate => Some(&[]),
        _ => None,
    }
}

#[inline(always)]
pub fn key_label_row(terminal: Terminal) -> Option<&'static [Rule]>
    ensures { option_map (λ rules. rules.now) result ≡ table.token_row Rule.KeyLabel terminal }
{
    match terminal {
        Terminal::KeyLabel => Some(&[]),
        _ => None,
    }
}

#[inline(always)]
pub fn local_name_row(terminal: Terminal) -> Option<&'static [Rule]>
    ensures { option_map (λ rules. rules.now) result ≡ table.token_row Rule.LocalName terminal }
{
    match terminal {
        Terminal::Local => Some(&[]),
        _ => None,
    }
}

#[inline(always)]
pub fn close_edge_row(terminal: Terminal) -> Option<&'static [Rule]>
    ensures { option_map (λ rules. rules.now) result ≡ table.token_row Rule.CloseEdge terminal }
{
    match terminal {
        Terminal::RightBracket => Some(&[]),
        _ => None,
    }
}

#[inline(always)]
pub fn close_written_row(terminal: Terminal) -> Option<&'static [Rule]>
    ensures { option_map (λ rules. rules.now) result ≡ table.token_row Rule.CloseWritten terminal }
{
    match terminal {
        Terminal::RightParen => Some(&[]),
        _ => None,
    }
}

#[inline(always)]
pub fn callee_name_row(terminal: Terminal) -> Option<&'static [Rule]>
    ensures { option_map (λ rules. rules.now) result ≡ table.token_row Rule.CalleeName terminal }
{
    match terminal {
        Terminal::Global | Terminal::OddGlobal => Some(&[]),
        _ => None,
    }
}
