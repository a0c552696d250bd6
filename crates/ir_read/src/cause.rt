//! Why a token is refused, by the rule that can't take it.

ghost use Rattle.std.specs.Prelude.{◌≡◌};
ghost use Rattle.ir_read.specs.Cause as spec;

use crate::error::ModuleError;
use crate::grammar::Rule;
use crate::machine::Refusal;
use crate::skip::Mode;
use crate::terminal::Terminal;

/// The error of a token of the class in the line, where the token directly before it ended a type or didn't.
#[tactic(auto, unfolding(crate::specs::Cause::error_of))]
pub fn error_of(behind_type: bool, refusal: Refusal, terminal: Terminal, line: u32) -> ModuleError
    ensures { result ≡ spec.error_of behind_type refusal terminal line }
{
    match terminal {
        Terminal::Bad => ModuleError::Lexical { line },
        Terminal::End => ModuleError::Syntax { line },
        _ if is_word(terminal) || is_left_out(behind_type, refusal, terminal) =>
            ModuleError::Unsupported { line },
        _ => ModuleError::Syntax { line },
    }
}

/// Whether the refused token begins a form of the LLVM language that is left out here.
#[tactic(auto, unfolding(crate::specs::Cause::is_left_out))]
fn is_left_out(behind_type: bool, refusal: Refusal, terminal: Terminal) -> bool
    ensures { result ≡ spec.is_left_out behind_type refusal terminal }
{
    match refusal {
        Refusal::Token(rule) => (behind_type && is_star(rule, terminal))
            || is_mark_of(rule, terminal),
        Refusal::Comma => false,
        Refusal::Form(mode) => is_wide_in(mode, terminal),
    }
}

/// Whether a `*` would make a pointer type of the type before it. Within a packed struct a `}` ends none.
#[tactic(auto, unfolding(crate::specs::Cause::is_star))]
fn is_star(rule: Rule, terminal: Terminal) -> bool
    ensures { result ≡ spec.is_star rule terminal }
{
    match rule {
        Rule::CloseType => false,
        _ => matches!(terminal, Terminal::Star),
    }
}

/// Whether the token shows a left-out form where the rule is wanted.
#[tactic(auto, unfolding(crate::specs::Cause::is_mark_of))]
fn is_mark_of(rule: Rule, terminal: Terminal) -> bool
    ensures { result ≡ spec.is_mark_of rule terminal }
{
    match rule {
        Rule::ValueType | Rule::ResultType => is_other_type(terminal),
        Rule::ParameterType => is_other_type(terminal) || is_ellipsis(terminal),
        Rule::MoreParameters => is_ellipsis(terminal),
        Rule::PackedBrace => true,
        Rule::Literal | Rule::Operand | Rule::Initializer => is_wide_literal(terminal),
        Rule::ArraySize => matches!(terminal, Terminal::Wide),
        Rule::Callee | Rule::CalleeName => matches!(terminal, Terminal::Local),
        Rule::DefinedName => matches!(terminal, Terminal::OddGlobal),
        _ => false,
    }
}

/// An array, struct, vector or named type.
#[tactic(auto, unfolding(crate::specs::Cause::is_other_type))]
fn is_other_type(terminal: Terminal) -> bool
    ensures { result ≡ spec.is_other_type terminal }
{
    matches!(
        terminal,
        Terminal::LeftBracket | Terminal::LeftBrace | Terminal::Less | Terminal::Local
    )
}

#[tactic(auto, unfolding(crate::specs::Cause::is_ellipsis))]
fn is_ellipsis(terminal: Terminal) -> bool
    ensures { result ≡ spec.is_ellipsis terminal }
{
    matches!(terminal, Terminal::Ellipsis)
}

#[tactic(auto, unfolding(crate::specs::Cause::is_wide_literal))]
fn is_wide_literal(terminal: Terminal) -> bool
    ensures { result ≡ spec.is_wide_literal terminal }
{
    matches!(terminal, Terminal::Wide | Terminal::WideNegative)
}

/// Whether the token is a number of more than 64 bits in a skipped form.
#[tactic(auto, unfolding(crate::specs::Cause::is_wide_in))]
fn is_wide_in(mode: Mode, terminal: Terminal) -> bool
    ensures { result ≡ spec.is_wide_in mode terminal }
{
    match mode {
        Mode::AlignNumber | Mode::DereferenceableNumber => matches!(terminal, Terminal::Wide),
        _ => false,
    }
}

#[tactic(auto, unfolding(crate::specs::Cause::is_word))]
fn is_word(terminal: Terminal) -> bool
    ensures { result ≡ spec.is_word terminal }
{
    !is_other_token(terminal)
}

/// Names, numbers, strings, metadata and marks, and what ends a text.
#[tactic(auto, unfolding(crate::specs::Cause::is_other_token))]
fn is_other_token(terminal: Terminal) -> bool
    ensures { result ≡ spec.is_other_token terminal }
{
    match terminal {
        Terminal::Local | Terminal::Global | Terminal::OddGlobal | Terminal::Label => true,
        Terminal::Natural | Terminal::Negative | Terminal::Wide | Terminal::WideNegative => true,
        Terminal::Bytes | Terminal::OddText => true,
        Terminal::MetadataName | Terminal::MetadataNumber | Terminal::AttributeGroup => true,
        Terminal::Equals
        | Terminal::Comma
        | Terminal::Star
        | Terminal::Ellipsis
        | Terminal::OtherMark => true,
        Terminal::LeftParen
        | Terminal::RightParen
        | Terminal::LeftBracket
        | Terminal::RightBracket => true,
        Terminal::LeftBrace | Terminal::RightBrace | Terminal::Less | Terminal::Greater => true,
        Terminal::End | Terminal::Bad => true,
        _ => false,
    }
}

/// Whether the token that the rule took ends a type.
#[tactic(auto, unfolding(crate::specs::Cause::ends_type))]
#[inline(always)]
pub fn ends_type(rule: Rule, terminal: Terminal) -> bool
    ensures { result ≡ spec.ends_type rule terminal }
{
    match rule {
        Rule::ValueType | Rule::ResultType | Rule::ParameterType => true,
        Rule::CloseArray | Rule::CloseType | Rule::KeyPtr | Rule::CloseWritten => true,
        Rule::Type => matches!(terminal, Terminal::Int | Terminal::Ptr | Terminal::Local),
        Rule::Fields | Rule::MoreFields => matches!(terminal, Terminal::RightBrace),
        Rule::Written | Rule::MoreWritten => matches!(terminal, Terminal::RightParen),
        Rule::Returned => matches!(terminal, Terminal::Void),
        _ => false,
    }
}
