//! The kinds that types spell, and the constants that literals spell.

ghost use Rattle.std.specs.Prelude.{◌≡◌};
ghost use Rattle.instruction_check.specs.Literals as spec;

use ir_read::{Node, Terminal};
use ir_types::{Kind, Operand, Width, Word};
use module_fault::{Cause, Found, unless};

/// The lowest bits of a number, as a constant of the kind.
pub fn constant(kind: Kind, number: u64) -> Operand
    ensures { result ≡ spec.constant kind number }
{
    Operand::Constant(lowest(kind, number))
}

fn lowest(kind: Kind, number: u64) -> Word
    ensures { result ≡ spec.lowest kind number }
{
    truncated(kind.width(), number)
}

fn truncated(width: Width, number: u64) -> Word
    ensures { result ≡ spec.word_of width number }
{
    Word::truncated(width, number)
}

/// What a register of the type holds, where the node is a type of one word.
pub fn kind_of(node: &Node<'_>) -> Kind
    ensures { result ≡ spec.kind_of node.now }
{
    match node.terminal {
        Terminal::Int => Kind::Int(width_of(node.text)),
        _ => Kind::Ptr,
    }
}

fn width_of(text: &[u8]) -> Width
    ensures { result ≡ spec.width_of text.now }
{
    if text == "i1".as_bytes() {
        Width::W1
    } else if text == "i8".as_bytes() {
        Width::W8
    } else if text == "i16".as_bytes() {
        Width::W16
    } else if text == "i32".as_bytes() {
        Width::W32
    } else {
        Width::W64
    }
}

/// The word of the kind that a literal spells: a number of any integer, `true` and `false` of `i1` alone, `null` of `ptr`
/// alone, and `zeroinitializer` of every kind.
pub fn literal(kind: Kind, node: &Node<'_>) -> Found<Word>
    ensures { result ≡ spec.literal kind node.now }
{
    match node.terminal {
        Terminal::Natural | Terminal::Negative => number(kind, node),
        Terminal::LiteralWord => word(kind, node.text),
        _ => no_literal(kind),
    }
}

fn no_literal(kind: Kind) -> Found<Word>
    ensures { result ≡ spec.no_literal kind }
{
    Found {
        value: lowest(kind, 0),
        cause: Some(Cause::TypeMismatch),
    }
}

fn number(kind: Kind, node: &Node<'_>) -> Found<Word>
    ensures { result ≡ spec.number kind node.now.text }
{
    Found {
        value: lowest(kind, node.literal().unwrap_or(0)),
        cause: unless(is_integer(kind), Cause::TypeMismatch),
    }
}

pub fn is_integer(kind: Kind) -> bool
    ensures { result ≡ spec.is_integer kind }
{
    matches!(kind, Kind::Int(_))
}

fn word(kind: Kind, text: &[u8]) -> Found<Word>
    ensures { result ≡ spec.word kind text.now }
{
    Found {
        value: lowest(kind, u64::from(text == "true".as_bytes())),
        cause: unless(is_of_kind(kind, text), Cause::TypeMismatch),
    }
}

fn is_of_kind(kind: Kind, text: &[u8]) -> bool
    ensures { result ≡ spec.is_of_kind kind text.now }
{
    match kind {
        Kind::Ptr => text == "null".as_bytes() || text == "zeroinitializer".as_bytes(),
        Kind::Int(Width::W1) => text != "null".as_bytes(),
        Kind::Int(_) => text == "zeroinitializer".as_bytes(),
    }
}

/// The word of the kind that the literal of a phrase spells.
pub fn literal_in(kind: Kind, phrase: &[Node<'_>]) -> Found<Word>
    ensures { result ≡ spec.literal_in kind phrase.now }
{
    match phrase.first() {
        Some(node) => literal(kind, node),
        None => no_literal(kind),
    }
}

/// The constant of the kind that a literal spells.
pub fn constant_of(kind: Kind, node: &Node<'_>) -> Found<Operand>
    ensures { result ≡ spec.constant_of kind node.now }
{
    let found = literal(kind, node);
    Found {
        value: Operand::Constant(found.value),
        cause: found.cause,
    }
}
