//! What instructions give.

ghost use Rattle.std.specs.Prelude.{◌≡◌};
ghost use Rattle.instruction_check.specs.Phrases.{behind, first};
ghost use Rattle.instruction_check.specs.Results as spec;

use crate::phrases::{kind_in, take_kind};
use crate::roles::GlobalRole;
use crate::scope::ModuleNames;
use crate::values::CONDITION;
use ir_items::{Phrases, Statement};
use ir_read::{Node, Terminal};
use ir_types::Kind;

/// The kind of what an instruction gives, as it is written; none where it gives nothing, and of a label.
pub fn result_of(statement: &Statement<'_, '_>) -> Option<Kind>
    ensures { result ≡ spec.result_of statement.now }
{
    let operation = statement.operation;
    let mut phrases = Phrases::new(statement.operands);
    match operation.terminal {
        Terminal::Binary | Terminal::Phi | Terminal::Load => Some(take_kind(&mut phrases)),
        Terminal::Icmp => Some(CONDITION),
        Terminal::Cast | Terminal::IntToPtr | Terminal::Select => Some(third_kind(&mut phrases)),
        Terminal::Alloca | Terminal::GetElementPtr => Some(Kind::Ptr),
        Terminal::Call => call_result(&mut phrases),
        _ => None,
    }
}

fn third_kind(phrases: &mut Phrases<'_, '_>) -> Kind
    ensures { result ≡ spec.third_kind phrases.old }
{
    let _first = phrases.next();
    let _second = phrases.next();
    take_kind(phrases)
}

/// Takes off the type of a call's result, which is none for `void`.
pub fn call_result(phrases: &mut Phrases<'_, '_>) -> Option<Kind>
    ensures kind { result ≡ spec.call_result (first phrases.old) }
    ensures rest { phrases.new ≡ behind phrases.old }
{
    match phrases.next() {
        Some(phrase) => given_in(phrase),
        None => None,
    }
}

fn given_in(phrase: &[Node<'_>]) -> Option<Kind>
    ensures { result ≡ spec.call_result phrase.now }
{
    match phrase.first() {
        Some(node) => match node.terminal {
            Terminal::Void => None,
            _ => Some(kind_in(phrase)),
        },
        None => None,
    }
}
