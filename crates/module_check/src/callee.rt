//! The function that a call names.

ghost use Rattle.std.specs.Prelude.{◌≡◌};
ghost use Rattle.module_check.specs.Callee as spec;

use instruction_check::{GlobalRole, ModuleNames};
use ir_items::{Phrases, Statement};
use ir_read::{Node, Terminal};

/// Whether the instruction is a call that writes to standard output, so that its result has no use.
pub fn is_output(names: &ModuleNames<'_>, statement: &Statement<'_, '_>) -> bool
    ensures { result ≡ spec.is_output names.now statement.now }
{
    let operation = statement.operation;
    let mut phrases = Phrases::new(statement.operands);
    match operation.terminal {
        Terminal::Call => writes(callee_role(names, &mut phrases)),
        _ => false,
    }
}

fn writes(role: Option<GlobalRole>) -> bool
    ensures { result ≡ spec.writes role }
{
    match role {
        Some(GlobalRole::Declared(Some(call))) => call.is_output(),
        _ => false,
    }
}

/// What the callee's name stands for. It stands behind the type of the result, and behind the types that a call may write
/// before it.
fn callee_role(names: &ModuleNames<'_>, phrases: &mut Phrases<'_, '_>) -> Option<GlobalRole>
    ensures { result ≡ spec.callee_role names.now phrases.old }
{
    let _result = phrases.next();
    match phrases.next() {
        Some(phrase) if are_types(phrase) => next_role(names, phrases),
        Some(phrase) => role_in(names, phrase),
        None => None,
    }
}

fn next_role(names: &ModuleNames<'_>, phrases: &mut Phrases<'_, '_>) -> Option<GlobalRole>
    ensures { result ≡ spec.next_role names.now phrases.old }
{
    match phrases.next() {
        Some(phrase) => role_in(names, phrase),
        None => None,
    }
}

fn are_types(phrase: &[Node<'_>]) -> bool
    ensures { result ≡ spec.are_types phrase.now }
{
    match phrase.first() {
        Some(node) => matches!(node.terminal, Terminal::LeftParen),
        None => false,
    }
}

/// What the name that a phrase is stands for.
fn role_in(names: &ModuleNames<'_>, phrase: &[Node<'_>]) -> Option<GlobalRole>
    ensures { result ≡ spec.role_in names.now phrase.now }
{
    match phrase.first() {
        Some(node) => names.role_of(node),
        None => None,
    }
}
