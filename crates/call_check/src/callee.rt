//! What a call calls, and what stands before its arguments.

ghost use Rattle.std.specs.Prelude.{◌≡◌, ◌&&◌};
ghost use Rattle.call_check.specs.Callee as spec;
ghost use Rattle.instruction_check.specs.Phrases.{behind, first};

use external_calls::{ExternalCall, Parameter};
use instruction_check::{GlobalRole, ModuleNames, call_result, kind_of, same_kind};
use ir_items::Phrases;
use ir_read::{Node, Terminal};
use ir_types::Kind;
use module_fault::Cause;
use std::marker::Model;

/// What a call calls.
#[derive(Clone, Copy, Debug, PartialEq, Eq)]
pub enum Callee {
    /// The defined function of the number.
    Function(u32),
    External(ExternalCall),
    /// Nothing that can be called, and why.
    Refused(Cause),
}

/// What stands before a call's arguments.
#[derive(Drop)]
pub struct Head<'m, 's> {
    /// None for `void`.
    pub result: Option<Kind>,
    /// The types of the callee's parameters, in their brackets, where they are written.
    pub written: Option<&'m [Node<'s>]>,
    pub callee: Callee,
}

impl<'m, 's> Model for Head<'m, 's> {
    ghost use Rattle.std.specs.Prelude.{option_map};
    ghost use Rattle.call_check.specs.Callee.{Head as Value_};

    ghost Value = { Value_ };

    ghost view = { λ head. record { result = head.result; written = option_map (λ types. types.now) head.written; callee = head.callee } };
}

/// What the name stands for, where it is called.
pub fn callee_of(role: Option<GlobalRole>) -> Callee
    ensures { result ≡ spec.callee_of role }
{
    match role {
        Some(GlobalRole::Function(number)) => Callee::Function(number),
        Some(GlobalRole::Declared(Some(call))) => Callee::External(call),
        Some(GlobalRole::Declared(None)) => Callee::Refused(Cause::Unsupported),
        Some(GlobalRole::Global(_)) | None => Callee::Refused(Cause::UnknownName),
    }
}

fn is_written(phrase: &[Node<'_>]) -> bool
    ensures { result ≡ spec.is_written phrase.now }
{
    match phrase.first() {
        Some(node) => matches!(node.terminal, Terminal::LeftParen),
        None => false,
    }
}

/// What the name of a phrase stands for, where it is called.
fn callee_in(names: &ModuleNames<'_>, phrase: &[Node<'_>]) -> Callee
    ensures { result ≡ spec.callee_in names.now phrase.now }
{
    match phrase.first() {
        Some(node) => callee_of(names.role_of(node)),
        None => callee_of(None),
    }
}

fn take_callee(names: &ModuleNames<'_>, phrases: &mut Phrases<'_, '_>) -> Callee
    ensures callee { result ≡ spec.callee_in names.now (first phrases.old) }
    ensures rest { phrases.new ≡ behind phrases.old }
{
    match phrases.next() {
        Some(phrase) => callee_in(names, phrase),
        None => callee_of(None),
    }
}

/// Takes off what stands before a call's arguments.
pub fn take_head<'m, 's>(names: &ModuleNames<'_>, phrases: &mut Phrases<'m, 's>) -> Head<'m, 's>
    ensures head { result ≡ spec.head_of names.now phrases.old }
    ensures rest { phrases.new ≡ spec.arguments_in phrases.old }
{
    let result = call_result(phrases);
    match phrases.next() {
        Some(phrase) if is_written(phrase) => Head {
            result,
            written: Some(phrase),
            callee: take_callee(names, phrases),
        },
        Some(phrase) => Head {
            result,
            written: None,
            callee: callee_in(names, phrase),
        },
        None => Head {
            result,
            written: None,
            callee: callee_of(None),
        },
    }
}

fn is_ellipsis(node: &Node<'_>) -> bool
    ensures { result ≡ spec.is_ellipsis node.now.terminal }
{
    matches!(node.terminal, Terminal::Ellipsis)
}

/// Whether a call may write these types in brackets before its callee: those of the parameters, and `...` behind them
/// for a variadic one.
pub fn may_write(types: &[Node<'_>], parameters: &[Parameter], is_variadic: bool) -> bool
    ensures { result ≡ spec.may_write is_variadic types.now parameters.now }
{
    let mut rest = parameters;
    for node in types {
        let Some((parameter, behind)) = rest.split_first() else {
            return is_variadic && is_ellipsis(node);
        };
        if is_ellipsis(node) || !same_kind(kind_of(node), parameter.kind()) {
            return false;
        }
        rest = behind;
    }
    rest.is_empty() && !is_variadic
}
