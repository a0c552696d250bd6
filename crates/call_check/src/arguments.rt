//! The arguments of a call, by the parameters that they are for.

ghost use Rattle.std.specs.Prelude.{◌≡◌, [], ◌∷◌, drop, None, IfOk};
ghost use Rattle.call_check.specs.Arguments as spec;

use external_calls::Parameter;
use instruction_check::{
    GlobalRole, ModuleNames, Scope, Signature, kind_in, same_result, take_pair, unless_same,
};
use ir_items::Phrases;
use ir_read::{Node, Terminal};
use ir_types::{Kind, List, Operand};
use module_fault::{Cause, Found, lesser, unless};
use rc_base::NoMemory;
use std::alloc::Global;

/// What an argument becomes.
#[derive(Clone, Copy, Debug)]
pub enum Argument {
    /// An operand of the call's instruction.
    Value(Operand),
    /// What the call itself holds: the number of a function that a thread starts, or of a slot; 0 for a format.
    Held(u32),
}

/// The arguments of a call.
#[derive(Debug, Drop)]
pub struct Arguments {
    pub operands: List<Operand>,
    /// What the call itself holds.
    pub held: u32,
    pub cause: Option<Cause>,
}

/// Whether a thread can start with a function of the signature, which is `ptr (ptr)`.
fn is_start_routine(signature: &Signature) -> bool
    ensures { result ≡ spec.is_start_routine signature.now }
{
    same_result(signature.result, Some(Kind::Ptr)) && is_one_pointer(&signature.parameters.items)
}

fn is_one_pointer(parameters: &[Parameter]) -> bool
    ensures { result ≡ spec.is_one_pointer parameters.now }
{
    match parameters {
        [Parameter::Value(Kind::Ptr)] => true,
        _ => false,
    }
}

pub fn is_global(node: &Node<'_>) -> bool
    ensures { result ≡ spec.is_global node.now.terminal }
{
    matches!(node.terminal, Terminal::Global | Terminal::OddGlobal)
}

/// A number, or `zeroinitializer`.
fn is_number(node: &Node<'_>) -> bool
    ensures { result ≡ spec.is_number node.now.terminal node.now.text }
{
    match node.terminal {
        Terminal::Natural | Terminal::Negative => true,
        Terminal::LiteralWord => node.text == "zeroinitializer".as_bytes(),
        _ => false,
    }
}

/// The number of a slot, modulo 2^32.
fn slot_of(node: &Node<'_>) -> u32
    ensures { result ≡ spec.slot_of node.now.text }
{
    (node.literal().unwrap_or(0) % 4_294_967_296) as u32
}

/// The function of the name, where a thread can start with it.
fn start_routine(names: &ModuleNames<'_>, node: &Node<'_>) -> Found<Argument>
    ensures { result ≡ spec.routine_of names.now node.now }
{
    match names.role_of(node) {
        Some(GlobalRole::Function(number)) => Found {
            value: Argument::Held(number),
            cause: unless(can_start(names, number), Cause::TypeMismatch),
        },
        Some(GlobalRole::Global(_) | GlobalRole::Declared(_)) => Found {
            value: Argument::Held(0),
            cause: Some(Cause::TypeMismatch),
        },
        None => Found {
            value: Argument::Held(0),
            cause: Some(Cause::UnknownName),
        },
    }
}

fn can_start(names: &ModuleNames<'_>, number: u32) -> bool
    ensures { result ≡ spec.can_start names.now number }
{
    match names.signatures.items.get(number as usize) {
        Some(signature) => is_start_routine(signature),
        None => false,
    }
}

/// The arguments of a call, in order. Further ones than the parameters are good where `is_open`.
pub fn arguments_of<'s>(
    scope: &Scope<'_, '_, 's>,
    alloc: Global,
    parameters: &List<Parameter>,
    is_open: bool,
    phrases: &mut Phrases<'_, 's>,
) -> Result<Arguments, NoMemory>
    ensures { IfOk result (λ found. found ≡ spec.arguments_of scope.now is_open parameters.now phrases.old) }
{
    let mut operands = Vec::new(alloc);
    let mut held = 0;
    let mut cause = None;
    let mut rest = &parameters.items[..];
    while let Some((written, phrase)) = take_pair(phrases) {
        let found = argument_for(scope, alloc, rest, is_open, kind_in(written), phrase)?;
        cause = lesser(cause, found.cause);
        match found.value {
            Argument::Value(operand) => operands.push(operand)?,
            Argument::Held(number) => held = number,
        }
        rest = behind_first(rest);
    }
    Ok(Arguments {
        operands: List { items: operands },
        held,
        cause: lesser(cause, unless(rest.is_empty(), Cause::TypeMismatch)),
    })
}

/// An argument for the first of the parameters.
fn argument_for<'s>(
    scope: &Scope<'_, '_, 's>,
    alloc: Global,
    parameters: &[Parameter],
    is_open: bool,
    written: Kind,
    phrase: &[Node<'s>],
) -> Result<Found<Argument>, NoMemory>
    ensures { IfOk result (λ found. found ≡ spec.argument_for scope.now is_open parameters.now written phrase.now) }
{
    match parameters.first() {
        Some(parameter) => argument_of(scope, alloc, *parameter, written, phrase),
        None => further(scope, alloc, is_open, written, phrase),
    }
}

fn argument_of<'s>(
    scope: &Scope<'_, '_, 's>,
    alloc: Global,
    parameter: Parameter,
    written: Kind,
    phrase: &[Node<'s>],
) -> Result<Found<Argument>, NoMemory>
    ensures { IfOk result (λ found. found ≡ spec.argument scope.now parameter written phrase.now) }
{
    let found = taken(scope, alloc, parameter, written, phrase)?;
    Ok(Found {
        value: found.value,
        cause: lesser(unless_same(written, parameter.kind()), found.cause),
    })
}

fn taken<'s>(
    scope: &Scope<'_, '_, 's>,
    alloc: Global,
    parameter: Parameter,
    written: Kind,
    phrase: &[Node<'s>],
) -> Result<Found<Argument>, NoMemory>
    ensures { IfOk result (λ found. found ≡ spec.taken scope.now parameter written phrase.now) }
{
    match parameter {
        Parameter::Value(_) => value(scope, alloc, written, phrase),
        Parameter::StartRoutine => routine(scope, alloc, written, phrase),
        Parameter::Format => held(scope, alloc, 0, None, written, phrase),
        Parameter::Slot => slot(scope, alloc, written, phrase),
    }
}

fn further<'s>(
    scope: &Scope<'_, '_, 's>,
    alloc: Global,
    is_open: bool,
    written: Kind,
    phrase: &[Node<'s>],
) -> Result<Found<Argument>, NoMemory>
    ensures { IfOk result (λ found. found ≡ spec.further scope.now is_open written phrase.now) }
{
    let found = value(scope, alloc, written, phrase)?;
    Ok(Found {
        value: found.value,
        cause: lesser(unless(is_open, Cause::TypeMismatch), found.cause),
    })
}

fn value<'s>(
    scope: &Scope<'_, '_, 's>,
    alloc: Global,
    written: Kind,
    phrase: &[Node<'s>],
) -> Result<Found<Argument>, NoMemory>
    ensures { IfOk result (λ found. found ≡ spec.value scope.now written phrase.now) }
{
    let found = scope.operand(alloc, written, phrase)?;
    Ok(Found {
        value: Argument::Value(found.value),
        cause: found.cause,
    })
}

/// What a call holds in place of the operand.
fn held<'s>(
    scope: &Scope<'_, '_, 's>,
    alloc: Global,
    number: u32,
    cause: Option<Cause>,
    written: Kind,
    phrase: &[Node<'s>],
) -> Result<Found<Argument>, NoMemory>
    ensures { IfOk result (λ found. found ≡ spec.held scope.now number cause written phrase.now) }
{
    let found = scope.operand(alloc, written, phrase)?;
    Ok(Found {
        value: Argument::Held(number),
        cause: lesser(found.cause, cause),
    })
}

fn routine<'s>(
    scope: &Scope<'_, '_, 's>,
    alloc: Global,
    written: Kind,
    phrase: &[Node<'s>],
) -> Result<Found<Argument>, NoMemory>
    ensures { IfOk result (λ found. found ≡ spec.routine scope.now written phrase.now) }
{
    let names = scope.names;
    match phrase.first() {
        Some(node) if is_global(node) => Ok(start_routine(names, node)),
        _ => held(scope, alloc, 0, Some(Cause::TypeMismatch), written, phrase),
    }
}

fn slot<'s>(
    scope: &Scope<'_, '_, 's>,
    alloc: Global,
    written: Kind,
    phrase: &[Node<'s>],
) -> Result<Found<Argument>, NoMemory>
    ensures { IfOk result (λ found. found ≡ spec.slot scope.now written phrase.now) }
{
    match phrase.first() {
        Some(node) if is_number(node) => held(scope, alloc, slot_of(node), None, written, phrase),
        _ => held(scope, alloc, 0, Some(Cause::Unsupported), written, phrase),
    }
}

fn behind_first(parameters: &[Parameter]) -> &[Parameter]
    ensures { result.now ≡ drop 1 parameters.now }
{
    match parameters.split_first() {
        Some((_, behind)) => behind,
        None => parameters,
    }
}
