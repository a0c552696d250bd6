//! Calls of functions and of external calls.

ghost use Rattle.std.specs.Prelude.{◌≡◌, ◌++◌, slice_get, IfOk, OnOk, option_map};
ghost use Rattle.std.specs.List.{filter_map};
ghost use Rattle.call_check.specs.Call as spec;
ghost use Rattle.instruction_check.specs.Phrases.{second};

use crate::arguments::{Arguments, arguments_of, is_global};
use crate::callee::{Callee, Head, may_write, take_head};
use external_calls::{ExternalCall, Parameter, argument_kind, read_format};
use instruction_check::{GlobalRole, ModuleNames, Scope, StringText, same_result};
use ir_items::{Phrases, inside};
use ir_read::{Node, bytes_of_string};
use ir_types::{Extern, Inst, Kind, List, Piece, Width};
use module_fault::{Cause, Found, lesser, unless};
use rc_base::NoMemory;
use std::alloc::Global;

// ---- formats

/// The pieces of the format that a constant's string is; none where it isn't one that is served.
fn pieces_in(alloc: Global, text: &[u8]) -> Result<Option<List<Piece>>, NoMemory>
    ensures { IfOk result (λ found. found ≡ spec.pieces_in text.now) }
{
    let bytes = bytes_of_string(alloc, text)?;
    read_format(alloc, &bytes)
}

fn string_of<'s>(names: &ModuleNames<'s>, node: &Node<'_>) -> Option<&'s [u8]>
    ensures { option_map (λ text. text.now) result ≡ spec.string_of names.now node.now }
{
    match names.role_of(node) {
        Some(GlobalRole::Global(number)) => text_at(&names.strings.items, number as usize),
        _ => None,
    }
}

fn text_at<'s>(strings: &[StringText<'s>], number: usize) -> Option<&'s [u8]>
    ensures { option_map (λ text. text.now) result ≡ slice_get strings.now number }
{
    match strings.get(number) {
        Some(string) => Some(string.text),
        None => None,
    }
}

/// The format of the constant that a node names.
fn format_of(
    names: &ModuleNames<'_>,
    alloc: Global,
    node: &Node<'_>,
) -> Result<Option<List<Piece>>, NoMemory>
    ensures { IfOk result (λ found. found ≡ spec.format_of names.now node.now) }
{
    match string_of(names, node) {
        Some(text) => pieces_in(alloc, text),
        None => Ok(None),
    }
}

fn format_in(
    names: &ModuleNames<'_>,
    alloc: Global,
    phrase: &[Node<'_>],
) -> Result<Option<List<Piece>>, NoMemory>
    ensures { IfOk result (λ found. found ≡ spec.format_in names.now phrase.now) }
{
    match phrase.first() {
        Some(node) if is_global(node) => format_of(names, alloc, node),
        _ => Ok(None),
    }
}

/// The format of the first of the arguments.
fn take_format(
    names: &ModuleNames<'_>,
    alloc: Global,
    arguments: &mut Phrases<'_, '_>,
) -> Result<Option<List<Piece>>, NoMemory>
    ensures { IfOk result (λ found. found ≡ spec.format_in names.now (second arguments.old)) }
{
    let _written = arguments.next();
    match arguments.next() {
        Some(phrase) => format_in(names, alloc, phrase),
        None => Ok(None),
    }
}

/// The pieces of the format in the first of a variadic call's arguments; no pieces of another call.
fn take_pieces(
    alloc: Global,
    names: &ModuleNames<'_>,
    callee: Callee,
    arguments: &mut Phrases<'_, '_>,
) -> Result<Option<List<Piece>>, NoMemory>
    ensures { IfOk result (λ found. found ≡ spec.pieces_for names.now callee arguments.old) }
{
    if is_variadic(callee) {
        take_format(names, alloc, arguments)
    } else {
        Ok(Some(List {
            items: Vec::new(alloc),
        }))
    }
}

fn is_variadic(callee: Callee) -> bool
    ensures { result ≡ spec.is_variadic callee }
{
    match callee {
        Callee::External(call) => call.is_variadic(),
        Callee::Function(_) | Callee::Refused(_) => false,
    }
}

// ---- parameters

/// The parameters of a call whose arguments after the format are for its pieces.
fn push_pieces(parameters: &mut Vec<Parameter>, pieces: &[Piece]) -> Result<(), NoMemory>
    ensures { OnOk result (parameters.new.items ≡ parameters.old.items ++ spec.parameters_in pieces.now) }
{
    for piece in pieces {
        if let Some(kind) = argument_kind(piece) {
            parameters.push(Parameter::Value(kind))?;
        }
    }
    Ok(())
}

fn external_parameters(
    alloc: Global,
    call: ExternalCall,
    pieces: &Option<List<Piece>>,
) -> Result<List<Parameter>, NoMemory>
    ensures { IfOk result (λ found. found ≡ spec.external_parameters call pieces.now) }
{
    let mut parameters = Vec::from_slice(alloc, call.parameters())?;
    if let Some(pieces) = pieces {
        push_pieces(&mut parameters, &pieces.items)?;
    }
    Ok(List { items: parameters })
}

fn function_parameters(
    names: &ModuleNames<'_>,
    alloc: Global,
    number: u32,
) -> Result<List<Parameter>, NoMemory>
    ensures { IfOk result (λ found. found ≡ spec.function_parameters names.now number) }
{
    match names.signatures.items.get(number as usize) {
        Some(signature) => Ok(List {
            items: Vec::from_slice(alloc, &signature.parameters.items)?,
        }),
        None => Ok(List {
            items: Vec::new(alloc),
        }),
    }
}

fn parameters_of(
    names: &ModuleNames<'_>,
    alloc: Global,
    callee: Callee,
    pieces: &Option<List<Piece>>,
) -> Result<List<Parameter>, NoMemory>
    ensures { IfOk result (λ found. found ≡ spec.parameters_of names.now callee pieces.now) }
{
    match callee {
        Callee::Function(number) => function_parameters(names, alloc, number),
        Callee::External(call) => external_parameters(alloc, call, pieces),
        Callee::Refused(_) => Ok(List {
            items: Vec::new(alloc),
        }),
    }
}

/// What a call of it gives; of what can't be called what the call says.
fn due_result(names: &ModuleNames<'_>, callee: Callee, written: Option<Kind>) -> Option<Kind>
    ensures { result ≡ spec.due_result names.now callee written }
{
    match callee {
        Callee::Function(number) => function_result(names, number),
        Callee::External(call) => call.result(),
        Callee::Refused(_) => written,
    }
}

fn function_result(names: &ModuleNames<'_>, number: u32) -> Option<Kind>
    ensures { result ≡ spec.function_result names.now number }
{
    match names.signatures.items.get(number as usize) {
        Some(signature) => signature.result,
        None => None,
    }
}

// ---- what a call becomes

fn printf(pieces: Option<List<Piece>>, alloc: Global) -> Extern
    ensures { result ≡ spec.printf pieces }
{
    match pieces {
        Some(pieces) => Extern::Printf { pieces },
        None => Extern::Printf {
            pieces: List {
                items: Vec::new(alloc),
            },
        },
    }
}

fn extern_of(alloc: Global, call: ExternalCall, held: u32, pieces: Option<List<Piece>>) -> Extern
    ensures { result ≡ spec.extern_of call held pieces }
{
    match call {
        ExternalCall::Create => Extern::Create { function: held },
        ExternalCall::Printf => printf(pieces, alloc),
        ExternalCall::Input8 => Extern::Input {
            slot: held,
            width: Width::W8,
        },
        ExternalCall::Input16 => Extern::Input {
            slot: held,
            width: Width::W16,
        },
        ExternalCall::Input32 => Extern::Input {
            slot: held,
            width: Width::W32,
        },
        ExternalCall::Input64 => Extern::Input {
            slot: held,
            width: Width::W64,
        },
        _ => call.to_extern().unwrap_or(Extern::Abort),
    }
}

/// The instruction of a call, where it can be called.
fn called(
    alloc: Global,
    to: Option<u32>,
    callee: Callee,
    pieces: Option<List<Piece>>,
    arguments: Arguments,
) -> Inst
    ensures { result ≡ spec.called to callee pieces arguments }
{
    match callee {
        Callee::Function(function) => Inst::Call {
            to,
            function,
            args: arguments.operands,
        },
        Callee::External(call) => Inst::External {
            to,
            which: extern_of(alloc, call, arguments.held, pieces),
            args: arguments.operands,
        },
        Callee::Refused(_) => Inst::Unreachable,
    }
}

// ---- what is wrong with a call

fn refusal_of(callee: Callee) -> Option<Cause>
    ensures { result ≡ spec.refusal_of callee }
{
    match callee {
        Callee::Refused(cause) => Some(cause),
        Callee::Function(_) | Callee::External(_) => None,
    }
}

/// Whether a call may write these types before its callee.
fn fits_by(names: &ModuleNames<'_>, callee: Callee, types: &[Node<'_>]) -> bool
    ensures { result ≡ spec.fits_by names.now callee types.now }
{
    match callee {
        Callee::Function(number) => match names.signatures.items.get(number as usize) {
            Some(signature) => may_write(types, &signature.parameters.items, false),
            None => may_write(types, &[], false),
        },
        Callee::External(call) => may_write(types, call.parameters(), call.is_variadic()),
        Callee::Refused(_) => true,
    }
}

/// What is wrong before a call's arguments.
fn head_cause(names: &ModuleNames<'_>, head: &Head<'_, '_>, is_named: bool) -> Option<Cause>
    ensures { result ≡ spec.head_cause names.now head.now is_named }
{
    let due = due_result(names, head.callee, head.result);
    let fits = same_result(head.result, due)
        && (!is_named || head.result.is_some())
        && fits_written(names, head);
    lesser(refusal_of(head.callee), unless(fits, Cause::TypeMismatch))
}

/// The call of these parts.
fn finished(
    names: &ModuleNames<'_>,
    alloc: Global,
    to: u32,
    is_named: bool,
    head: Head<'_, '_>,
    pieces: Option<List<Piece>>,
    arguments: Arguments,
) -> Found<Inst>
    ensures { result ≡ spec.finished names.now to is_named head.entry pieces arguments }
{
    let format = unless(pieces.is_some(), Cause::Unsupported);
    let cause = lesser(
        head_cause(names, &head, is_named),
        lesser(format, arguments.cause),
    );
    let to = target(head.result, to);
    Found {
        value: called(alloc, to, head.callee, pieces, arguments),
        cause,
    }
}

fn fits_written(names: &ModuleNames<'_>, head: &Head<'_, '_>) -> bool
    ensures { result ≡ spec.fits_written names.now head.now }
{
    match head.written {
        Some(types) => fits_by(names, head.callee, inside(types)),
        None => true,
    }
}

/// Whether further arguments are good: where the format isn't known, and of what can't be called.
fn is_open(callee: Callee, pieces: &Option<List<Piece>>) -> bool
    ensures { result ≡ spec.is_open callee pieces.now }
{
    pieces.is_none() || refusal_of(callee).is_some()
}

/// The register that a call sets, where it gives something.
fn target(given: Option<Kind>, to: u32) -> Option<u32>
    ensures { result ≡ spec.target given to }
{
    match given {
        Some(_) => Some(to),
        None => None,
    }
}

/// `TYPE CALLEE(TYPE OPERAND, ..)`, with the types of the parameters before the callee or without.
#[tactic(auto, using(crate::proofs::Parts::call_is))]
pub fn call<'s>(
    scope: &Scope<'_, '_, 's>,
    alloc: Global,
    to: u32,
    is_named: bool,
    operands: &[Node<'s>],
) -> Result<Found<Inst>, NoMemory>
    ensures { IfOk result (λ found. found ≡ spec.call scope.now to is_named operands.now) }
{
    let names = scope.names;
    let mut ahead = Phrases::new(operands);
    let head = take_head(names, &mut ahead);
    let pieces = take_pieces(alloc, names, head.callee, &mut ahead)?;
    let mut phrases = Phrases::new(operands);
    let _head = take_head(names, &mut phrases);
    let arguments = arguments_for(scope, alloc, head.callee, &pieces, &mut phrases)?;
    Ok(finished(names, alloc, to, is_named, head, pieces, arguments))
}

/// The arguments of a call whose format, if it has one, has these pieces.
fn arguments_for<'s>(
    scope: &Scope<'_, '_, 's>,
    alloc: Global,
    callee: Callee,
    pieces: &Option<List<Piece>>,
    phrases: &mut Phrases<'_, 's>,
) -> Result<Arguments, NoMemory>
    ensures { IfOk result (λ found. found ≡ spec.arguments_for scope.now callee pieces.now phrases.old) }
{
    let names = scope.names;
    let parameters = parameters_of(names, alloc, callee, pieces)?;
    let found = arguments_of(scope, alloc, &parameters, is_open(callee, pieces), phrases)?;
    Ok(found)
}
