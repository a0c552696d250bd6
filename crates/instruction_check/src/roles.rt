//! What the names of a module and of a body stand for.

ghost use Rattle.std.specs.Prelude.{◌≡◌, ◌==◌};
ghost use Rattle.instruction_check.specs.Roles as spec;

use crate::literals::constant;
use external_calls::ExternalCall;
use ir_types::{Kind, Operand, Width};
use module_fault::{Cause, Found, lesser, unless};

/// What an `@` name stands for.
#[derive(Clone, Copy, Debug, PartialEq, Eq)]
pub enum GlobalRole {
    /// The global of the number, counted from 0 in the order of the text.
    Global(u32),
    /// The defined function of the number.
    Function(u32),
    /// A function that is declared alone, and the call that it is.
    Declared(Option<ExternalCall>),
}

/// What a `%` name of a body stands for.
#[derive(Clone, Copy, Debug, PartialEq, Eq)]
pub enum LocalRole {
    /// The register of the number. The result of an output call has one, and no use.
    Register {
        number: u32,
        kind: Kind,
        is_output: bool,
    },
    /// The block of the number.
    Block(u32),
    /// The result of a call that has none. The call is refused; uses aren't.
    Void,
}

/// Whether two kinds are one.
pub fn same_kind(one: Kind, other: Kind) -> bool
    ensures { result ≡ spec.same_kind one other }
{
    code_of(one) == code_of(other)
}

fn code_of(kind: Kind) -> u8
    ensures { result ≡ spec.code_of kind }
{
    match kind {
        Kind::Ptr => 0,
        Kind::Int(Width::W1) => 1,
        Kind::Int(Width::W8) => 2,
        Kind::Int(Width::W16) => 3,
        Kind::Int(Width::W32) => 4,
        Kind::Int(Width::W64) => 5,
    }
}

/// Whether two results are one, of which none is `void`'s.
pub fn same_result(one: Option<Kind>, other: Option<Kind>) -> bool
    ensures { result ≡ spec.same_result one other }
{
    result_code(one) == result_code(other)
}

fn result_code(given: Option<Kind>) -> u8
    ensures { result ≡ spec.result_code given }
{
    match given {
        Some(kind) => code_of(kind),
        None => 6,
    }
}

/// A kind where the other one is due.
pub fn unless_same(one: Kind, other: Kind) -> Option<Cause>
    ensures { result ≡ spec.unless_same one other }
{
    unless(same_kind(one, other), Cause::TypeMismatch)
}

/// An operand of the kind, of a name that stands for this.
pub fn register(kind: Kind, role: Option<LocalRole>) -> Found<Operand>
    ensures { result ≡ spec.register kind role }
{
    match role {
        Some(
            LocalRole::Register {
                number,
                kind: given,
                is_output,
            },
        ) => Found {
            value: Operand::Register(number),
            cause: lesser(
                unless_same(given, kind),
                unless(!is_output, Cause::Unsupported),
            ),
        },
        Some(LocalRole::Void) => Found {
            value: constant(kind, 0),
            cause: None,
        },
        Some(LocalRole::Block(_)) | None => Found {
            value: constant(kind, 0),
            cause: Some(Cause::UnknownName),
        },
    }
}

/// The number of the block, of a name that stands for this.
pub fn block(role: Option<LocalRole>) -> Found<u32>
    ensures { result ≡ spec.block role }
{
    match role {
        Some(LocalRole::Block(number)) => Found {
            value: number,
            cause: None,
        },
        Some(LocalRole::Register { .. } | LocalRole::Void) | None => Found {
            value: 0,
            cause: Some(Cause::UnknownName),
        },
    }
}

/// The number of the global, of a name that stands for this. A function's name is none of a value.
pub fn global(role: Option<GlobalRole>) -> Found<u32>
    ensures { result ≡ spec.global role }
{
    match role {
        Some(GlobalRole::Global(number)) => Found {
            value: number,
            cause: None,
        },
        Some(GlobalRole::Function(_) | GlobalRole::Declared(_)) | None => Found {
            value: 0,
            cause: Some(Cause::UnknownName),
        },
    }
}
