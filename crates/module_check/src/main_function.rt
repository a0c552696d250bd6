//! The function `main`.

ghost use Rattle.std.specs.Prelude.{◌≡◌};
ghost use Rattle.module_check.specs.MainFunction as spec;

use external_calls::Parameter;
use instruction_check::{GlobalRole, ModuleNames, Signature};
use ir_types::{Kind, Width};
use module_fault::{Cause, unless};

/// What is wrong with a defined function of the name: that it is `main`, and neither `i32 ()` nor `i32 (i32, ptr)`.
pub fn main_cause(name: &[u8], signature: &Signature) -> Option<Cause>
    ensures { result ≡ spec.main_cause name.now signature.now }
{
    let is_other = name != "main".as_bytes();
    unless(is_other || is_main(signature), Cause::BadShape)
}

fn is_main(signature: &Signature) -> bool
    ensures { result ≡ spec.is_main signature.now }
{
    is_int(signature.result) && has_main_parameters(signature.parameters.as_slice())
}

fn is_int(kind: Option<Kind>) -> bool
    ensures { result ≡ spec.is_int kind }
{
    matches!(kind, Some(Kind::Int(Width::W32)))
}

fn has_main_parameters(parameters: &[Parameter]) -> bool
    ensures { result ≡ spec.has_main_parameters parameters.now }
{
    match parameters {
        [] => true,
        [count, words] => are_words(*count, *words),
        _ => false,
    }
}

fn are_words(count: Parameter, words: Parameter) -> bool
    ensures { result ≡ spec.are_words count words }
{
    match (count, words) {
        (Parameter::Value(Kind::Int(Width::W32)), Parameter::Value(Kind::Ptr)) => true,
        _ => false,
    }
}

/// The number of the function `main`, where the module defines one.
pub fn main_of(names: &ModuleNames<'_>) -> Option<u32>
    ensures { result ≡ spec.main_of names.now }
{
    let number = names.table.number("main".as_bytes())?;
    function_in(names.roles.items.get(number).copied())
}

fn function_in(role: Option<GlobalRole>) -> Option<u32>
    ensures { result ≡ spec.function_in role }
{
    match role {
        Some(GlobalRole::Function(number)) => Some(number),
        _ => None,
    }
}
