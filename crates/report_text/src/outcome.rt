//! How a run ended.

ghost use Rattle.std.specs.Prelude.{◌≡◌, ◌++◌, OnOk};
ghost use Rattle.report_text.specs.Outcome.{function_name, outcome_text, trap_name};

use crate::numbers::push_decimal;
use ir_types::{Module, Site};
use run_types::{Outcome, Trap};
use std::alloc::AllocError;

/// Appends how a run of the module ended.
pub fn push_outcome(text: &mut Vec<u8>, outcome: Outcome, module: &Module) -> Result<(), AllocError>
    ensures { OnOk result (text.new.items ≡ text.old.items ++ outcome_text «module».now outcome) }
{
    match outcome {
        Outcome::Exit { status } => {
            text.extend_from_slice(b"exit ")?;
            push_decimal(text, u64::from(status))
        }
        Outcome::Trap { trap, thread, site } => push_trap(text, trap, thread, site, module),
        Outcome::Deadlock => text.extend_from_slice(b"deadlock"),
        Outcome::Repeats { turn, earlier } => {
            text.extend_from_slice(b"repeats ")?;
            push_decimal(text, u64::from(turn))?;
            text.extend_from_slice(b" ")?;
            push_decimal(text, u64::from(earlier))
        }
        Outcome::Spent => text.extend_from_slice(b"spent"),
    }
}

fn push_trap(
    text: &mut Vec<u8>,
    trap: Trap,
    thread: u32,
    site: Site,
    module: &Module,
) -> Result<(), AllocError>
    ensures { OnOk result (text.new.items
        ≡ text.old.items ++ outcome_text «module».now (Outcome.Trap trap thread site)) }
{
    text.extend_from_slice(b"trap ")?;
    text.extend_from_slice(name(trap).as_bytes())?;
    text.extend_from_slice(b" ")?;
    push_decimal(text, u64::from(thread))?;
    text.extend_from_slice(b" ")?;
    text.extend_from_slice(function_name(module, site.function))?;
    text.extend_from_slice(b" ")?;
    push_decimal(text, u64::from(site.inst))
}

fn name(trap: Trap) -> &'static str
    ensures { result.now ≡ trap_name trap }
{
    match trap {
        Trap::DivZero => "DivZero",
        Trap::DivOverflow => "DivOverflow",
        Trap::Overshift => "Overshift",
        Trap::BadAddress => "BadAddress",
        Trap::ReadOnly => "ReadOnly",
        Trap::BadFree => "BadFree",
        Trap::NotOwner => "NotOwner",
        Trap::BadLock => "BadLock",
        Trap::BadJoin => "BadJoin",
        Trap::Unreachable => "Unreachable",
        Trap::Abort => "Abort",
        Trap::Assert => "Assert",
        Trap::FrameLimit => "FrameLimit",
        Trap::MemoryLimit => "MemoryLimit",
    }
}

/// The name of a function of the module, empty where the module has no such function.
fn function_name(module: &Module, number: u32) -> &[u8]
    ensures { result.now ≡ function_name «module».now number }
{
    match module.functions.as_slice().get(number as usize) {
        Some(function) => function.name.as_slice(),
        None => &[],
    }
}
