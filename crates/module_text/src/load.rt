//! The call that reads the module of a text.

ghost use Rattle.std.specs.Prelude.{◌≤◌, length, IfOk};
ghost use Rattle.machine_model.specs.Rows.{HasRows};
ghost use Rattle.machine_model.specs.Runnable.{IsRunnable};
ghost use Rattle.rc_base.specs.Failures.{Gives};
ghost use Rattle.module_text.specs.Loaded.{loaded_module};

use crate::beyond::first_beyond;
use crate::laws::modules_within_have_rows;
use ir_lex::MOST_BYTES;
use ir_read::{ModuleError, read_module};
use ir_types::Module;
use module_build::check_module;
use module_build::laws::modules_of_texts_can_be_run;
use rc_base::Failure;
use std::alloc::Global;

/// The module that a text spells, which the machine can run, or what is wrong with it first. An instruction that the
/// machine has no row for comes behind all other faults, as unsupported.
#[tactic(auto, unfolding(crate::specs::Loaded::loaded_module))]
pub fn load_module(alloc: Global, text: &[u8]) -> Result<Module, Failure<ModuleError>>
    requires { length text.now ≤ MOST_BYTES }
    ensures exact { Gives (λ code. code) result (loaded_module text.now) }
    ensures runnable { IfOk result IsRunnable }
    ensures rows { IfOk result HasRows }
{
    modules_of_texts_can_be_run();
    modules_within_have_rows();
    let raw = read_module(alloc, text)?;
    let code = check_module(alloc, &raw)?;
    match first_beyond(alloc, &raw, &code)? {
        Some(line) => Err(Failure::Refused(ModuleError::Unsupported { line })),
        None => Ok(code),
    }
}
