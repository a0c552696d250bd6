//! Which instructions the machine runs.

ghost use Rattle.std.specs.Prelude.{◌≡◌};
ghost use Rattle.machine_model.specs.Rows as spec;

use ir_types::{Extern, Inst, Module};

/// Whether the machine has a row for the instruction.
#[tactic(auto, unfolding(crate::specs::Rows::has_row))]
pub fn has_row(code: &Module, inst: &Inst) -> bool
    ensures { result ≡ spec.has_row code.now inst.now }
{
    match inst {
        Inst::Binary { .. } | Inst::Load { .. } | Inst::Store { .. } | Inst::Ret { .. } => true,
        Inst::External { which, .. } => has_row_of_call(code, which),
        _ => false,
    }
}

/// Whether the machine has a row for the call.
#[tactic(auto, unfolding(crate::specs::Rows::has_row_of_call))]
fn has_row_of_call(code: &Module, which: &Extern) -> bool
    ensures { result ≡ spec.has_row_of_call code.now which.now }
{
    match which {
        Extern::Create { function } => (*function as usize) < code.functions.len(),
        Extern::Join | Extern::Putchar => true,
        _ => false,
    }
}
