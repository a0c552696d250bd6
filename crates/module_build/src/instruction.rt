//! An instruction of a body, by its word.

ghost use Rattle.std.specs.Prelude.{◌≡◌, IfOk};
ghost use Rattle.module_build.specs.Instruction as spec;

use call_check::call;
use instruction_check::{Scope, binary_of, cast_of};
use ir_items::{Phrases, Statement};
use ir_read::Terminal;
use ir_types::Inst;
use module_fault::{Cause, Found};
use rc_base::NoMemory;
use std::alloc::Global;

/// The instruction that a statement is which is no label. What sets a register sets the one of the number `to`.
pub fn instruction<'m, 's>(
    alloc: Global,
    scope: &Scope<'_, 'm, 's>,
    to: u32,
    statement: &Statement<'m, 's>,
) -> Result<Found<Inst>, NoMemory>
    ensures { IfOk result (λ found. found ≡ spec.instruction scope.now to statement.now) }
{
    let operation = statement.operation;
    let word = operation.text;
    let mut phrases = Phrases::new(statement.operands);
    match operation.terminal {
        Terminal::Binary => scope.binary(alloc, to, binary_of(word), &mut phrases),
        Terminal::Icmp => scope.compare(alloc, to, &mut phrases),
        Terminal::Cast | Terminal::IntToPtr => scope.convert(
            alloc,
            to,
            cast_of(word),
            &mut phrases,
        ),
        Terminal::Select => scope.select(alloc, to, &mut phrases),
        Terminal::Phi => {
            let found = scope.phi(alloc, to, &mut phrases)?;
            Ok(found)
        }
        Terminal::Alloca => scope.alloca(alloc, to, &mut phrases),
        Terminal::Load => scope.load(alloc, to, &mut phrases),
        Terminal::Store => scope.store(alloc, &mut phrases),
        Terminal::GetElementPtr => scope.element(alloc, to, &mut phrases),
        Terminal::Br => scope.branch(alloc, &mut phrases),
        Terminal::Switch => {
            let found = scope.switch(alloc, &mut phrases)?;
            Ok(found)
        }
        Terminal::Ret => scope.ret(alloc, &mut phrases),
        Terminal::Call => {
            let is_named = statement.result.is_some();
            let found = call(scope, alloc, to, is_named, statement.operands)?;
            Ok(found)
        }
        Terminal::Unreachable => Ok(Found {
            value: Inst::Unreachable,
            cause: None,
        }),
        _ => Ok(Found {
            value: Inst::Unreachable,
            cause: Some(Cause::BadShape),
        }),
    }
}
