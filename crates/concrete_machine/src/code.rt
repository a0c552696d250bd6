//! The instruction at a place.

ghost use Rattle.std.specs.Prelude.{◌≡◌, OnSome, option_map};
ghost use Rattle.machine_model.specs.Code.{next_in};
ghost use Rattle.machine_model.specs.Runnable.{IsRunnable};
ghost use Rattle.machine_model.specs.Thread.{top};
ghost use Rattle.concrete_machine.specs.Code.{next_of, placed_of};
ghost use Rattle.concrete_machine.specs.Frame.{HasNext, HasRoom};

use crate::frame::top;
use ir_types::{Inst, Module, Site};
use machine_model::{Frame, Thread};

/// An instruction with its site.
#[derive(Drop)]
pub struct Placed<'m> {
    pub site: Site,
    pub inst: &'m Inst,
}

/// The next instruction of a frame.
#[tactic(auto, unfolding(machine_model::specs::Code::next_in))]
pub fn next_in<'m>(code: &'m Module, frame: &Frame) -> Option<Placed<'m>>
    requires { IsRunnable code.now }
    ensures value { option_map placed_of result ≡ next_in code.now frame.now }
    ensures next { OnSome result (HasNext frame.now) }
{
    let function = code.functions.items.get(frame.function as usize)?;
    let block = function.blocks.items.get(frame.block as usize)?;
    let inst = block.insts.items.get(frame.place as usize)?;
    Some(Placed {
        site: Site {
            function: frame.function,
            inst: block.first + frame.place,
        },
        inst,
    })
}

/// The next instruction of a thread.
pub fn next_of<'m>(code: &'m Module, thread: &Thread) -> Option<Placed<'m>>
    requires { IsRunnable code.now }
    ensures value { option_map placed_of result ≡ next_of code.now thread.now }
    ensures room { OnSome result (HasRoom (top thread.now)) }
{
    let frame = top(thread)?;
    next_in(code, frame)
}
