//! The frame of a thread that runs.

ghost use Rattle.std.specs.Prelude.{◌≡◌, IfSome, IsSome, Some, option_map};
ghost use Rattle.machine_model.specs.Thread.{moved_on, moved_on_with, top, with_top};
ghost use Rattle.concrete_machine.specs.Frame.{HasNext};

use machine_model::{Frame, Thread};

/// The frame that runs. A thread that has ended has none.
pub fn top(thread: &Thread) -> Option<&Frame>
    ensures { option_map (λ frame. frame.now) result ≡ top thread.now }
{
    thread.frames.items.last()
}

/// The frame that runs, of a thread that has one.
pub fn running(thread: &Thread) -> &Frame
    requires { IsSome (top thread.now) }
    ensures { top thread.now ≡ Some result.now }
{
    let frames = thread.frames.items.as_slice();
    &frames[frames.len() - 1]
}

/// Goes on to the next instruction.
fn go_on(frame: &mut Frame)
    requires { HasNext frame.old }
    ensures { frame.new ≡ moved_on frame.old }
{
    frame.place += 1;
}

/// Sets a register and goes on to the next instruction.
fn set_and_go_on(frame: &mut Frame, register: u32, number: u64)
    requires { HasNext frame.old }
    ensures { frame.new ≡ moved_on_with frame.old register number }
{
    let register = register as usize;
    if register < frame.registers.items.len() {
        frame.registers.items[register] = number;
    }
    frame.place += 1;
}

/// The frame that runs goes on to its next instruction.
pub fn pass(thread: &mut Thread)
    requires frame { IsSome (top thread.old) }
    requires next { IfSome (top thread.old) HasNext }
    ensures { (frame : Frame) → top thread.old ≡ Some frame → thread.new ≡ with_top thread.old (moved_on frame) }
{
    let last = thread.frames.items.len() - 1;
    go_on(&mut thread.frames.items[last]);
}

/// The frame that runs sets a register and goes on to its next instruction.
pub fn set(thread: &mut Thread, register: u32, number: u64)
    requires frame { IsSome (top thread.old) }
    requires next { IfSome (top thread.old) HasNext }
    ensures { (frame : Frame) → top thread.old ≡ Some frame →
        thread.new ≡ with_top thread.old (moved_on_with frame register number) }
{
    let last = thread.frames.items.len() - 1;
    set_and_go_on(&mut thread.frames.items[last], register, number);
}
