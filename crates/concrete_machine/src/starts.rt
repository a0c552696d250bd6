//! The state with which a run begins, and threads that are made.

ghost use Rattle.std.specs.Prelude.{◌≡◌, IfOk, length, map, slice_get};
ghost use Rattle.machine_model.specs.Code.{registers_of};
ghost use Rattle.machine_model.specs.Start.{kind_of, object_of_global, started};
ghost use Rattle.machine_model.specs.Thread.{entered, made};

use ir_types::{GlobalVar, List, Module};
use machine_model::{Frame, Object, ObjectKind, Operation, State, Thread};
use rc_base::NoMemory;
use std::alloc::Global;

/// How many registers a function has.
fn register_count(code: &Module, function: u32) -> usize
    ensures { result ≡ length (registers_of (slice_get code.now.functions function)) }
{
    match code.functions.items.get(function as usize) {
        Some(function) => function.registers.len(),
        None => 0,
    }
}

/// The first frame of a function.
fn enter(alloc: Global, code: &Module, function: u32, arguments: &[u64]) -> Result<Frame, NoMemory>
    ensures { IfOk result (λ frame. frame ≡ entered code.now function arguments.now) }
{
    let count = register_count(code, function).max(arguments.len());
    let mut registers = Vec::from_slice(alloc, arguments)?;
    registers.resize(count, 0)?;
    Ok(Frame {
        function,
        block: 0,
        place: 0,
        registers: List { items: registers },
        stack: List::new(alloc),
    })
}

/// A thread of a function with these arguments, whose start is pending.
pub fn make_thread(
    alloc: Global,
    code: &Module,
    function: u32,
    arguments: &[u64],
) -> Result<Thread, NoMemory>
    ensures { IfOk result (λ thread. thread ≡ made code.now function arguments.now) }
{
    let mut frames = Vec::new(alloc);
    frames.push(enter(alloc, code, function, arguments)?)?;
    Ok(Thread {
        frames: List { items: frames },
        pending: Operation::Start,
        ended: None,
        joined: false,
    })
}

fn kind_of(global: &GlobalVar) -> ObjectKind
    ensures { result ≡ kind_of global.now }
{
    if global.constant {
        ObjectKind::Constant
    } else {
        ObjectKind::Global
    }
}

/// The object of a global, which holds its initialiser.
fn make_object(alloc: Global, global: &GlobalVar) -> Result<Object, NoMemory>
    ensures { IfOk result (λ object. object ≡ object_of_global global.now) }
{
    let bytes = Vec::from_slice(alloc, &global.image.items)?;
    Ok(Object {
        base: global.base,
        size: global.size,
        maker: 0,
        kind: kind_of(global),
        live: true,
        bytes: List { items: bytes },
    })
}

/// The objects of globals, in order.
fn make_objects(alloc: Global, globals: &[GlobalVar]) -> Result<Vec<Object>, NoMemory>
    ensures { IfOk result (λ objects. objects.items ≡ map object_of_global globals.now) }
{
    let mut objects = Vec::new(alloc);
    for global in globals {
        objects.push(make_object(alloc, global)?)?;
    }
    Ok(objects)
}

/// The globals in text order, and main, whose start is pending.
pub fn start(alloc: Global, code: &Module) -> Result<State, NoMemory>
    ensures { IfOk result (λ state. state ≡ started code.now) }
{
    let mut threads = Vec::new(alloc);
    threads.push(make_thread(alloc, code, code.main, &[])?)?;
    Ok(State {
        threads: List { items: threads },
        objects: List {
            items: make_objects(alloc, &code.globals.items)?,
        },
        locks: List::new(alloc),
        conditions: List::new(alloc),
        output: List::new(alloc),
    })
}
