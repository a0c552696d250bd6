//! Machines of small modules, turn by turn.

ghost use Rattle.std.specs.Prelude.{◌≡◌, ◌+◌, ◌<◌, ◌^◌, All, IfOk, length};
ghost use Rattle.machine_model.specs.Runnable.{HasSmallNumbers, IsRunnable};

use concrete_machine::{Machine, Pending, TurnEnd};
use ir_types::{
    Block, Extern, Function, GlobalVar, Input, Inst, ItemKind, Kind, List, Module, Operand, Site,
    Width, Word,
};
use rc_base::{NoMemory, Steps};
use run_types::OutItem;
use std::alloc::Global;
use std::marker::Brand;
use std::process::Abort;
use std::sync::ledger::{Blank, Ledger};
use std::test::Fail;

/// Where the only global lies.
pub const CELL: u64 = 4096;

/// The store of the thread that main makes.
pub const STORE: Site = Site {
    function: 1,
    inst: 1,
};

/// The threads that take turns, how each turn ends, what its thread waits to do then, which threads are
/// enabled then, and the steps that are left of 100.
static TURNS: [(u32, TurnEnd, Pending, &[u32], u32); 8] = [
    (0, TurnEnd::Going, Pending::Other, &[0], 99),
    (0, TurnEnd::Going, Pending::Other, &[1], 98),
    (
        1,
        TurnEnd::Going,
        Pending::Access {
            site: STORE,
            at: CELL,
            len: 4,
            store: true,
        },
        &[1],
        96,
    ),
    (1, TurnEnd::Going, Pending::Other, &[1], 95),
    (1, TurnEnd::Going, Pending::Ended, &[0], 94),
    (0, TurnEnd::Going, Pending::Other, &[0], 93),
    (0, TurnEnd::Going, Pending::Other, &[0], 91),
    (0, TurnEnd::Exit(0), Pending::Other, &[0], 90),
];

fn constant(number: u64) -> Operand {
    Operand::Constant(Word::truncated(Width::W64, number))
}

fn call(alloc: Global, which: Extern, numbers: &[u64]) -> Result<Inst, NoMemory> {
    let mut args = Vec::new(alloc);
    for number in numbers {
        args.push(constant(*number))?;
    }
    Ok(Inst::External {
        to: None,
        which,
        args: List { items: args },
    })
}

/// A function with one block and one register.
fn function_of(alloc: Global, insts: Vec<Inst>) -> Result<Function, NoMemory>
    requires { length insts.items < 2 ^ 32 }
    ensures { IfOk result (λ function. All HasSmallNumbers function.blocks) }
{
    let mut blocks = Vec::new(alloc);
    blocks.push(Block {
        first: 0,
        insts: List { items: insts },
    })?;
    Ok(Function {
        name: List::new(alloc),
        params: List::new(alloc),
        result: None,
        blocks: List { items: blocks },
        registers: List::from(Vec::from_slice(alloc, &[Kind::Int(Width::W32)])?),
    })
}

/// Makes a thread, joins it, prints the byte `A` and returns 0.
fn main_function(alloc: Global) -> Result<Function, NoMemory>
    ensures { IfOk result (λ function. All HasSmallNumbers function.blocks) }
{
    let mut insts = Vec::new(alloc);
    insts.push(call(alloc, Extern::Create { function: 1 }, &[CELL, 0, 0])?)?;
    insts.push(call(alloc, Extern::Join, &[1, 0])?)?;
    insts.push(call(alloc, Extern::Putchar, &[65])?)?;
    insts.push(Inst::Ret {
        value: Some(constant(0)),
    })?;
    function_of(alloc, insts)
}

/// Loads the global and stores it.
fn thread_function(alloc: Global) -> Result<Function, NoMemory>
    ensures { IfOk result (λ function. All HasSmallNumbers function.blocks) }
{
    let mut insts = Vec::new(alloc);
    insts.push(Inst::Load {
        to: 0,
        kind: Kind::Int(Width::W32),
        at: constant(CELL),
    })?;
    insts.push(Inst::Store {
        kind: Kind::Int(Width::W32),
        value: Operand::Register(0),
        at: constant(CELL),
    })?;
    insts.push(Inst::Ret { value: None })?;
    function_of(alloc, insts)
}

/// A module of these functions, of which the first is main, and the global.
fn module_of(alloc: Global, functions: Vec<Function>) -> Result<Module, NoMemory>
    requires { All (λ function. All HasSmallNumbers function.blocks) functions.items }
    ensures { IfOk result IsRunnable }
{
    let mut globals = Vec::new(alloc);
    globals.push(GlobalVar {
        name: List::new(alloc),
        size: 8,
        constant: false,
        base: CELL,
        image: List::from(Vec::from_slice(alloc, &[0; 8])?),
    })?;
    Ok(Module {
        globals: List { items: globals },
        functions: List { items: functions },
        main: 0,
    })
}

/// Two threads.
pub fn joining_module(alloc: Global) -> Result<Module, NoMemory>
    ensures { IfOk result IsRunnable }
{
    let mut functions = Vec::new(alloc);
    functions.push(main_function(alloc)?)?;
    functions.push(thread_function(alloc)?)?;
    module_of(alloc, functions)
}

pub fn empty_input(alloc: Global) -> Input {
    Input {
        slots: List::new(alloc),
    }
}

/// Asserts what each turn leaves.
fn take_turns<R: Abort, L: Ledger>(rt: &R, alloc: Global, blank: Blank) -> Result<(), Fail>
    requires name { blank.name ≡ L.name }
    requires parts { blank.parts ≡ L.parts }
    requires some { 0 < blank.parts }
{
    let code = joining_module(alloc)?;
    let input = empty_input(alloc);
    let mut steps = Steps::<L>::new(blank);
    let mut left = 100;
    let mut enabled = Vec::new(alloc);
    let mut machine = Machine::start(alloc, &code, &input)?;
    assert_eq!(rt; machine.pending(&code, 0), Pending::Start);
    assert_eq!(rt; machine.pending(&code, 1), Pending::Unborn);
    for (thread, end, pending, able, least) in TURNS.iter() {
        let (next, ended) = machine.turn(&code, &input, &[STORE], *thread, &mut left, &mut steps)?;
        machine = next;
        machine.list_enabled(&code, &mut enabled)?;
        assert_eq!(rt; ended, *end);
        assert_eq!(rt; machine.pending(&code, *thread), *pending);
        assert_eq!(rt; enabled.as_slice(), *able);
        assert_eq!(rt; left, *least);
    }
    let decided = [CELL, 1, 0, CELL, CELL];
    assert_eq!(rt; machine.decisions(), decided.as_slice());
    let byte = OutItem {
        kind: ItemKind::Byte,
        bits: 65,
    };
    let status = OutItem {
        kind: ItemKind::Status,
        bits: 0,
    };
    assert_eq!(rt; machine.output(), [byte, status].as_slice());
    Ok(())
}

#[test]
fn turns_are_taken(rt: HostRuntime) -> Result<(), Fail> {
    take_turns::<_, Brand>(&rt, rt.alloc(), Blank::new(1))
}

/// A turn of main.
fn turn_of_main<L: Ledger>(
    machine: Machine,
    code: &Module,
    input: &Input,
    steps: &mut Steps<L>,
) -> Result<Machine, NoMemory>
    requires { IsRunnable code.now }
{
    let mut left = 100;
    let (machine, _) = machine.turn(code, input, &[], 0, &mut left, steps)?;
    Ok(machine)
}

/// A turn of a fork leaves the machine as it was, and is the machine's own turn.
fn turn_forks<R: Abort, L: Ledger>(rt: &R, alloc: Global, blank: Blank) -> Result<(), Fail>
    requires name { blank.name ≡ L.name }
    requires parts { blank.parts ≡ L.parts }
    requires some { 0 < blank.parts }
{
    let code = joining_module(alloc)?;
    let input = empty_input(alloc);
    let mut steps = Steps::<L>::new(blank);
    let machine = Machine::start(alloc, &code, &input)?;
    let fork = machine.fork()?;
    assert!(rt; machine.same_state(&fork));
    let turned = turn_of_main(fork, &code, &input, &mut steps)?;
    assert!(rt; !machine.same_state(&turned));
    let machine = turn_of_main(machine, &code, &input, &mut steps)?;
    assert!(rt; machine.same_state(&turned));
    assert_eq!(rt; machine.output(), turned.output());
    Ok(())
}

#[test]
fn forks_take_the_same_turns(rt: HostRuntime) -> Result<(), Fail> {
    turn_forks::<_, Brand>(&rt, rt.alloc(), Blank::new(1))
}
