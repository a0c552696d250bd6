//! Case texts, read for a small module.

use case_text::{CaseError, read_case};
use ir_types::{Block, Function, Inst, Kind, List, Module, Operand, Site, Width};
use rc_base::Failure;
use std::alloc::{AllocError, Global};
use std::test::Fail;

const HEAD: &str =
    "portend-case 1\nseed 18446744073709551615\nsteps 200000\nvisits 83\npaths 1\nschedules 1\n";

/// Lines behind the head, with the watched sites, the turns and the races that they give.
static ACCEPTED: [(&str, &[Site], &[u8], &[(u32, u32)]); 4] = [
    ("end\n", &[], &[], &[]),
    (
        "watch b.2 2\nwatch a 2\nwatch a 0\nturn 15 0*3\nturn 7*1 0\nrace 4294967295 0\nend\n",
        &[
            Site {
                function: 1,
                inst: 2,
            },
            Site {
                function: 0,
                inst: 2,
            },
            Site {
                function: 0,
                inst: 0,
            },
        ],
        &[15, 0, 0, 0, 7, 0],
        &[(4_294_967_295, 0)],
    ),
    ("race 6 7\nend\n", &[], &[], &[(6, 7)]),
    (
        "watch b.2 0\nend\n",
        &[Site {
            function: 1,
            inst: 0,
        }],
        &[],
        &[],
    ),
];

fn load() -> Inst {
    Inst::Load {
        to: 0,
        kind: Kind::Int(Width::W32),
        at: Operand::Register(0),
    }
}

fn store() -> Inst {
    Inst::Store {
        kind: Kind::Int(Width::W32),
        value: Operand::Register(0),
        at: Operand::Register(0),
    }
}

/// A function of two blocks, of which the first has two instructions.
fn function(alloc: Global, name: &[u8], access: Inst) -> Result<Function, AllocError> {
    let first = vec![in alloc; access, Inst::Branch { block: 1 }]?;
    let second = vec![in alloc; store(), Inst::Ret { value: None }]?;
    let blocks = vec![in alloc;
        Block {
            first: 0,
            insts: List::from(first)
        },
        Block {
            first: 2,
            insts: List::from(second)
        },
    ]?;
    Ok(Function {
        name: List::from(Vec::from_slice(alloc, name)?),
        params: List::new(alloc),
        result: None,
        blocks: List::from(blocks),
        registers: List::new(alloc),
    })
}

fn module(alloc: Global) -> Result<Module, AllocError> {
    let first = function(alloc, b"a", load())?;
    let second = function(alloc, b"b.2", store())?;
    let functions = vec![in alloc; first, second]?;
    Ok(Module {
        globals: List::new(alloc),
        functions: List::from(functions),
        main: 0,
    })
}

#[test]
fn accepted_texts_are_their_cases(rt: HostRuntime) -> Result<(), Fail> {
    let alloc = rt.alloc();
    let code = module(alloc)?;
    for (lines, watch, turns, races) in &ACCEPTED {
        let text = format!(in alloc; "{HEAD}{lines}")?;
        let case = read_case(alloc, text.as_bytes(), &code)?;
        assert_eq!(rt;
            (case.seed, case.steps, case.visits),
            (18_446_744_073_709_551_615, 200_000, 83)
        );
        assert_eq!(rt;
            (case.paths, case.schedules, case.input.slots.len()),
            (1, 1, 0)
        );
        assert_eq!(rt; case.watch.as_slice(), *watch, "{lines}");
        assert_eq!(rt; case.turns.as_slice(), *turns, "{lines}");
        assert_eq!(rt; case.races.as_slice(), *races, "{lines}");
    }
    Ok(())
}

/// A jump is no access. Files show the other faults, but no module of text has jumps yet.
#[test]
fn a_jump_is_not_watched(rt: HostRuntime) -> Result<(), Fail> {
    let alloc = rt.alloc();
    let code = module(alloc)?;
    let text = format!(in alloc; "{HEAD}watch a 1\nend\n")?;
    let found = read_case(alloc, text.as_bytes(), &code).err();
    let refused = CaseError::Site { line: 7 };
    assert_eq!(rt; found, Some(Failure::Refused(refused)));
    assert_eq!(rt; (refused.name(), refused.place()), ("Site", 7));
    Ok(())
}
