//! The text of races that are made by hand.

ghost use Rattle.std.specs.Prelude.{◌≡◌};

use crate::printed::{item, module_of};
use ir_types::{Input, ItemKind, List, Site, Slot, Width};
use race_verdict::{HarmlessRun, Verdict};
use report_text::{RaceReport, print_report};
use run_types::{OutItem, Outcome, Reason, Trap, Turns};
use std::alloc::Global;
use std::test::Fail;

/// The values of slots 0 and 3, as far as there are such slots.
#[derive(Clone, Copy)]
enum Slots {
    Absent,
    First(u32),
    Both(u32, u32),
}

use Slots::{Absent, Both, First};

/// A path, a schedule, the input and the turns.
type Job = (u32, u32, Slots, &'static [u8]);

/// An output, by the kinds and the bits of its items.
type Items = &'static [(ItemKind, u64)];

/// A harmless run: its job, its output and the input that is admitted.
type Ran = (Job, Items, Slots);

/// The class of a race.
#[derive(Clone, Copy)]
enum Class {
    Violated(Job, Outcome),
    Single(Reason),
    Differs(Job),
    Unresolved(Job),
    Harmless(&'static [Ran]),
}

use Class::{Differs, Harmless, Single, Unresolved, Violated};

/// Two turns, and the class of their race.
type Race = (u32, u32, Class);

const STUCK: &[u8] = &[0, 0, 0, 1, 2];

const CUT: &[u8] = &[0, 0, 0, 1, 2, 2];

const PRIMARY: &[u8] = &[0, 0, 0, 1, 2, 1, 2, 1, 2, 0, 0, 0, 0];

const ALTERNATE: &[u8] = &[0, 0, 0, 1, 2, 2, 1, 1, 2, 0, 0, 0, 0];

const LONG: &[u8] = &[0, 0, 0, 1, 2, 1, 2, 1, 2, 1, 2, 0, 0, 0, 0];

const PRIMARY_PRINTS: Items = &[(ItemKind::Byte, 0x42), (ItemKind::Status, 0)];

const PRINTS: Items = &[(ItemKind::Byte, 0x41), (ItemKind::Status, 0)];

const SIX: Items = &[
    (ItemKind::D32, 6),
    (ItemKind::Byte, 10),
    (ItemKind::Status, 0),
];

const TRAP: Outcome = Outcome::Trap {
    trap: Trap::BadAddress,
    thread: 2,
    site: Site {
        function: 0,
        inst: 1,
    },
};

const REPEATS: Outcome = Outcome::Repeats {
    turn: 17,
    earlier: 16,
};

const LAST: Job = (4_294_967_295, 20, Both(4, 0), &[]);

static REPORTS: [(&[Race], &str); 3] = [
    (&[], "portend-report 1\nend\n"),
    (
        &[
            (6, 7, Differs((0, 1, Absent, ALTERNATE))),
            (6, 9, Single(Reason::Stuck)),
            (6, 7, Harmless(&[((0, 1, First(5), LONG), SIX, First(4))])),
            (6, 7, Violated((0, 1, Absent, CUT), TRAP)),
            (6, 7, Unresolved((0, 1, Absent, ALTERNATE))),
        ],
        "portend-report 1
race 1 6 7 OUTPUT-DIFFERS
job 0 1
input -
primary 0*3 1 2 1 2 1 2 0*4
prints b42 s0
turns 0*3 1 2*2 1*2 2 0*4
output b41 s0
race 2 6 9 SINGLE-ORDERING stuck
turns 0*3 1 2
race 3 6 7 HARMLESS 1
run 0 1
input 0=5
turns 0*3 1 2 1 2 1 2 1 2 0*4
output d32:6 b0a s0
admitted 0=4
race 4 6 7 SPEC-VIOLATED
job 0 1
input -
turns 0*3 1 2*2
fault trap BadAddress 2 b 1
race 5 6 7 UNRESOLVED
job 0 1
input -
turns 0*3 1 2*2 1*2 2 0*4
end
",
    ),
    (
        &[
            (1, 2, Single(Reason::Repeats)),
            (3, 4_294_967_295, Single(Reason::Ended)),
            (5, 6, Single(Reason::Diverged)),
            (
                7,
                8,
                Violated((0, 1, Both(5, 4_294_967_295), CUT), Outcome::Deadlock),
            ),
            (9, 10, Violated(LAST, REPEATS)),
            (
                11,
                12,
                Harmless(&[
                    ((0, 1, Absent, CUT), PRINTS, Absent),
                    (LAST, &[], Both(6, 7)),
                ]),
            ),
        ],
        "portend-report 1
race 1 1 2 SINGLE-ORDERING repeats
turns 0*3 1 2
race 2 3 4294967295 SINGLE-ORDERING ended
turns 0*3 1 2
race 3 5 6 SINGLE-ORDERING diverged
turns 0*3 1 2
race 4 7 8 SPEC-VIOLATED
job 0 1
input 0=5 3=4294967295
turns 0*3 1 2*2
fault deadlock
race 5 9 10 SPEC-VIOLATED
job 4294967295 20
input 0=4 3=0
turns -
fault repeats 17 16
race 6 11 12 HARMLESS 2
run 0 1
input -
turns 0*3 1 2*2
output b41 s0
admitted -
run 4294967295 20
input 0=4 3=0
turns -
output -
admitted 0=6 3=7
end
",
    ),
];

fn slot(number: u32, value: u32) -> Slot
    ensures { result.number ≡ number }
{
    Slot {
        number,
        width: Width::W32,
        value: u64::from(value),
    }
}

fn input_of(alloc: Global, slots: Slots) -> Result<Input, Fail> {
    match slots {
        Absent => Ok(Input {
            slots: List::new(alloc),
        }),
        First(value) => {
            let items = Vec::from_slice(alloc, &[slot(0, value)])?;
            Ok(Input {
                slots: List { items },
            })
        }
        Both(first, second) => {
            let items = Vec::from_slice(alloc, &[slot(0, first), slot(3, second)])?;
            Ok(Input {
                slots: List { items },
            })
        }
    }
}

fn turns_of(alloc: Global, turns: &[u8]) -> Result<Turns, Fail> {
    Ok(List {
        items: Vec::from_slice(alloc, turns)?,
    })
}

fn output_of(alloc: Global, output: Items) -> Result<List<OutItem>, Fail> {
    let mut items = Vec::new(alloc);
    for (kind, bits) in output {
        items.push(item(*kind, *bits))?;
    }
    Ok(List { items })
}

fn harmless_of(alloc: Global, runs: &[Ran]) -> Result<Verdict, Fail> {
    let mut items = Vec::new(alloc);
    for ((path, schedule, slots, turns), output, admitted) in runs {
        items.push(HarmlessRun {
            path: *path,
            schedule: *schedule,
            input: input_of(alloc, *slots)?,
            turns: turns_of(alloc, turns)?,
            output: output_of(alloc, output)?,
            admitted: input_of(alloc, *admitted)?,
        })?;
    }
    Ok(Verdict::Harmless {
        runs: List { items },
    })
}

fn differs_of(alloc: Global, job: Job) -> Result<Verdict, Fail> {
    let (path, schedule, slots, turns) = job;
    Ok(Verdict::OutputDiffers {
        path,
        schedule,
        input: input_of(alloc, slots)?,
        primary: turns_of(alloc, PRIMARY)?,
        prints: output_of(alloc, PRIMARY_PRINTS)?,
        turns: turns_of(alloc, turns)?,
        output: output_of(alloc, PRINTS)?,
    })
}

fn verdict_of(alloc: Global, class: Class) -> Result<Verdict, Fail> {
    match class {
        Violated((path, schedule, slots, turns), fault) => Ok(Verdict::SpecViolated {
            path,
            schedule,
            input: input_of(alloc, slots)?,
            turns: turns_of(alloc, turns)?,
            fault,
        }),
        Single(reason) => Ok(Verdict::SingleOrdering {
            reason,
            turns: turns_of(alloc, STUCK)?,
        }),
        Differs(job) => differs_of(alloc, job),
        Unresolved((path, schedule, slots, turns)) => Ok(Verdict::Unresolved {
            path,
            schedule,
            input: input_of(alloc, slots)?,
            turns: turns_of(alloc, turns)?,
        }),
        Harmless(runs) => harmless_of(alloc, runs),
    }
}

#[test]
fn each_class_is_printed_with_its_evidence(rt: HostRuntime) -> Result<(), Fail> {
    let alloc = rt.alloc();
    let code = module_of(alloc, b"b")?;
    for (races, text) in &REPORTS {
        let mut reports = Vec::new(alloc);
        for (first, second, class) in *races {
            reports.push(RaceReport {
                first: *first,
                second: *second,
                verdict: verdict_of(alloc, *class)?,
            })?;
        }
        let printed = print_report(alloc, reports.as_slice(), &code)?;
        assert_eq!(rt; printed.as_slice(), text.as_bytes());
    }
    Ok(())
}
