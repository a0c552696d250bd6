//! Verdicts of results made by hand.

use ir_types::{Input, ItemKind, List, Slot, Width};
use race_verdict::{HarmlessRun, JobKind, JobResult, Judged, Verdict, reduce};
use rc_base::NoMemory;
use run_types::{OutItem, Outcome, Reason, Run};
use std::alloc::Global;
use std::test::Fail;

/// What a job did. A run takes one turn, of the thread with this number, and prints the number.
#[derive(Clone, Copy)]
enum Did {
    Exits(u8),
    /// It exits with an output that its path admits for input 9, or doesn't admit.
    Admitted(u8),
    Never(u8),
    Deadlocks(u8),
    Spends(u8),
    Stuck(u8),
    Absent,
    Skipped,
}

use Did::{Absent, Admitted, Deadlocks, Exits, Never, Skipped, Spends, Stuck};

/// The jobs of a race by path and schedule, with what each did.
type Jobs = &'static [(u32, u32, Did)];

/// The jobs, and the verdict's text.
static CASES: [(Jobs, &str); 18] = [
    (
        &[(0, 0, Exits(1)), (0, 1, Deadlocks(2))],
        "violated 0 1 input 0 turns [2] Deadlock",
    ),
    (
        &[(0, 0, Exits(1)), (0, 1, Stuck(2))],
        "single Stuck turns [2]",
    ),
    (
        &[(0, 0, Exits(1)), (0, 1, Never(2))],
        "differs 0 1 input 0 turns [1] [2] prints 1 2",
    ),
    (
        &[(0, 0, Exits(1)), (0, 1, Spends(2))],
        "unresolved 0 1 input 0 turns [2]",
    ),
    (
        &[(0, 0, Spends(1)), (0, 1, Exits(2))],
        "unresolved 0 0 input 0 turns [1]",
    ),
    (
        &[(0, 0, Exits(1)), (0, 1, Admitted(2))],
        "harmless, 0 1 input 0 turns [2] prints 2 admitted 9",
    ),
    (
        &[(0, 0, Exits(1)), (0, 1, Deadlocks(2)), (0, 2, Deadlocks(3))],
        "violated 0 1 input 0 turns [2] Deadlock",
    ),
    (
        &[
            (0, 0, Exits(1)),
            (0, 1, Admitted(2)),
            (1, 0, Deadlocks(3)),
            (1, 1, Skipped),
        ],
        "violated 1 0 input 1 turns [3] Deadlock",
    ),
    (
        &[(0, 0, Deadlocks(1)), (0, 1, Stuck(2))],
        "violated 0 0 input 0 turns [1] Deadlock",
    ),
    (
        &[
            (0, 0, Exits(1)),
            (0, 1, Stuck(2)),
            (1, 0, Deadlocks(3)),
            (1, 1, Skipped),
        ],
        "single Stuck turns [2]",
    ),
    (
        &[
            (0, 0, Exits(1)),
            (0, 1, Stuck(2)),
            (1, 0, Exits(3)),
            (1, 1, Never(4)),
        ],
        "single Stuck turns [2]",
    ),
    (
        &[(0, 0, Spends(1)), (0, 1, Stuck(2))],
        "single Stuck turns [2]",
    ),
    (
        &[
            (0, 0, Exits(1)),
            (0, 1, Admitted(2)),
            (1, 0, Exits(3)),
            (1, 1, Stuck(4)),
        ],
        "harmless, 0 1 input 0 turns [2] prints 2 admitted 9",
    ),
    (
        &[
            (0, 0, Exits(1)),
            (0, 1, Admitted(2)),
            (1, 0, Absent),
            (1, 1, Absent),
        ],
        "harmless, 0 1 input 0 turns [2] prints 2 admitted 9",
    ),
    (
        &[(0, 0, Exits(1)), (0, 1, Spends(2)), (0, 2, Never(3))],
        "differs 0 2 input 0 turns [1] [3] prints 1 3",
    ),
    (
        &[
            (0, 0, Exits(1)),
            (0, 1, Admitted(2)),
            (1, 0, Exits(3)),
            (1, 1, Never(4)),
        ],
        "differs 1 1 input 1 turns [3] [4] prints 3 4",
    ),
    (
        &[
            (0, 0, Exits(1)),
            (0, 1, Admitted(2)),
            (0, 2, Admitted(2)),
            (0, 3, Admitted(3)),
        ],
        "harmless, 0 1 input 0 turns [2] prints 2 admitted 9, 0 3 input 0 turns [3] prints 3 admitted 9",
    ),
    (
        &[
            (0, 0, Exits(1)),
            (0, 1, Admitted(2)),
            (1, 0, Exits(3)),
            (1, 1, Admitted(2)),
        ],
        "harmless, 0 1 input 0 turns [2] prints 2 admitted 9, 1 1 input 1 turns [2] prints 2 admitted 9",
    ),
];

fn one_byte(alloc: Global, byte: u8) -> Result<List<u8>, NoMemory> {
    let mut items = Vec::new(alloc);
    items.push(byte)?;
    Ok(List { items })
}

/// The input with this value in its one slot.
fn input(alloc: Global, value: u32) -> Result<Input, NoMemory> {
    let slot = Slot {
        number: 0,
        width: Width::W32,
        value: value as u64,
    };
    let items = Vec::from_slice(alloc, &[slot])?;
    Ok(Input {
        slots: List { items },
    })
}

fn run(alloc: Global, turn: u8, outcome: Outcome) -> Result<JobKind, NoMemory> {
    let printed = OutItem {
        kind: ItemKind::Byte,
        bits: turn as u64,
    };
    let items = Vec::from_slice(alloc, &[printed])?;
    Ok(JobKind::Ran(Run {
        turns: one_byte(alloc, turn)?,
        decisions: List::new(alloc),
        output: List { items },
        outcome,
    }))
}

fn kind(alloc: Global, did: Did) -> Result<JobKind, NoMemory> {
    match did {
        Did::Exits(turn) | Did::Admitted(turn) | Did::Never(turn) => {
            run(alloc, turn, Outcome::Exit { status: 0 })
        }
        Did::Deadlocks(turn) => run(alloc, turn, Outcome::Deadlock),
        Did::Spends(turn) => run(alloc, turn, Outcome::Spent),
        Did::Stuck(turn) => Ok(JobKind::Not {
            reason: Reason::Stuck,
            turns: one_byte(alloc, turn)?,
        }),
        Did::Absent => Ok(JobKind::Absent),
        Did::Skipped => Ok(JobKind::Skipped),
    }
}

fn judged(alloc: Global, did: Did) -> Result<Judged, NoMemory> {
    match did {
        Did::Admitted(_) => Ok(Judged::Admitted(input(alloc, 9)?)),
        Did::Never(_) => Ok(Judged::Never),
        _ => Ok(Judged::NotJudged),
    }
}

/// The results of a table's jobs. A path's input has the path's number.
fn results(alloc: Global, jobs: &[(u32, u32, Did)]) -> Result<Vec<JobResult>, NoMemory> {
    let mut results = Vec::new(alloc);
    for (path, schedule, did) in jobs {
        results.push(JobResult {
            path: *path,
            schedule: *schedule,
            input: input(alloc, *path)?,
            kind: kind(alloc, *did)?,
            judged: judged(alloc, *did)?,
        })?;
    }
    Ok(results)
}

/// The number in an input's slot.
fn number(input: &Input) -> u64 {
    match input.slots.items.first() {
        Some(slot) => slot.value,
        None => 99,
    }
}

/// What is printed first.
fn printed(output: &List<OutItem>) -> u64 {
    match output.items.first() {
        Some(item) => item.bits,
        None => 99,
    }
}

fn harmless_text(alloc: Global, runs: &[HarmlessRun]) -> Result<String, NoMemory> {
    let mut text = String::from_str(alloc, "harmless")?;
    for run in runs {
        let next = format!(in alloc;
            ", {} {} input {} turns {:?} prints {} admitted {}",
            run.path,
            run.schedule,
            number(&run.input),
            run.turns.as_slice(),
            printed(&run.output),
            number(&run.admitted)
        )?;
        text.push_str(&next)?;
    }
    Ok(text)
}

fn text(alloc: Global, verdict: &Verdict) -> Result<String, NoMemory> {
    let text = match verdict {
        Verdict::SpecViolated {
            path,
            schedule,
            input,
            turns,
            fault,
        } => format!(in alloc;
            "violated {path} {schedule} input {} turns {:?} {fault:?}",
            number(input),
            turns.as_slice()
        )?,
        Verdict::SingleOrdering { reason, turns } => {
            format!(in alloc; "single {reason:?} turns {:?}", turns.as_slice())?
        }
        Verdict::OutputDiffers {
            path,
            schedule,
            input,
            primary,
            prints,
            turns,
            output,
        } => format!(in alloc;
            "differs {path} {schedule} input {} turns {:?} {:?} prints {} {}",
            number(input),
            primary.as_slice(),
            turns.as_slice(),
            printed(prints),
            printed(output)
        )?,
        Verdict::Unresolved {
            path,
            schedule,
            input,
            turns,
        } => format!(in alloc;
            "unresolved {path} {schedule} input {} turns {:?}",
            number(input),
            turns.as_slice()
        )?,
        Verdict::Harmless { runs } => harmless_text(alloc, &runs.items)?,
    };
    Ok(text)
}

#[test]
fn jobs_lead_to_their_class(rt: HostRuntime) -> Result<(), Fail> {
    let alloc = rt.alloc();
    for (jobs, wanted) in &CASES {
        let results = results(alloc, jobs)?;
        let verdict = reduce(alloc, &results)?;
        let text = text(alloc, &verdict)?;
        assert_eq!(rt; text.as_str(), *wanted);
    }
    Ok(())
}
