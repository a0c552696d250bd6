//! Rows, formulas, logs and marks, call by call.

use rc_base::NoMemory;
use refutation::{
    Formula, Known, Log, Propagation, Rows, is_false, is_unset, make_false, make_true, mark_of,
    propagate, propagate_hint,
};
use std::alloc::Global;
use std::test::Fail;

fn some_rows(alloc: Global) -> Result<Rows<i32>, NoMemory> {
    let mut rows = Rows::new(alloc);
    rows.push(&[1, -2])?;
    rows.push(&[])?;
    rows.push(&[3])?;
    Ok(rows)
}

/// The lengths of the rows at the first three places, 9 where there is none.
fn lengths(rows: &Rows<i32>) -> [usize; 3] {
    let mut lengths = [9; 3];
    for at in 0..3 {
        if let Some(row) = rows.get(at) {
            lengths[at] = row.len();
        }
    }
    lengths
}

#[test]
fn rows_are_kept(rt: HostRuntime) -> Result<(), Fail> {
    let mut rows = some_rows(rt.alloc())?;
    let copied = rows.fork()?;
    rows.truncate(2);
    assert_eq!(rt; lengths(&rows), [2, 0, 9]);
    assert_eq!(rt; lengths(&copied), [2, 0, 1]);
    Ok(())
}

fn some_formula(alloc: Global) -> Result<Formula, NoMemory> {
    let mut formula = Formula::new(alloc, 3);
    formula.push(&[])?;
    formula.fork()
}

fn some_log(alloc: Global) -> Result<Log, NoMemory> {
    let mut log = Log::new(alloc);
    log.push(&[2, -3], &[1])?;
    log.push(&[], &[2, 1])?;
    log.fork()
}

#[test]
fn logs_are_kept(rt: HostRuntime) -> Result<(), Fail> {
    let log = some_log(rt.alloc())?;
    assert_eq!(rt; log.len(), 2);
    let mut hints = 9;
    if let Some(step) = log.get(1) {
        hints = step.hints.len();
    }
    assert_eq!(rt; hints, 2);
    Ok(())
}

/// What clauses 0 to 3 say beside some marks, before the second step of a log.
fn said(formula: &Formula, log: &Log, marks: &[u8]) -> [Propagation; 4] {
    let known = Known::before(&formula.clauses, log.clauses(), 1);
    [
        propagate_hint(&known, 0, marks),
        propagate_hint(&known, 1, marks),
        propagate_hint(&known, 2, marks),
        propagate_hint(&known, 3, marks),
    ]
}

#[test]
fn known_clauses_propagate(rt: HostRuntime) -> Result<(), Fail> {
    let formula = some_formula(rt.alloc())?;
    let log = some_log(rt.alloc())?;
    let mut marks = [0u8; 4];
    make_false(2, &mut marks);
    let said = said(&formula, &log, &marks);
    assert_eq!(rt; said[0], Propagation::Nothing);
    assert_eq!(rt; said[1], Propagation::Conflict);
    assert_eq!(rt; said[2], Propagation::Implies(-3));
    assert_eq!(rt; said[3], Propagation::Nothing);
    Ok(())
}

#[test]
fn marks_tell(rt: HostRuntime) {
    let mut marks = [0u8; 4];
    make_false(-2, &mut marks);
    make_true(-3, &mut marks);
    assert_eq!(rt; marks, [0, 0, mark_of(true), mark_of(false)]);
    assert!(rt; is_false(&marks, 3));
    assert!(rt; is_unset(&marks, 1));
    assert_eq!(rt; propagate(&marks, &[-1, -2]), Propagation::Implies(-1));
}
