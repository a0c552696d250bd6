//! The checker of logs.

ghost use Rattle.std.specs.Prelude.{◌≡◌, ◌+◌, ◌++◌, ℕ, Some, None, false, length, slice_index, take, if◌then◌else◌};
ghost use Rattle.refutation.specs.Accepts.{accepted, all_follow, ends_empty, follows, has_variable, hint_propagation, hints_mention, numbered, reaches_conflict};
ghost use Rattle.refutation.specs.Log.{clauses_of, log_step};
ghost use Rattle.refutation.specs.Marks.{falsified, is_new, zeros};

use crate::formula::Formula;
use crate::known::Known;
use crate::log::{Lemma, Log};
use crate::marks::{forget, is_unset, make_false, make_true};
use crate::propagation::{Propagation, propagate};
use crate::rows::Rows;

/// Whether a literal is one over the variables 1 to `vars`, and its variable is unset.
fn is_new(vars: u32, marks: &[u8], literal: i32) -> bool
    ensures { result ≡ is_new vars marks.now literal }
{
    1 <= literal.unsigned_abs() && literal.unsigned_abs() <= vars && is_unset(marks, literal)
}

/// Makes the literals of a clause false, or tells that they are no clause.
#[tactic(auto, unfolding(crate::specs::Marks::falsified))]
fn falsify(vars: u32, clause: &[i32], marks: &mut [u8]) -> bool
    ensures value { falsified vars clause.now marks.old ≡ (if result then Some marks.new else None) }
    ensures others { (n : ℕ) → has_variable n clause.now ≡ false →
        slice_index marks.new n ≡ slice_index marks.old n }
{
    for literal in clause {
        if !is_new(vars, marks, *literal) {
            return false;
        }
        make_false(*literal, marks);
    }
    true
}

/// What the clause says that a hint names, nothing where it names none.
pub fn propagate_hint(known: &Known<'_>, hint: u32, marks: &[u8]) -> Propagation
    ensures { result ≡ hint_propagation marks.now (numbered known.now hint) }
{
    match known.get(hint) {
        Some(clause) => propagate(marks, clause),
        None => Propagation::Nothing,
    }
}

/// Takes the hints in order, and tells whether unit propagation by them ends, with the last one, in a conflict.
#[tactic(auto, using(crate::proofs::Checking::checking))]
fn conflicts(known: &Known<'_>, hints: &[u32], marks: &mut [u8]) -> bool
    ensures value { result ≡ reaches_conflict known.now hints.now marks.old }
    ensures others { (n : ℕ) → hints_mention known.now n hints.now ≡ false →
        slice_index marks.new n ≡ slice_index marks.old n }
{
    for (i, hint) in hints.iter().enumerate() {
        match propagate_hint(known, *hint, marks) {
            Propagation::Conflict => return i + 1 == hints.len(),
            Propagation::Implies(literal) => make_true(literal, marks),
            Propagation::Nothing => return false,
        }
    }
    false
}

/// Forgets what is known of the variables of a clause.
fn clear(clause: &[i32], marks: &mut [u8])
    ensures { (n : ℕ) → slice_index marks.new n
        ≡ (if has_variable n clause.now then 0 else slice_index marks.old n) }
{
    for literal in clause {
        forget(*literal, marks);
    }
}

/// Forgets what is known of the variables of all clauses that hints name.
fn clear_hints(known: &Known<'_>, hints: &[u32], marks: &mut [u8])
    ensures { (n : ℕ) → slice_index marks.new n
        ≡ (if hints_mention known.now n hints.now then 0 else slice_index marks.old n) }
{
    for hint in hints {
        if let Some(clause) = known.get(*hint) {
            clear(clause, marks);
        }
    }
}

/// Whether a step follows from the clauses before it by reverse unit propagation. The marks are 0 again afterwards.
#[tactic(auto, unfolding(crate::specs::Accepts::follows))]
fn step_follows(vars: u32, known: &Known<'_>, step: Lemma<'_>, marks: &mut [u8]) -> bool
    requires { marks.old ≡ zeros vars }
    ensures value { result
        ≡ follows vars known.now (log_step step.entry.clause.now step.entry.hints.now) }
    ensures clear { marks.new ≡ zeros vars }
{
    let follows = falsify(vars, step.clause, marks) && conflicts(known, step.hints, marks);
    clear_hints(known, step.hints, marks);
    clear(step.clause, marks);
    follows
}

/// Whether each step follows from the clauses and the steps before it. The marks are 0 before.
#[tactic(auto, using(crate::proofs::Checking::stepping))]
fn all_follow(vars: u32, clauses: &Rows<i32>, log: &Log, marks: &mut [u8]) -> bool
    requires { marks.old ≡ zeros vars }
    ensures { result ≡ all_follow vars clauses.now log.now }
{
    let learned = log.clauses();
    for at in 0..log.len() {
        let Some(step) = log.get(at) else {
            return false;
        };
        if !step_follows(vars, &Known::before(clauses, learned, at), step, marks) {
            return false;
        }
    }
    true
}

/// Whether the log has a last step, and that has the empty clause.
fn ends_empty(log: &Log) -> bool
    ensures { result ≡ ends_empty log.now }
{
    match log.get(log.len().saturating_sub(1)) {
        Some(step) => step.clause.is_empty(),
        None => false,
    }
}

/// Whether the log refutes the formula: each of its steps has a clause over the formula's variables that follows by its
/// hints, and the last one has the empty clause. `marks` has a place for each variable, and one more; what it holds
/// before does not matter. Takes no memory. The time is that of the literals of the steps and of the clauses that
/// their hints name, and of one walk over the marks.
pub fn check(formula: &Formula, log: &Log, marks: &mut [u8]) -> bool
    requires { length marks.old ≡ formula.now.vars + 1 }
    ensures { result ≡ accepted formula.now.vars formula.now.clauses log.now }
{
    marks.fill(0);
    all_follow(formula.vars, &formula.clauses, log, marks) && ends_empty(log)
}
