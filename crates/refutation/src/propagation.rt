//! Unit propagation: what a clause says beside what is known of the variables.

ghost use Rattle.std.specs.Prelude.{◌≡◌};
ghost use Rattle.refutation.specs.Marks.{open_literals, propagation_of, with_open};

use crate::marks::{is_false, is_unset};

/// What a clause says by its literals that are not false.
#[derive(Clone, Copy, Debug, PartialEq, Eq)]
pub enum Propagation {
    /// There is none: the clause is false.
    Conflict,
    /// There is one, and its variable is unset: the clause is unit, and implies this literal.
    Implies(i32),
    /// There are others.
    Nothing,
}

/// What a clause says with one more literal that is not false.
fn with_open(found: Propagation, literal: i32, unset: bool) -> Propagation
    ensures { result ≡ with_open found unset literal }
{
    match found {
        Propagation::Conflict if unset => Propagation::Implies(literal),
        _ => Propagation::Nothing,
    }
}

/// What a clause says beside the marks.
#[tactic(auto, using(crate::proofs::Open::open_more))]
pub fn propagate(marks: &[u8], clause: &[i32]) -> Propagation
    ensures { result ≡ propagation_of marks.now (open_literals marks.now clause.now) }
{
    let mut found = Propagation::Conflict;
    for literal in clause {
        if !is_false(marks, *literal) {
            found = with_open(found, *literal, is_unset(marks, *literal));
        }
    }
    found
}
