//! Logs of learned clauses.

ghost use Rattle.std.specs.Prelude.{◌≡◌, ◌++◌, ◌∷◌, [], length, option_map, slice_get, IfErr, IfOk, OnOk};
ghost use Rattle.refutation.specs.Log.{clauses_of, log_step};

use crate::rows::Rows;
use rc_base::NoMemory;
use std::alloc::Global;
use std::marker::Model;

/// Steps, each a learned clause with the numbers of the clauses from which it follows, its hints. Clauses are numbered
/// from 1, those of a formula first and then those of the steps.
#[derive(Debug, Drop)]
pub struct Log {
    clauses: Rows<i32>,
    hints: Rows<u32>,
}

impl Model for Log {
    ghost use Rattle.std.specs.Prelude.{◌≡◌, List, length};
    ghost use Rattle.refutation.specs.Log.{LogStep, steps_of};

    ghost Value = { List LogStep };

    ghost view = { λ log. steps_of log.clauses log.hints };

    ghost invariant = { λ log. length log.clauses ≡ length log.hints };
}

/// A step of a log.
#[derive(Clone, Copy, Debug)]
pub struct Lemma<'l> {
    pub clause: &'l [i32],
    pub hints: &'l [u32],
}

impl Log {
    /// The log without steps. Takes no memory.
    pub fn new(alloc: Global) -> Log
        ensures { result ≡ [] }
    {
        Log {
            clauses: Rows::new(alloc),
            hints: Rows::new(alloc),
        }
    }

    /// How many steps there are.
    #[tactic(auto, using(crate::proofs::Steps::stepping))]
    pub fn len(&self) -> usize
        ensures { result ≡ length self.now }
    {
        self.clauses.len()
    }

    #[tactic(auto, using(crate::proofs::Steps::stepping))]
    /// The step of a place, counted from 0.
    pub fn get(&self, at: usize) -> Option<Lemma<'_>>
        ensures { option_map (λ lemma. log_step lemma.clause.now lemma.hints.now) result ≡ slice_get self.now at }
    {
        let clause = self.clauses.get(at)?;
        let hints = self.hints.get(at)?;
        Some(Lemma { clause, hints })
    }

    /// The clauses of the steps.
    #[tactic(auto, using(crate::proofs::Steps::stepping))]
    pub fn clauses(&self) -> &Rows<i32>
        ensures { result.now ≡ clauses_of self.now }
    {
        &self.clauses
    }

    /// Adds a step. A refusal leaves the log as it was.
    pub fn push(&mut self, clause: &[i32], hints: &[u32]) -> Result<(), NoMemory>
        ensures pushed { OnOk result (self.new ≡ self.old ++ log_step clause.now hints.now ∷ []) }
        ensures kept { IfErr result (λ _. self.new ≡ self.old) }
    {
        push_onto(&mut self.clauses, &mut self.hints, clause, hints)?;
        Ok(())
    }

    /// An equal log.
    pub fn fork(&self) -> Result<Log, NoMemory>
        ensures { IfOk result (λ fork. fork ≡ self.now) }
    {
        let clauses = self.clauses.fork()?;
        let hints = self.hints.fork()?;
        Ok(Log { clauses, hints })
    }
}

/// Adds a clause and its hints. A refusal leaves both as they were.
fn push_onto(
    clauses: &mut Rows<i32>,
    hints: &mut Rows<u32>,
    clause: &[i32],
    named: &[u32],
) -> Result<(), NoMemory>
    ensures clauses { OnOk result (clauses.new ≡ clauses.old ++ clause.now ∷ []) }
    ensures hints { OnOk result (hints.new ≡ hints.old ++ named.now ∷ []) }
    ensures kept { IfErr result (λ _. (clauses.new ≡ clauses.old) × (hints.new ≡ hints.old)) }
{
    let before = clauses.len();
    clauses.push(clause)?;
    if hints.push(named).is_err() {
        clauses.truncate(before);
        return Err(NoMemory);
    }
    Ok(())
}
