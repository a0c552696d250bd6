//! Formulas in conjunctive normal form.

ghost use Rattle.std.specs.Prelude.{◌≡◌, ◌<◌, ◌^◌, ◌++◌, ◌∷◌, [], All, IfErr, IfOk, OnOk};
ghost use Rattle.std.proofs.Props.{props};
ghost use Rattle.refutation.specs.Literal.{IsClause};

use crate::rows::Rows;
use rc_base::NoMemory;
use std::alloc::Global;

/// Clauses over the variables 1 to `vars`. A clause is a list of literals, and a literal is a variable or its negative.
/// No variable stands twice in a clause.
#[derive(Debug, Drop)]
pub struct Formula {
    pub vars: u32,
    pub clauses: Rows<i32>,
    ghost few: { vars < 2 ^ 31 },
    ghost within: { All (IsClause vars) clauses } by { Prim.hlevel props },
}

impl Formula {
    /// The formula without clauses. Takes no memory.
    #[tactic(auto, using(crate::proofs::Clauses::no_clauses))]
    pub fn new(alloc: Global, vars: u32) -> Formula
        requires { vars < 2 ^ 31 }
        ensures vars { result.vars ≡ vars }
        ensures clauses { result.clauses ≡ [] }
    {
        Formula {
            vars,
            clauses: Rows::new(alloc),
        }
    }

    /// Adds a clause. A refusal leaves the formula as it was.
    #[tactic(auto, using(crate::proofs::Clauses::one_clause_more))]
    pub fn push(&mut self, clause: &[i32]) -> Result<(), NoMemory>
        requires { IsClause self.old.vars clause.now }
        ensures vars { self.new.vars ≡ self.old.vars }
        ensures pushed { OnOk result (self.new.clauses ≡ self.old.clauses ++ clause.now ∷ []) }
        ensures kept { IfErr result (λ _. self.new.clauses ≡ self.old.clauses) }
    {
        self.clauses.push(clause)
    }

    /// An equal formula.
    pub fn fork(&self) -> Result<Formula, NoMemory>
        ensures { IfOk result (λ fork. fork ≡ self.now) }
    {
        let clauses = self.clauses.fork()?;
        Ok(Formula {
            vars: self.vars,
            clauses,
        })
    }
}
