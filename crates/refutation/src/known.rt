//! The clauses that a hint may name.

ghost use Rattle.std.specs.Prelude.{◌≡◌, ◌++◌, option_map, take};
ghost use Rattle.refutation.specs.Accepts.{numbered};

use crate::rows::Rows;
use std::marker::Model;

/// The clauses of a formula, and those of the first `earlier` learned clauses behind them.
#[derive(Debug, Drop)]
pub struct Known<'k> {
    formula: &'k Rows<i32>,
    learned: &'k Rows<i32>,
    earlier: usize,
}

impl<'k> Model for Known<'k> {
    ghost use Rattle.std.specs.Prelude.{List, ℤ, ◌++◌, take};

    ghost Value = { List (List ℤ) };

    ghost view = { λ known. known.formula.now ++ take known.earlier known.learned.now };
}

impl<'k> Known<'k> {
    /// The clauses before a step of this place, counted from 0.
    pub fn before(formula: &'k Rows<i32>, learned: &'k Rows<i32>, earlier: usize) -> Known<'k>
        ensures { result ≡ formula.now ++ take earlier learned.now }
    {
        Known {
            formula,
            learned,
            earlier,
        }
    }

    /// The clause of a number, counted from 1.
    pub fn get(&self, number: u32) -> Option<&'k [i32]>
        ensures { option_map (λ clause. clause.now) result ≡ numbered self.now number }
    {
        clause_of(self.formula, self.learned, self.earlier, number)
    }
}

#[tactic(auto, using(crate::proofs::Numbered::known_places))]
fn clause_of<'k>(
    formula: &'k Rows<i32>,
    learned: &'k Rows<i32>,
    earlier: usize,
    number: u32,
) -> Option<&'k [i32]>
    ensures { option_map (λ clause. clause.now) result
        ≡ numbered (formula.now ++ take earlier learned.now) number }
{
    if number == 0 {
        return None;
    }
    let at = number as usize - 1;
    let before = formula.len();
    if at < before {
        return formula.get(at);
    }
    let at = at - before;
    if at < earlier { learned.get(at) } else { None }
}
