//! What is wanted of the tokens to come, as a stack of rows of rules.

ghost use Rattle.std.specs.Prelude.{◌≡◌, ◌++◌, [], ◌∷◌, IfOk, MatchOption, OnOk, reverse};
ghost use Rattle.std.specs.List.{flat_map};
ghost use Rattle.rc_base.specs.Failures.{Gives};
ghost use Rattle.ir_read.specs.Wants.{advance, is_nothing};

use crate::grammar::{Rule, otherwise, row};
use crate::terminal::Terminal;
use rc_base::Failure;
use std::alloc::{AllocError, Global};
use std::marker::Model;

/// The rules that are wanted, the next one first. A row is put as a whole, so that no rule is copied.
#[derive(Drop)]
pub struct Wants {
    /// What is left of the last row.
    row: &'static [Rule],
    /// What is left of the rows before it, the next one last. None is put there empty.
    below: Vec<&'static [Rule]>,
}

impl Model for Wants {
    ghost use Rattle.std.specs.Prelude.{List, ◌++◌, reverse};
    ghost use Rattle.std.specs.List.{flat_map};
    ghost use Rattle.ir_read.specs.declared.grammar.Rule.{Rule};

    ghost Value = { List Rule };

    ghost view = { λ wants. wants.row.now ++ flat_map (λ row. row.now) (reverse wants.below.items) };
}

impl Wants {
    /// The items of a module.
    pub fn items(alloc: Global) -> Result<Wants, AllocError>
        ensures { IfOk result (λ wants. wants ≡ Rule.Items ∷ []) }
    {
        Ok(Wants {
            row: &[Rule::Items],
            below: Vec::new(alloc),
        })
    }

    #[tactic(auto, using(crate::proofs::Advance::something_is_wanted))]
    pub fn is_empty(&self) -> bool
        ensures { result ≡ is_nothing self.now }
    {
        self.row.is_empty() && are_empty(&self.below)
    }

    /// The rule that takes the token, with what follows it wanted in its place; or the rule that can't. A rule
    /// stands for others at most `depth` times.
    #[tactic(auto, using(crate::proofs::Advance::advance_none, crate::proofs::Advance::advance_takes, crate::proofs::Advance::advance_deep, crate::proofs::Advance::advance_stuck, crate::proofs::Advance::advance_below))]
    #[inline(always)]
    pub fn advance(&mut self, depth: u8, terminal: Terminal) -> Result<Rule, Failure<Rule>>
        ensures { Gives (λ rule. (rule, self.new)) result (advance depth self.old terminal) }
    {
        let mut depth = depth;
        while let Some(rule) = self.pop() {
            if let Some(more) = row(rule, terminal) {
                self.put(more)?;
                return Ok(rule);
            }
            let Some(more) = otherwise(rule) else {
                return Err(Failure::Refused(rule));
            };
            if depth == 0 {
                return Err(Failure::Refused(rule));
            }
            self.put(more)?;
            depth -= 1;
        }
        Err(Failure::Refused(Rule::Items))
    }

    #[inline(always)]
    fn pop(&mut self) -> Option<Rule>
        ensures { MatchOption result (self.old ≡ []) (λ rule. self.old ≡ rule ∷ self.new) }
    {
        match self.row.split_first() {
            Some((rule, rest)) => {
                self.row = rest;
                Some(*rule)
            }
            None => {
                let (rule, rest) = pop_row(&mut self.below)?;
                self.row = rest;
                Some(*rule)
            }
        }
    }

    /// These are wanted before the others.
    #[inline(always)]
    fn put(&mut self, rules: &'static [Rule]) -> Result<(), AllocError>
        ensures { OnOk result (self.new ≡ rules.now ++ self.old) }
    {
        if rules.is_empty() {
            return Ok(());
        }
        if !self.row.is_empty() {
            self.below.push(self.row)?;
        }
        self.row = rules;
        Ok(())
    }
}

/// The first rule of the last row that has one, and what is left of that row; the rows behind it are dropped.
fn pop_row(rows: &mut Vec<&'static [Rule]>) -> Option<(&'static Rule, &'static [Rule])>
    ensures { MatchOption result (flat_map (λ row. row.now) (reverse rows.old.items) ≡ []) (λ found. flat_map (λ row. row.now) (reverse rows.old.items) ≡ found.0.now ∷ found.1.now ++ flat_map (λ row. row.now) (reverse rows.new.items)) }
{
    while let Some(row) = rows.pop() {
        if let Some(found) = row.split_first() {
            return Some(found);
        }
    }
    None
}

/// Whether no row has a rule.
fn are_empty(rows: &[&'static [Rule]]) -> bool
    ensures { result ≡ is_nothing (flat_map (λ row. row.now) (reverse rows.now)) }
{
    let mut count = rows.len();
    while count > 0 {
        count -= 1;
        if !rows[count].is_empty() {
            return false;
        }
    }
    true
}
