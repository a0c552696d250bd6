//! What was read of proofs so far, and the lines that are taken in.

ghost use Rattle.std.specs.Prelude.{◌≡◌, ◌-◌, ◌&&◌, ◌==◌, Some, None, length, option_map, IfOk, if◌then◌else◌};
ghost use Rattle.proof_text.specs.Entry.{entry_of};
ghost use Rattle.proof_text.specs.Reading.{after_steps, clause_taken, entry_taken, heading_taken, is_whole, no_entry, reading_of, start, taken, with_formula, with_step};
ghost use Rattle.proof_text.specs.Line.{formula_of_line, step_of_line};

use crate::line::{clause_of_line, formula_of_line, one_behind, step_of_line};
use rc_base::NoMemory;
use refutation::{Formula, Log, Proof};
use std::alloc::Global;
use std::mem;

/// The line that is due.
#[derive(Clone, Copy)]
pub enum Next {
    /// The first line.
    Heading,
    /// The first line of an entry, or the last line.
    Entry,
    /// The sizes of a formula.
    Formula,
    /// A clause of so many, or where none is left the number of steps.
    Clause(u32),
    /// A step of so many.
    Step(u32),
    /// None: the last line was read.
    End,
}

/// The line that is due, the proofs that are whole, and the one that is being read.
#[derive(Drop)]
pub struct Progress {
    pub next: Next,
    pub proofs: Vec<Proof>,
    pub current: Proof,
}

/// A proof of which nothing was read.
fn no_proof(alloc: Global) -> Proof
    ensures { entry_of result ≡ no_entry }
{
    Proof {
        race: 0,
        formula: Formula::new(alloc, 0),
        log: Log::new(alloc),
    }
}

impl Progress {
    /// Before the first line. Takes no memory.
    pub fn start(alloc: Global) -> Progress
        ensures { reading_of result ≡ start }
    {
        Progress {
            next: Next::Heading,
            proofs: Vec::new(alloc),
            current: no_proof(alloc),
        }
    }

    /// Whether the proofs are whole, where this is what follows the last line feed.
    pub fn is_ended(&self, last: &[u8]) -> bool
        ensures { result ≡ (is_whole self.now.next && length last.now == 0) }
    {
        matches!(self.next, Next::End) && last.is_empty()
    }

    /// Takes in a line, where it may stand there, and tells whether it may.
    #[tactic(auto, unfolding(crate::specs::Reading::taken))]
    pub fn take(&mut self, alloc: Global, line: &[u8]) -> Result<bool, NoMemory>
        ensures { IfOk result (λ fits. taken (reading_of self.old) line.now
            ≡ (if fits then Some (reading_of self.new) else None)) }
    {
        match self.next {
            Next::Heading => Ok(self.take_heading(line)),
            Next::Entry => Ok(self.take_entry(line)),
            Next::Formula => Ok(self.take_formula(alloc, line)),
            Next::Clause(left) => self.take_clause(alloc, left, line),
            Next::Step(left) => self.take_step(alloc, left, line),
            Next::End => Ok(false),
        }
    }

    fn take_heading(&mut self, line: &[u8]) -> bool
        ensures { heading_taken (reading_of self.old) line.now
            ≡ (if result then Some (reading_of self.new) else None) }
    {
        if line != b"portend-proofs 1".as_slice() {
            return false;
        }
        self.next = Next::Entry;
        true
    }

    fn take_entry(&mut self, line: &[u8]) -> bool
        ensures { entry_taken (reading_of self.old) line.now
            ≡ (if result then Some (reading_of self.new) else None) }
    {
        if line == b"end".as_slice() {
            self.next = Next::End;
            return true;
        }
        let Some(race) = one_behind(b"proof", line) else {
            return false;
        };
        self.current.race = race;
        self.next = Next::Formula;
        true
    }

    fn take_formula(&mut self, alloc: Global, line: &[u8]) -> bool
        ensures { option_map (with_formula (reading_of self.old)) (formula_of_line line.now)
            ≡ (if result then Some (reading_of self.new) else None) }
    {
        let Some((vars, clauses)) = formula_of_line(line) else {
            return false;
        };
        self.current.formula = Formula::new(alloc, vars);
        self.next = Next::Clause(clauses);
        true
    }

    fn take_clause(&mut self, alloc: Global, left: u32, line: &[u8]) -> Result<bool, NoMemory>
        ensures { IfOk result (λ fits. clause_taken (reading_of self.old) left line.now
            ≡ (if fits then Some (reading_of self.new) else None)) }
    {
        if left == 0 {
            let Some(steps) = one_behind(b"log", line) else {
                return Ok(false);
            };
            self.expect_steps(alloc, steps)?;
            return Ok(true);
        }
        let Some(clause) = clause_of_line(alloc, self.current.formula.vars, line)? else {
            return Ok(false);
        };
        self.current.formula.push(&clause)?;
        self.next = Next::Clause(left - 1);
        Ok(true)
    }

    fn take_step(&mut self, alloc: Global, left: u32, line: &[u8]) -> Result<bool, NoMemory>
        ensures { IfOk result (λ fits. option_map (with_step (reading_of self.old) (left - 1))
            (step_of_line self.old.current.formula.vars line.now)
            ≡ (if fits then Some (reading_of self.new) else None)) }
    {
        let Some((clause, hints)) = step_of_line(alloc, self.current.formula.vars, line)? else {
            return Ok(false);
        };
        self.current.log.push(&clause, &hints)?;
        self.expect_steps(alloc, left.saturating_sub(1))?;
        Ok(true)
    }

    /// Expects so many steps more. With none left the proof is whole.
    fn expect_steps(&mut self, alloc: Global, left: u32) -> Result<(), NoMemory>
        ensures { IfOk result (λ _. reading_of self.new ≡ after_steps (reading_of self.old) left) }
    {
        if left > 0 {
            self.next = Next::Step(left);
            return Ok(());
        }
        let whole = mem::replace(&mut self.current, no_proof(alloc));
        self.proofs.push(whole)?;
        self.next = Next::Entry;
        Ok(())
    }
}
