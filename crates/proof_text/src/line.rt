//! The lines of clauses, of steps and of counts.

ghost use Rattle.std.specs.Prelude.{◌≡◌, ◌+◌, ◌-◌, ◌<◌, ◌≤◌, ◌^◌, ◌-ℤ◌, pos, Some, None, length, option_map, IfOk, IfSome, if◌then◌else◌};
ghost use Rattle.std.specs.BTreeSet.{IsFromIterResult};
ghost use Rattle.std.specs.Ordering.{nat_cmp};
ghost use Rattle.proof_text.specs.Line.{are_distinct, clause_in, clause_of_line, formula_of_line, hints_onto, is_end, literal_of, literals_onto, one_behind, positive_of, step_of_line};
ghost use Rattle.refutation.specs.Literal.{IsClause, variables};
ghost use Rattle.refutation.specs.Log.{log_step};

use std::alloc::{AllocError, Global};
use std::collections::BTreeSet;
use text_lines::{Parts, one_number, read_number, two_numbers};

/// The number below 2^32 behind a keyword.
#[tactic(auto, unfolding(crate::specs::Line::one_behind))]
pub fn one_behind(keyword: &[u8], line: &[u8]) -> Option<u32>
    ensures { result ≡ one_behind keyword.now line.now }
{
    let mut words = Parts::new(b' ', line);
    if words.next()? != keyword {
        return None;
    }
    let number = one_number(words)?;
    if number < 1 << 32 {
        Some(number as u32)
    } else {
        None
    }
}

/// How many variables a formula has, and how many clauses.
#[tactic(auto, unfolding(crate::specs::Line::formula_of_line))]
pub fn formula_of_line(line: &[u8]) -> Option<(u32, u32)>
    ensures value { result ≡ formula_of_line line.now }
    ensures few { IfSome result (λ sizes. sizes.0 < 2 ^ 31) }
{
    let mut words = Parts::new(b' ', line);
    if words.next()? != b"formula".as_slice() {
        return None;
    }
    let (vars, clauses) = two_numbers(words)?;
    if vars < 1 << 31 && clauses < 1 << 32 {
        Some((vars as u32, clauses as u32))
    } else {
        None
    }
}

/// Whether the word is the `0` that ends a clause or hints.
fn is_end(word: &[u8]) -> bool
    ensures { result ≡ is_end word.now }
{
    word.len() == 1 && word[0] == b'0'
}

/// The number from 1 to `most` that a word spells, where it spells one.
#[tactic(auto, unfolding(crate::specs::Line::positive_of))]
fn positive_of(most: u32, word: &[u8]) -> Option<u32>
    ensures value { result ≡ positive_of most word.now }
    ensures bound { IfSome result (λ number. number ≤ most) }
{
    let number = read_number(word)?;
    if 1 <= number && number <= u128::from(most) {
        Some(number as u32)
    } else {
        None
    }
}

fn positive_literal(variable: u32) -> i32
    requires { variable < 2 ^ 31 }
    ensures { result ≡ pos variable }
{
    variable as i32
}

fn negative_literal(variable: u32) -> i32
    requires { variable < 2 ^ 31 }
    ensures { result ≡ pos 0 -ℤ pos variable }
{
    -(variable as i32)
}

/// The literal over the variables 1 to `vars` that a word spells, where it spells one.
#[tactic(auto, unfolding(crate::specs::Line::literal_of))]
fn literal_of(vars: u32, word: &[u8]) -> Option<i32>
    requires { vars < 2 ^ 31 }
    ensures { result ≡ literal_of vars word.now }
{
    let (byte, rest) = word.split_first()?;
    if *byte == b'-' {
        let variable = positive_of(vars, rest)?;
        Some(negative_literal(variable))
    } else {
        let variable = positive_of(vars, word)?;
        Some(positive_literal(variable))
    }
}

/// Reads literals up to a `0`, and takes them and the `0` off the words. Tells whether there is such a `0`, and all
/// before it are literals.
#[tactic(auto, unfolding(crate::specs::Line::literals_onto))]
fn read_literals(
    vars: u32,
    words: &mut Parts<'_>,
    clause: &mut Vec<i32>,
) -> Result<bool, AllocError>
    requires { vars < 2 ^ 31 }
    ensures { IfOk result (λ whole. literals_onto vars clause.old.items words.old
        ≡ (if whole then Some (clause.new.items, words.new) else None)) }
{
    'words: while let Some(word) = words.next() {
        if is_end(word) {
            return Ok(true);
        }
        let Some(literal) = literal_of(vars, word) else {
            return Ok(false);
        };
        clause.push(literal)?;
    }
    Ok(false)
}

/// Reads hints up to a `0` at the end. Tells whether there is such a `0`, and all before it are hints.
#[tactic(auto, unfolding(crate::specs::Line::hints_onto))]
fn read_hints(words: &mut Parts<'_>, hints: &mut Vec<u32>) -> Result<bool, AllocError>
    ensures { IfOk result (λ whole. hints_onto hints.old.items words.old
        ≡ (if whole then Some hints.new.items else None)) }
{
    'words: while let Some(word) = words.next() {
        if is_end(word) {
            return Ok(words.is_empty());
        }
        let Some(hint) = positive_of(u32::MAX, word) else {
            return Ok(false);
        };
        hints.push(hint)?;
    }
    Ok(false)
}

/// The variables of a clause.
fn variable_set(alloc: Global, clause: &[i32]) -> Result<BTreeSet<u32>, AllocError>
    ensures { IfOk result (λ set. IsFromIterResult nat_cmp (variables clause.now) set) }
{
    clause
        .iter()
        .map(|literal| literal.unsigned_abs())
        .collect(alloc)
}

/// Whether no variable stands twice in a clause.
fn are_distinct(alloc: Global, clause: &[i32]) -> Result<bool, AllocError>
    ensures { IfOk result (λ distinct. distinct ≡ are_distinct clause.now) }
{
    let set = variable_set(alloc, clause)?;
    Ok(set.len() == clause.len())
}

/// The clause that words begin with, which is taken off them, where they begin with one.
#[tactic(auto, using(crate::proofs::Distinct::read_is_clause), unfolding(crate::specs::Line::clause_in))]
fn read_clause(
    alloc: Global,
    vars: u32,
    words: &mut Parts<'_>,
) -> Result<Option<Vec<i32>>, AllocError>
    requires { vars < 2 ^ 31 }
    ensures value { IfOk result (λ found. clause_in vars words.old
        ≡ option_map (λ clause. (clause.items, words.new)) found) }
    ensures clause { IfOk result (λ found. IfSome found (λ clause. IsClause vars clause.items)) }
{
    let mut clause = Vec::new(alloc);
    if !read_literals(vars, words, &mut clause)? {
        return Ok(None);
    }
    if !are_distinct(alloc, &clause)? {
        return Ok(None);
    }
    Ok(Some(clause))
}

/// The clause that a line spells, where it spells one.
#[tactic(auto, unfolding(crate::specs::Line::clause_of_line))]
pub fn clause_of_line(alloc: Global, vars: u32, line: &[u8]) -> Result<Option<Vec<i32>>, AllocError>
    requires { vars < 2 ^ 31 }
    ensures value { IfOk result (λ found. option_map (λ clause. clause.items) found
        ≡ clause_of_line vars line.now) }
    ensures clause { IfOk result (λ found. IfSome found (λ clause. IsClause vars clause.items)) }
{
    let mut words = Parts::new(b' ', line);
    let Some(clause) = read_clause(alloc, vars, &mut words)? else {
        return Ok(None);
    };
    if words.is_empty() {
        Ok(Some(clause))
    } else {
        Ok(None)
    }
}

/// The clause and the hints that a line spells, where it spells a step.
#[tactic(auto, unfolding(crate::specs::Line::step_of_line))]
pub fn step_of_line(
    alloc: Global,
    vars: u32,
    line: &[u8],
) -> Result<Option<(Vec<i32>, Vec<u32>)>, AllocError>
    requires { vars < 2 ^ 31 }
    ensures { IfOk result (λ found. option_map (λ step. log_step step.0.items step.1.items) found
        ≡ step_of_line vars line.now) }
{
    let mut words = Parts::new(b' ', line);
    let Some(clause) = read_clause(alloc, vars, &mut words)? else {
        return Ok(None);
    };
    let mut hints = Vec::new(alloc);
    if read_hints(&mut words, &mut hints)? {
        Ok(Some((clause, hints)))
    } else {
        Ok(None)
    }
}
