//! The writer of proofs.

ghost use Rattle.std.specs.Prelude.{◌≡◌, [], ◌∷◌, ◌++◌, codes, decimal, length, map, IfOk, OnOk};
ghost use Rattle.std.specs.Fmt.{signed_decimal};
ghost use Rattle.std.specs.List.{flat_map};
ghost use Rattle.text_lines.specs.Part.{lines_text};
ghost use Rattle.proof_text.specs.Entry.{entry_of};
ghost use Rattle.refutation.specs.Log.{log_step};
ghost use Rattle.proof_text.specs.Text.{clause_line, formula_lines, entry_lines, log_lines, numbers_line, proofs_text, step_line};

use itoa::Buffer;
use rc_base::NoMemory;
use refutation::{Lemma, Log, Proof, Rows};
use std::alloc::{AllocError, Global};

/// The text of some proofs.
#[tactic(auto, using(crate::proofs::Written::written), unfolding(crate::specs::Text::proofs_text))]
pub fn write_proofs(alloc: Global, proofs: &[Proof]) -> Result<Vec<u8>, NoMemory>
    ensures { IfOk result (λ text. text.items ≡ proofs_text (map entry_of proofs.now)) }
{
    let mut text = Vec::from_slice(alloc, b"portend-proofs 1\n")?;
    push_proofs(&mut text, proofs)?;
    text.extend_from_slice(b"end\n")?;
    Ok(text)
}

#[tactic(auto, using(crate::proofs::Written::written))]
fn push_proofs(text: &mut Vec<u8>, proofs: &[Proof]) -> Result<(), AllocError>
    ensures { OnOk result (text.new.items ≡ text.old.items ++ lines_text (flat_map entry_lines (map entry_of proofs.now))) }
{
    for proof in proofs {
        push_proof(text, proof)?;
    }
    Ok(())
}

#[tactic(auto, using(crate::proofs::Written::written), unfolding(crate::specs::Text::entry_lines))]
fn push_proof(text: &mut Vec<u8>, proof: &Proof) -> Result<(), AllocError>
    ensures { OnOk result (text.new.items ≡ text.old.items ++ lines_text (entry_lines (entry_of proof.now))) }
{
    push_number(text, b"proof", proof.race as usize)?;
    text.push(b'\n')?;
    push_formula(text, proof.formula.vars, &proof.formula.clauses)?;
    push_log(text, &proof.log)?;
    Ok(())
}

#[tactic(auto, using(crate::proofs::Written::written))]
fn push_formula(text: &mut Vec<u8>, vars: u32, clauses: &Rows<i32>) -> Result<(), AllocError>
    ensures { OnOk result (text.new.items
        ≡ text.old.items ++ lines_text (formula_lines vars clauses.now)) }
{
    push_number(text, b"formula", vars as usize)?;
    text.push(b' ')?;
    push_decimal(text, clauses.len())?;
    text.push(b'\n')?;
    push_clauses(text, clauses)
}

#[tactic(auto, using(crate::proofs::Written::written))]
fn push_log(text: &mut Vec<u8>, log: &Log) -> Result<(), AllocError>
    ensures { OnOk result (text.new.items ≡ text.old.items ++ lines_text (log_lines log.now)) }
{
    push_number(text, b"log", log.len())?;
    text.push(b'\n')?;
    push_steps(text, log)
}

fn push_clauses(text: &mut Vec<u8>, clauses: &Rows<i32>) -> Result<(), AllocError>
    ensures { OnOk result (text.new.items
        ≡ text.old.items ++ lines_text (map clause_line clauses.now)) }
{
    for at in 0..clauses.len() {
        if let Some(clause) = clauses.get(at) {
            push_clause(text, clause)?;
        }
    }
    Ok(())
}

fn push_steps(text: &mut Vec<u8>, log: &Log) -> Result<(), AllocError>
    ensures { OnOk result (text.new.items ≡ text.old.items ++ lines_text (map step_line log.now)) }
{
    for at in 0..log.len() {
        if let Some(step) = log.get(at) {
            push_step(text, step)?;
        }
    }
    Ok(())
}

/// Appends the line of a clause.
fn push_clause(text: &mut Vec<u8>, clause: &[i32]) -> Result<(), AllocError>
    ensures { OnOk result (text.new.items
        ≡ text.old.items ++ lines_text (clause_line clause.now ∷ [])) }
{
    push_literals(text, clause)?;
    text.extend_from_slice(b"0\n")?;
    Ok(())
}

/// Appends the line of a step.
fn push_step(text: &mut Vec<u8>, step: Lemma<'_>) -> Result<(), AllocError>
    ensures { OnOk result (text.new.items ≡ text.old.items
        ++ lines_text (step_line (log_step step.entry.clause.now step.entry.hints.now) ∷ [])) }
{
    push_literals(text, step.clause)?;
    text.extend_from_slice(b"0 ")?;
    push_hints(text, step.hints)?;
    text.extend_from_slice(b"0\n")?;
    Ok(())
}

/// Appends literals, and a space behind each.
fn push_literals(text: &mut Vec<u8>, clause: &[i32]) -> Result<(), AllocError>
    ensures { OnOk result (text.new.items
        ≡ text.old.items ++ flat_map (λ literal. signed_decimal literal ++ codes " ") clause.now) }
{
    for literal in clause {
        text.extend_from_slice(Buffer::new().format(*literal).as_bytes())?;
        text.push(b' ')?;
    }
    Ok(())
}

/// Appends hints, and a space behind each.
fn push_hints(text: &mut Vec<u8>, hints: &[u32]) -> Result<(), AllocError>
    ensures { OnOk result (text.new.items
        ≡ text.old.items ++ flat_map (λ hint. decimal hint ++ codes " ") hints.now) }
{
    for hint in hints {
        text.extend_from_slice(Buffer::new().format(*hint).as_bytes())?;
        text.push(b' ')?;
    }
    Ok(())
}

/// Appends a keyword and a number.
fn push_number(text: &mut Vec<u8>, keyword: &[u8], number: usize) -> Result<(), AllocError>
    ensures { OnOk result (text.new.items
        ≡ text.old.items ++ numbers_line keyword.now (number ∷ [])) }
{
    text.extend_from_slice(keyword)?;
    text.push(b' ')?;
    push_decimal(text, number)
}

fn push_decimal(text: &mut Vec<u8>, number: usize) -> Result<(), AllocError>
    ensures { OnOk result (text.new.items ≡ text.old.items ++ decimal number) }
{
    text.extend_from_slice(Buffer::new().format(number).as_bytes())
}
