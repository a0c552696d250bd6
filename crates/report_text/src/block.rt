//! The block of a race in a report: its class, and the lines of the evidence for it.

ghost use Rattle.std.specs.Prelude.{◌≡◌, [], ◌∷◌, ◌++◌, codes, OnOk};
ghost use Rattle.std.specs.List.{flat_map};
ghost use Rattle.report_text.specs.Block.{block_lines, class_text, evidence_lines, harmless_lines, line, pair_text, race_line, reason_name};
ghost use Rattle.report_text.specs.Input.{input_text};
ghost use Rattle.report_text.specs.Items.{items_text};
ghost use Rattle.text_lines.specs.Part.{lines_text};
ghost use Rattle.report_text.specs.Outcome.{outcome_text};
ghost use Rattle.report_text.specs.Turns.{turns_text};

use crate::input::push_input;
use crate::items::push_items;
use crate::numbers::push_decimal;
use crate::outcome::push_outcome;
use crate::report::RaceReport;
use crate::turns::push_turns;
use ir_types::{Input, List, Module};
use race_verdict::{HarmlessRun, Verdict};
use run_types::{OutItem, Outcome, Reason, Turns};
use std::alloc::AllocError;

/// Appends the block of the race of this number.
#[tactic(auto, unfolding(crate::specs::Block::block_lines))]
pub fn push_block(
    text: &mut Vec<u8>,
    number: u64,
    report: &RaceReport,
    code: &Module,
) -> Result<(), AllocError>
    ensures { OnOk result (text.new.items
        ≡ text.old.items ++ lines_text (block_lines code.now number report.now)) }
{
    push_race_line(text, number, report)?;
    push_evidence(text, &report.verdict, code)
}

fn push_race_line(text: &mut Vec<u8>, number: u64, report: &RaceReport) -> Result<(), AllocError>
    ensures { OnOk result (text.new.items
        ≡ text.old.items ++ lines_text (race_line number report.now ∷ [])) }
{
    push_keyword(text, b"race")?;
    push_decimal(text, number)?;
    text.extend_from_slice(b" ")?;
    push_pair(text, report.first, report.second)?;
    text.extend_from_slice(b" ")?;
    push_class(text, &report.verdict)?;
    text.extend_from_slice(b"\n")
}

fn push_class(text: &mut Vec<u8>, verdict: &Verdict) -> Result<(), AllocError>
    ensures { OnOk result (text.new.items ≡ text.old.items ++ class_text verdict.now) }
{
    match verdict {
        Verdict::SpecViolated { .. } => text.extend_from_slice(b"SPEC-VIOLATED"),
        Verdict::SingleOrdering { reason, .. } => {
            push_keyword(text, b"SINGLE-ORDERING")?;
            text.extend_from_slice(name(*reason))
        }
        Verdict::OutputDiffers { .. } => text.extend_from_slice(b"OUTPUT-DIFFERS"),
        Verdict::Unresolved { .. } => text.extend_from_slice(b"UNRESOLVED"),
        Verdict::Harmless { runs } => {
            push_keyword(text, b"HARMLESS")?;
            push_decimal(text, runs.len() as u64)
        }
    }
}

fn name(reason: Reason) -> &'static [u8]
    ensures { result.now ≡ reason_name reason }
{
    match reason {
        Reason::Stuck => b"stuck",
        Reason::Repeats => b"repeats",
        Reason::Ended => b"ended",
        Reason::Diverged => b"diverged",
    }
}

fn push_evidence(text: &mut Vec<u8>, verdict: &Verdict, code: &Module) -> Result<(), AllocError>
    ensures { OnOk result (text.new.items
        ≡ text.old.items ++ lines_text (evidence_lines code.now verdict.now)) }
{
    match verdict {
        Verdict::SpecViolated {
            path,
            schedule,
            input,
            turns,
            fault,
        } => {
            push_job(text, b"job", *path, *schedule, input, turns)?;
            push_fault_line(text, *fault, code)
        }
        Verdict::SingleOrdering { turns, .. } => push_turns_line(text, b"turns", turns),
        Verdict::OutputDiffers {
            path,
            schedule,
            input,
            primary,
            prints,
            turns,
            output,
        } => {
            push_pair_line(text, b"job", *path, *schedule)?;
            push_input_line(text, b"input", input)?;
            push_difference(text, primary, prints, turns, output)
        }
        Verdict::Unresolved {
            path,
            schedule,
            input,
            turns,
        } => push_job(text, b"job", *path, *schedule, input, turns),
        Verdict::Harmless { runs } => push_harmless_runs(text, runs.as_slice()),
    }
}

#[tactic(auto, using(crate::proofs::Lines::lines_text_append))]
fn push_harmless_runs(text: &mut Vec<u8>, runs: &[HarmlessRun]) -> Result<(), AllocError>
    ensures { OnOk result (text.new.items
        ≡ text.old.items ++ lines_text (flat_map harmless_lines runs.now)) }
{
    for run in runs {
        push_harmless_run(text, run)?;
    }
    Ok(())
}

fn push_harmless_run(text: &mut Vec<u8>, run: &HarmlessRun) -> Result<(), AllocError>
    ensures { OnOk result (text.new.items ≡ text.old.items ++ lines_text (harmless_lines run.now)) }
{
    push_job(text, b"run", run.path, run.schedule, &run.input, &run.turns)?;
    push_items_line(text, b"output", &run.output)?;
    push_input_line(text, b"admitted", &run.admitted)
}

/// Appends a job, what it was given and the turns it took.
fn push_job(
    text: &mut Vec<u8>,
    keyword: &[u8],
    path: u32,
    schedule: u32,
    input: &Input,
    turns: &Turns,
) -> Result<(), AllocError>
    ensures { OnOk result (text.new.items ≡ text.old.items ++ lines_text
        (line keyword.now (pair_text path schedule) ∷ line (codes "input") (input_text input.now)
        ∷ line (codes "turns") (turns_text turns.now) ∷ [])) }
{
    push_pair_line(text, keyword, path, schedule)?;
    push_input_line(text, b"input", input)?;
    push_turns_line(text, b"turns", turns)
}

/// Appends the turns of a primary and what it prints, and then those of an alternate.
fn push_difference(
    text: &mut Vec<u8>,
    primary: &Turns,
    prints: &List<OutItem>,
    turns: &Turns,
    output: &List<OutItem>,
) -> Result<(), AllocError>
    ensures { OnOk result (text.new.items ≡ text.old.items ++ lines_text
        (line (codes "primary") (turns_text primary.now) ∷ line (codes "prints") (items_text prints.now)
        ∷ line (codes "turns") (turns_text turns.now) ∷ line (codes "output") (items_text output.now) ∷ [])) }
{
    push_turns_line(text, b"primary", primary)?;
    push_items_line(text, b"prints", prints)?;
    push_turns_line(text, b"turns", turns)?;
    push_items_line(text, b"output", output)
}

fn push_pair_line(
    text: &mut Vec<u8>,
    keyword: &[u8],
    path: u32,
    schedule: u32,
) -> Result<(), AllocError>
    ensures { OnOk result (text.new.items
        ≡ text.old.items ++ lines_text (line keyword.now (pair_text path schedule) ∷ [])) }
{
    push_keyword(text, keyword)?;
    push_pair(text, path, schedule)?;
    text.extend_from_slice(b"\n")
}

fn push_input_line(text: &mut Vec<u8>, keyword: &[u8], input: &Input) -> Result<(), AllocError>
    ensures { OnOk result (text.new.items
        ≡ text.old.items ++ lines_text (line keyword.now (input_text input.now) ∷ [])) }
{
    push_keyword(text, keyword)?;
    push_input(text, input)?;
    text.extend_from_slice(b"\n")
}

fn push_turns_line(text: &mut Vec<u8>, keyword: &[u8], turns: &Turns) -> Result<(), AllocError>
    ensures { OnOk result (text.new.items
        ≡ text.old.items ++ lines_text (line keyword.now (turns_text turns.now) ∷ [])) }
{
    push_keyword(text, keyword)?;
    push_turns(text, turns.as_slice())?;
    text.extend_from_slice(b"\n")
}

fn push_items_line(
    text: &mut Vec<u8>,
    keyword: &[u8],
    items: &List<OutItem>,
) -> Result<(), AllocError>
    ensures { OnOk result (text.new.items
        ≡ text.old.items ++ lines_text (line keyword.now (items_text items.now) ∷ [])) }
{
    push_keyword(text, keyword)?;
    push_items(text, items.as_slice())?;
    text.extend_from_slice(b"\n")
}

fn push_fault_line(text: &mut Vec<u8>, fault: Outcome, code: &Module) -> Result<(), AllocError>
    ensures { OnOk result (text.new.items
        ≡ text.old.items ++ lines_text (line (codes "fault") (outcome_text code.now fault) ∷ [])) }
{
    push_keyword(text, b"fault")?;
    push_outcome(text, fault, code)?;
    text.extend_from_slice(b"\n")
}

/// Appends two numbers, parted by a space.
fn push_pair(text: &mut Vec<u8>, first: u32, second: u32) -> Result<(), AllocError>
    ensures { OnOk result (text.new.items ≡ text.old.items ++ pair_text first second) }
{
    push_decimal(text, u64::from(first))?;
    text.extend_from_slice(b" ")?;
    push_decimal(text, u64::from(second))
}

/// Appends what begins a line, and a space.
fn push_keyword(text: &mut Vec<u8>, keyword: &[u8]) -> Result<(), AllocError>
    ensures { OnOk result (text.new.items ≡ text.old.items ++ keyword.now ++ codes " ") }
{
    text.extend_from_slice(keyword)?;
    text.extend_from_slice(b" ")
}
