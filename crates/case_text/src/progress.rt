//! What was read of a case so far, and the lines that are taken in.

ghost use Rattle.std.specs.Prelude.{◌≡◌, ◌++◌, true, IfOk};
ghost use Rattle.std.specs.Bool.{OnTrue};
ghost use Rattle.rc_base.specs.Failures.{Gives, or_error};
ghost use Rattle.case_text.specs.Progress.{is_ended, is_in_range, is_within, start, taken, with_field, with_line, with_race, with_runs};
ghost use Rattle.text_lines.specs.RunWord.{run_turns};
ghost use Rattle.case_text.specs.declared.error.CaseError.TheVariants as errors;

use crate::error::CaseError;
use crate::keyword::{Field, Keyword};
use crate::line::Line;
use crate::watch::add_site;
use ir_types::{Input, List, Module};
use rc_base::Failure;
use run_types::{Case, Turns};
use std::alloc::{AllocError, Global};
use text_lines::{RunWord, RunWords};

/// How many turns a case may have.
const MOST_TURNS: usize = 20_000;

/// How many threads there may be.
const THREADS: u128 = 16;

/// How many races a case may have. More are not served yet.
const MOST_RACES: usize = 1;

/// The visits times the steps are at most this.
const MOST_STEPS: u64 = 1 << 24;

/// The keyword of the first line that may stand next, none behind the end, and the case by the lines so far.
#[derive(Drop)]
pub struct Progress {
    pub next: Option<Keyword>,
    pub case: Case,
}

impl Progress {
    /// Before the first line. Takes no memory.
    pub fn start(alloc: Global) -> Progress
        ensures { result ≡ start }
    {
        let case = Case {
            seed: 0,
            steps: 0,
            visits: 0,
            paths: 0,
            schedules: 0,
            input: Input {
                slots: List::new(alloc),
            },
            watch: List::new(alloc),
            turns: List::new(alloc),
            races: List::new(alloc),
        };
        Progress {
            next: Some(Keyword::Heading),
            case,
        }
    }

    /// Whether the case is whole, where this is what follows the last line feed.
    pub fn is_ended(&self, last: &[u8]) -> bool
        ensures { result ≡ is_ended self.now last.now }
    {
        self.next.is_none() && last.is_empty()
    }

    /// Takes in the line of this number.
    #[tactic(auto, unfolding(crate::specs::Progress::taken, crate::specs::Progress::step))]
    pub fn take(
        &mut self,
        code: &Module,
        number: u32,
        text: &[u8],
    ) -> Result<(), Failure<CaseError>>
        ensures { Gives (λ _. self.new) result (taken code.now self.old number text.now) }
    {
        let Some(line) = Line::read(text) else {
            return Err(Failure::Refused(CaseError::Syntax { line: number }));
        };
        if !line.keyword().may_stand(self.next) {
            return Err(Failure::Refused(CaseError::Syntax { line: number }));
        }
        self.add(code, number, line)
    }

    fn add(&mut self, code: &Module, number: u32, line: Line<'_>) -> Result<(), Failure<CaseError>>
        ensures { Gives (λ _. self.new) result (with_line code.now number self.old.case line.entry) }
    {
        match line {
            Line::Heading => self.next = Some(Keyword::Field(Field::Seed)),
            Line::Field(field, value) => {
                if value < field.least() || value > field.most() {
                    return Err(Failure::Refused(CaseError::Range { line: number }));
                }
                self.next = Some(field.after());
                set_field(&mut self.case, field, value);
            }
            Line::Input(words) => {
                if words.is_input() {
                    return Err(Failure::Refused(CaseError::Slot { line: number }));
                }
                return Err(Failure::Refused(CaseError::Range { line: number }));
            }
            Line::Watch(words) => {
                self.next = Some(Keyword::Watch);
                add_site(code, number, &words, &mut self.case.watch)?;
            }
            Line::Turns(runs) => {
                self.next = Some(Keyword::Turn);
                add_turns(number, runs, &mut self.case.turns)?;
            }
            Line::Race(first, second) => {
                self.next = Some(Keyword::Race);
                add_race(number, first, second, &mut self.case.races)?;
            }
            Line::End => {
                if u64::from(self.case.visits) * u64::from(self.case.steps) > MOST_STEPS {
                    return Err(Failure::Refused(CaseError::Range { line: number }));
                }
                self.next = None;
            }
        }
        Ok(())
    }
}

/// Sets the number of a line of one number.
fn set_field(case: &mut Case, field: Field, value: u128)
    requires { is_within field value ≡ true }
    ensures { case.new ≡ with_field field value case.old }
{
    match field {
        Field::Seed => case.seed = value as u64,
        Field::Steps => case.steps = value as u32,
        Field::Visits => case.visits = value as u32,
        Field::Paths => case.paths = value as u32,
        Field::Schedules => case.schedules = value as u32,
    }
}

/// Adds a race.
fn add_race(
    number: u32,
    first: u128,
    second: u128,
    races: &mut List<(u32, u32)>,
) -> Result<(), Failure<CaseError>>
    ensures { Gives (λ _. races.new) result (with_race number first second races.old) }
{
    if first > u128::from(u32::MAX) || second > u128::from(u32::MAX) || races.len() >= MOST_RACES {
        return Err(Failure::Refused(CaseError::Range { line: number }));
    }
    races.items.push((first as u32, second as u32))?;
    Ok(())
}

/// Adds the turns of a line of runs.
#[tactic(auto, unfolding(crate::specs::Progress::with_runs))]
fn add_turns(number: u32, runs: RunWords<'_>, turns: &mut Turns) -> Result<(), Failure<CaseError>>
    ensures { Gives (λ _. turns.new) result (or_error (errors.Range number) (with_runs runs.entry turns.old)) }
{
    let mut runs = runs;
    'runs: while let Some(run) = runs.next() {
        if !add_run(run, turns)? {
            return Err(Failure::Refused(CaseError::Range { line: number }));
        }
    }
    Ok(())
}

/// Adds the turns of a run, if it is in its bounds, and says whether it is.
fn add_run(run: RunWord, turns: &mut Turns) -> Result<bool, AllocError>
    ensures { IfOk result (λ fits. (fits ≡ is_in_range turns.old run) × OnTrue fits (turns.new ≡ turns.old ++ run_turns run)) }
{
    let count = run.times.unwrap_or(1);
    if run.thread >= THREADS || count < 1 || count > MOST_TURNS as u128 {
        return Ok(false);
    }
    let length = turns.len() + count as usize;
    if length > MOST_TURNS {
        return Ok(false);
    }
    turns.items.resize(length, run.thread as u8)?;
    Ok(true)
}
