//! The whole program: words in, a status and a text out.

ghost use Rattle.std.specs.Prelude.{◌≡◌, ℕ, ◌<◌, ◌≤◌, ◌⊎◌, ◌↔◌, List, Some, IsNone};
ghost use Rattle.rc_base.specs.Counts.{count_end, Rose};
ghost use Rattle.rc_base.specs.Sink.{Appends, Keeps};
ghost use Rattle.rc_base.specs.Write.{AppendsFront};
ghost use Rattle.race_top.specs.Answer.{GivesIfRead};
ghost use Rattle.race_top.specs.Command.{command_of, task_of};
ghost use Rattle.race_top.specs.Due.{Tells, TellsLongModule, answer_in_files, due};
ghost use Rattle.race_top.specs.Files.{EndsAtModule, HasCauses};
ghost use Rattle.race_top.specs.Refusal.{refusal_line};
ghost use Rattle.race_top.specs.Status.{CanAnswer, IsSilent, IsStatus, IsWhole, RefusesModule, WritesAnswer, WritesFront, WritesRefusal};

use crate::answer::{classified_text, replayed_text};
use crate::command::Command;
use crate::files::Files;
use crate::refusal::Refusal;
use crate::status::{NO_MEMORY, READ_FAILED, REFUSED, USAGE, WHOLE, WRITE_FAILED};
use crate::stop::Stop;
use rc_base::{Failed, Gate, Shelf, Sink, Words, write_whole};
use std::alloc::Global;
use std::thread::Threads;

/// Does what the words ask for, which are those after the program's name, and answers the exit status.
///
/// The files are read from `shelf`, and the text goes to `out` once all of it is made. What a shelf or a sink
/// doesn't tell, as files and standard output don't, is outside the clauses that speak of bytes.
pub fn run<R: Threads + Sync, F: Shelf, O: Sink, P: Sink, G: Gate + Sync>(
    rt: &R,
    alloc: Global,
    words: &Words,
    shelf: &mut F,
    out: &mut O,
    proofs: &mut P,
    gate: &G,
) -> u8
    ensures status { IsStatus result }
    ensures usage { (result ≡ USAGE) ↔ IsNone (command_of words.now) }
    ensures unread { result ≡ USAGE → (F.faults shelf.new ≡ F.faults shelf.old) × (F.given shelf.new ≡ F.given shelf.old) }

    // The cause of each status, also where no bytes are told.
    ensures answer { result ≡ WHOLE → WritesAnswer (command_of words.now) (O.wrote out.old) (O.wrote out.new) }
    ensures read { result ≡ READ_FAILED → Rose (F.faults shelf.old) (F.faults shelf.new) }
    ensures refusal { result ≡ REFUSED → WritesRefusal (command_of words.now) (O.wrote out.old) (O.wrote out.new) (F.given shelf.old) (F.given shelf.new) }
    ensures write { result ≡ WRITE_FAILED → Rose (O.faults out.old) (O.faults out.new) }
    ensures front { result ≡ WRITE_FAILED → WritesFront (command_of words.now) (O.wrote out.old) (O.wrote out.new) (F.given shelf.old) (F.given shelf.new) }
    ensures silent { IsSilent result → Keeps (O.wrote out.old) (O.wrote out.new) }
    ensures proofs { (P.wrote proofs.new ≡ P.wrote proofs.old) × (P.faults proofs.new ≡ P.faults proofs.old) }

    // Where the shelf tells the bytes of the files, these decide.
    ensures due { (code case : List ℕ) → Tells (F.holds shelf.old) (command_of words.now) code case →
        IsWhole result → (result ≡ (due (command_of words.now) code case).status)
        × Appends (O.wrote out.old) (O.wrote out.new) (due (command_of words.now) code case).text }
    ensures due_front { (code case : List ℕ) → Tells (F.holds shelf.old) (command_of words.now) code case →
        result ≡ WRITE_FAILED → AppendsFront (O.wrote out.old) (O.wrote out.new) (due (command_of words.now) code case).text }
    ensures complete { (code case : List ℕ) → Tells (F.holds shelf.old) (command_of words.now) code case →
        F.faults shelf.new ≡ F.faults shelf.old → F.faults shelf.old < count_end →
        O.faults out.new ≡ O.faults out.old → O.faults out.old < count_end →
        (result ≡ (due (command_of words.now) code case).status) ⊎ (result ≡ NO_MEMORY) }

    // The module's file is read first, and ends the reading where it is too long, whatever the case's file holds.
    ensures order { (code : List ℕ) → TellsLongModule (F.holds shelf.old) (command_of words.now) code →
        RefusesModule result (O.wrote out.old) (O.wrote out.new) (F.given shelf.old) (F.given shelf.new) }

    // Nothing that the shelf tells changes, and no count falls.
    ensures told { (name : List ℕ) → F.holds shelf.new name ≡ F.holds shelf.old name }
    ensures counts { (F.faults shelf.old ≤ F.faults shelf.new) × (F.given shelf.old ≤ F.given shelf.new) × (O.faults out.old ≤ O.faults out.new) }
{
    let Some(command) = Command::from_words(words) else {
        return USAGE;
    };
    match prepare(alloc, shelf, command) {
        Ok(text) => write_text(out, &text, WHOLE),
        Err(Stop::ReadFailed) => READ_FAILED,
        Err(Stop::Refused(refusal)) => write_refusal(alloc, out, refusal),
        Err(Stop::NoMemory) => NO_MEMORY,
    }
}

/// Reads the files of a command and makes its text.
#[tactic(auto, using(crate::proofs::Reading::refused_first, crate::proofs::Reading::can_refuse))]
fn prepare<F: Shelf>(alloc: Global, shelf: &mut F, command: Command<'_>) -> Result<Vec<u8>, Stop>
    ensures due { (code case : List ℕ) → Tells (F.holds shelf.old) (Some (task_of command.entry)) code case →
        GivesIfRead (λ text. text.items) result (answer_in_files (task_of command.entry) code case) }
    ensures answer { CanAnswer (Some (task_of command.entry)) result }
    ensures order { (code : List ℕ) → TellsLongModule (F.holds shelf.old) (Some (task_of command.entry)) code → EndsAtModule result (F.given shelf.old) (F.given shelf.new) }
    ensures cause { HasCauses result (F.faults shelf.old) (F.faults shelf.new) (F.given shelf.old) (F.given shelf.new) }
    ensures told { (other : List ℕ) → F.holds shelf.new other ≡ F.holds shelf.old other }
{
    let files = Files::read(alloc, shelf, command)?;
    match command {
        Command::Replay { .. } => replayed_text(alloc, &files),
        Command::Classify { .. } => classified_text(alloc, &files),
    }
}

/// Writes the line of a refusal, once it is made.
fn write_refusal<O: Sink>(alloc: Global, out: &mut O, refusal: Refusal) -> u8
    ensures status { (result ≡ REFUSED) ⊎ (result ≡ WRITE_FAILED) ⊎ (result ≡ NO_MEMORY) }
    ensures all { result ≡ REFUSED → Appends (O.wrote out.old) (O.wrote out.new) (refusal_line refusal) }
    ensures front { result ≡ WRITE_FAILED → AppendsFront (O.wrote out.old) (O.wrote out.new) (refusal_line refusal) }
    ensures cause { result ≡ WRITE_FAILED → Rose (O.faults out.old) (O.faults out.new) }
    ensures silent { result ≡ NO_MEMORY → Keeps (O.wrote out.old) (O.wrote out.new) }
    ensures kept { O.faults out.old ≤ O.faults out.new }
{
    let Ok(line) = refusal.line(alloc) else {
        return NO_MEMORY;
    };
    write_text(out, line.as_bytes(), REFUSED)
}

/// Writes a whole text, and answers `done` where all of it was written.
fn write_text<O: Sink>(out: &mut O, text: &[u8], done: u8) -> u8
    requires { IsWhole done }
    ensures status { (result ≡ done) ⊎ (result ≡ WRITE_FAILED) }
    ensures all { result ≡ done → Appends (O.wrote out.old) (O.wrote out.new) text.now }
    ensures front { result ≡ WRITE_FAILED → AppendsFront (O.wrote out.old) (O.wrote out.new) text.now }
    ensures cause { result ≡ WRITE_FAILED → Rose (O.faults out.old) (O.faults out.new) }
    ensures kept { O.faults out.old ≤ O.faults out.new }
{
    match write_whole(out, text) {
        Ok(()) => done,
        Err(Failed) => WRITE_FAILED,
    }
}
