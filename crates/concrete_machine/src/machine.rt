//! A machine that runs a module.

ghost use Rattle.std.specs.Prelude.{◌≡◌, ◌+◌, ◌++◌, ◌<◌, ◌≤◌, [], All, IfOk, OnOk, slice_get};
ghost use Rattle.ir_types.specs.declared.«module».Module.{Module};
ghost use Rattle.machine_model.specs.Access.{pending_of_state};
ghost use Rattle.machine_model.specs.Enabled.{enabled, is_enabled};
ghost use Rattle.machine_model.specs.Runnable.{IsRunnable};
ghost use Rattle.machine_model.specs.Start.{started};
ghost use Rattle.machine_model.specs.System.{same_state, thread_has_ended};
ghost use Rattle.concrete_machine.specs.Machine.{machine_turn};

use crate::call::MOST_THREADS;
use crate::setting::Setting;
use crate::starts::start;
use crate::turns::turn;
use crate::waiting::{is_enabled, pending_operation};
use ir_types::{Input, Module, Site};
use machine_model::{Pending, State};
use rc_base::{NoMemory, Steps};
use run_types::{OutItem, Outcome, Run, TurnEnd, Turns};
use std::alloc::Global;
use std::marker::Model;
use std::sync::ledger::Ledger;

/// A state in place, from the start of a module on, and the numbers that were decided on the way.
#[derive(Debug, Drop)]
pub struct Machine {
    state: State,
    decisions: Vec<u64>,
    /// The numbers that one turn decides; made once and used in each turn.
    decided: Vec<u64>,
}

impl Model for Machine {
    ghost use Rattle.std.specs.Prelude.{◌≤◌, length};
    ghost use Rattle.concrete_machine.specs.Machine.{Machine as Seen};

    ghost Value = { Seen };

    ghost view = { λ machine. record {
      state = machine.state;
      decided = machine.decisions.items;
    } };

    ghost invariant = { λ machine. length machine.state.threads ≤ 16 };
}

/// Counts what a turn costs.
fn count<L: Ledger>(cost: u32, steps: &mut Steps<L>)
    ensures { steps.new ≡ steps.old + cost }
{
    for _ in 0..cost {
        steps.tick();
    }
}

impl Machine {
    /// The machine of a module and an input before its first turn: main waits to start.
    pub fn start(alloc: Global, code: &Module, input: &Input) -> Result<Machine, NoMemory>
        requires { IsRunnable code.now }
        ensures state { IfOk result (λ machine. machine.state ≡ started code.now) }
        ensures decided { IfOk result (λ machine. machine.decided ≡ []) }
    {
        Ok(Machine {
            state: start(alloc, code)?,
            decisions: Vec::new(alloc),
            decided: Vec::new(alloc),
        })
    }

    /// Whether a thread may take a turn: it was made, has not ended, and doesn't have to wait.
    pub fn enabled(&self, code: &Module, thread: u32) -> bool
        requires { IsRunnable code.now }
        ensures { result ≡ is_enabled code.now self.now.state thread }
    {
        is_enabled(code, &self.state, thread as usize)
    }

    /// Lists the threads that may take a turn, rising, in place of what the list held.
    pub fn list_enabled(&self, code: &Module, list: &mut Vec<u32>) -> Result<(), NoMemory>
        requires { IsRunnable code.now }
        ensures value { OnOk result (list.new.items ≡ enabled code.now self.now.state) }
        ensures few { OnOk result (All (λ thread. thread < 16) list.new.items) }
    {
        let most = self.state.threads.len().min(MOST_THREADS);
        list.clear();
        for thread in 0..most as u32 {
            if self.enabled(code, thread) {
                list.push(thread)?;
            }
        }
        Ok(())
    }

    /// Whether a thread was made and has ended.
    pub fn has_ended(&self, thread: u32) -> bool
        ensures { result ≡ thread_has_ended (slice_get self.now.state.threads thread) }
    {
        let found = self.state.threads.as_slice().get(thread as usize);
        found.is_some_and(|found| found.ended.is_some())
    }

    /// What a thread waits to do.
    pub fn pending(&self, code: &Module, thread: u32) -> Pending
        requires { IsRunnable code.now }
        ensures { result ≡ pending_of_state code.now self.now.state thread }
    {
        match self.state.threads.as_slice().get(thread as usize) {
            Some(thread) => pending_operation(code, thread),
            None => Pending::Unborn,
        }
    }

    /// Whether the states of two machines are equal, but for their output.
    #[tactic(auto, unfolding(machine_model::specs::System::same_state))]
    pub fn same_state(&self, other: &Machine) -> bool
        ensures { result ≡ same_state self.now.state other.now.state }
    {
        self.state.threads == other.state.threads
            && self.state.objects == other.state.objects
            && self.state.locks == other.state.locks
            && self.state.conditions == other.state.conditions
    }

    /// Runs one turn of an enabled thread: its pending operation, and then its invisible instructions until
    /// the next operation is pending or it has ended. `left` is the budget of steps; what the turn costs is
    /// taken from it and counted in `steps`. Loads and stores at the watched sites are visible.
    ///
    /// The module is that of the machine's start. Where no memory is left the machine is given up.
    pub fn turn<L: Ledger>(
        self,
        code: &Module,
        input: &Input,
        watch: &[Site],
        thread: u32,
        left: &mut u32,
        steps: &mut Steps<L>,
    ) -> Result<(Machine, TurnEnd), NoMemory>
        requires { IsRunnable code.now }
        ensures state { IfOk result (λ done.
            done.0.state ≡ (machine_turn code.now input.now watch.now self thread left.old).after) }
        ensures decided { IfOk result (λ done.
            done.0.decided ≡ self.decided ++ (machine_turn code.now input.now watch.now self thread left.old).decided) }
        ensures end { IfOk result (λ done. done.1 ≡ (machine_turn code.now input.now watch.now self thread left.old).end) }
        ensures left { IfOk result (λ done. left.new ≡ (machine_turn code.now input.now watch.now self thread left.old).left) }
        ensures falls { IfOk result (λ done. left.new ≤ left.old) }
        ensures cost { IfOk result (λ done. left.new + steps.new ≡ left.old + steps.old) }
    {
        let Machine {
            mut state,
            mut decisions,
            mut decided,
        } = self;
        let alloc = *decided.allocator();
        let setting = Setting { code, input, watch };
        let before = *left;
        decided.clear();
        let end = turn(
            alloc,
            &setting,
            &mut state,
            thread as usize,
            left,
            &mut decided,
        )?;
        count(before - *left, steps);
        decisions.extend_from_slice(&decided)?;
        let machine = Machine {
            state,
            decisions,
            decided,
        };
        Ok((machine, end))
    }

    /// An equal machine.
    pub fn fork(&self) -> Result<Machine, NoMemory>
        ensures { IfOk result (λ copy. copy ≡ self.now) }
    {
        Ok(Machine {
            state: self.state.clone()?,
            decisions: self.decisions.clone()?,
            decided: self.decided.clone()?,
        })
    }

    /// What was printed so far; the exit status of a process that has ended is the last item.
    pub fn output(&self) -> &[OutItem]
        ensures { result.now ≡ self.now.state.output }
    {
        self.state.output.as_slice()
    }

    /// The numbers that were decided so far.
    pub fn decisions(&self) -> &[u64]
        ensures { result.now ≡ self.now.decided }
    {
        &self.decisions
    }

    /// What a run of these turns leaves that ended like this.
    pub fn into_run(self, turns: Turns, outcome: Outcome) -> Run
        ensures { result ≡ record { turns = turns; decisions = self.decided; output = self.state.output; outcome = outcome } }
    {
        Run {
            turns,
            decisions: self.decisions.into(),
            output: self.state.output,
            outcome,
        }
    }
}
