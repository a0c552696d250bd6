//! A chooser that follows recorded turns, holds a thread, and lets it go.

ghost use Rattle.std.specs.Prelude.{◌≡◌, ◌≤◌, Contains, IfOk, IfSome, length, option_map, if◌then◌else◌};
ghost use Rattle.machine_model.specs.Follow.{follow_turns, is_among};
ghost use Rattle.machine_model.specs.Policy.{choose, followed_in, from_front, holding, released, releasing};
ghost use Rattle.machine_model.specs.Repeat.{same_policy};
ghost use Rattle.turn_policy.specs.Policy.{Chooses, choice_of, free_threads};

use crate::follow::{next_above, next_listed};
use machine_model::Mode;
use rc_base::NoMemory;
use run_types::{Turns, copy_turns};
use std::alloc::Global;
use std::marker::Model;

/// A choice: the thread, and the mode and the place in the list after it.
#[derive(Clone, Copy)]
struct Choice {
    thread: u32,
    mode: Mode,
    position: usize,
}

/// A chooser over a list of turns: its mode, how far it is in the list, and the thread that it chose last.
///
/// Contracts see the list and the chooser of the definitions.
#[derive(Debug, Drop)]
pub struct Policy {
    listed: Turns,
    mode: Mode,
    position: usize,
    last: Option<u32>,
}

impl Model for Policy {
    ghost use Rattle.std.specs.Prelude.{◌≤◌, length};
    ghost use Rattle.turn_policy.specs.Policy.{Listed};

    ghost Value = { Listed };

    ghost view = { λ policy. record {
      listed = policy.listed;
      policy = record { mode = policy.mode; follow = record { position = policy.position; last = policy.last } };
    } };

    ghost invariant = { λ policy. policy.position ≤ length policy.listed };
}

impl Policy {
    /// The chooser that follows a list of turns, at its front.
    pub fn follow(alloc: Global, turns: &Turns) -> Result<Policy, NoMemory>
        ensures { IfOk result (λ policy. policy ≡ record { listed = turns.now; policy = from_front }) }
    {
        Ok(Policy {
            listed: copy_turns(alloc, turns)?,
            mode: Mode::Before,
            position: 0,
            last: None,
        })
    }

    /// From now on the list is followed without this thread, from where it is.
    pub fn hold(&mut self, thread: u32)
        ensures { self.new ≡ record self.old { policy = holding thread self.old.policy } }
    {
        self.mode = Mode::Hold { thread };
    }

    /// This thread is chosen next, and then the list is followed from where it is.
    pub fn after(&mut self, thread: u32)
        ensures { self.new ≡ record self.old { policy = releasing thread self.old.policy } }
    {
        self.mode = Mode::After {
            thread,
            chosen: false,
        };
    }

    /// Chooses among the enabled threads, which rise. Where it may choose none of them it answers `None` and
    /// stays as it is.
    pub fn choose(&mut self, enabled: &[u32]) -> Option<u32>
        ensures chosen { Chooses result self.old self.new (choose self.old.listed self.old.policy enabled.now) }
        ensures among { IfSome result (Contains enabled.now) }
    {
        let choice = self.next_choice(enabled)?;
        self.mode = choice.mode;
        self.position = choice.position;
        self.last = Some(choice.thread);
        Some(choice.thread)
    }

    /// The thread that it would choose among the enabled ones.
    pub fn peek(&self, enabled: &[u32]) -> Option<u32>
        ensures { result ≡ option_map (λ choice. choice.thread) (choose self.now.listed self.now.policy enabled.now) }
    {
        let choice = self.next_choice(enabled)?;
        Some(choice.thread)
    }

    /// Its choice among the enabled threads.
    fn next_choice(&self, enabled: &[u32]) -> Option<Choice>
        ensures choice { option_map choice_of result ≡ choose self.now.listed self.now.policy enabled.now }
        ensures within { IfSome result (λ choice. choice.position ≤ length self.now.listed) }
    {
        match self.mode {
            Mode::Before => self.follow_without(None, enabled),
            Mode::Hold { thread } => self.follow_without(Some(thread), enabled),
            Mode::After { thread, chosen } => {
                if chosen {
                    self.follow_without(None, enabled)
                } else {
                    self.release(thread, enabled)
                }
            }
        }
    }

    /// Follows the list among the enabled threads other than the one that is held.
    fn follow_without(&self, held: Option<u32>, enabled: &[u32]) -> Option<Choice>
        ensures choice { option_map choice_of result ≡ option_map (followed_in self.now.policy.mode)
            (follow_turns self.now.listed self.now.policy.follow (free_threads held enabled.now)) }
        ensures within { IfSome result (λ choice. choice.position ≤ length self.now.listed) }
    {
        let first = next_above(None, held, enabled)?;
        let listed = self.listed.as_slice();
        match next_listed(&listed[self.position..], held, enabled) {
            Some(entry) => {
                let at = self.position + entry;
                Some(Choice {
                    thread: u32::from(listed[at]),
                    mode: self.mode,
                    position: at + 1,
                })
            }
            None => Some(Choice {
                thread: next_above(self.last, held, enabled).unwrap_or(first),
                mode: self.mode,
                position: listed.len(),
            }),
        }
    }

    /// Chooses the thread that was held, if it is enabled. Its turn moves nothing in the list.
    fn release(&self, thread: u32, enabled: &[u32]) -> Option<Choice>
        ensures choice { option_map choice_of result
            ≡ (if is_among enabled.now thread then Some (released thread self.now.policy.follow) else None) }
        ensures within { IfSome result (λ choice. choice.position ≤ length self.now.listed) }
    {
        if !enabled.contains(&thread) {
            return None;
        }
        let position = self.position;
        Some(Choice {
            thread,
            mode: Mode::After {
                thread,
                chosen: true,
            },
            position,
        })
    }

    /// Whether two choosers over one list go on alike.
    pub fn same(&self, other: &Policy) -> bool
        ensures { result ≡ same_policy self.now.policy other.now.policy }
    {
        let same_mode = self.mode == other.mode;
        let same_place = self.position == other.position;
        let same_last = self.last == other.last;
        same_mode && same_place && same_last
    }

    /// An equal chooser.
    pub fn fork(&self) -> Result<Policy, NoMemory>
        ensures { IfOk result (λ copy. copy ≡ self.now) }
    {
        Ok(Policy {
            listed: self.listed.clone()?,
            mode: self.mode,
            position: self.position,
            last: self.last,
        })
    }
}
