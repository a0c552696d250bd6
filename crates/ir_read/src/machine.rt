//! The machine that reads tokens by the grammar, one at a time.

ghost use Rattle.std.specs.Prelude.{◌≡◌, IfOk, OnOk, OnErr, None};
ghost use Rattle.rc_base.specs.Failures.{Gives};
ghost use Rattle.ir_read.specs.Machine.{begun, fed, fed_behind_comma, fed_free, fed_in_form, is_done};

use crate::grammar::Rule;
use crate::skip::{Mode, drops_comma, is_comma, skip_of, skip_row};
use crate::terminal::Terminal;
use crate::wants::Wants;
use rc_base::Failure;
use std::alloc::{AllocError, Global};
use std::marker::Model;

/// How many times a rule stands for others before one takes the token, at most.
const DEPTH: u8 = 3;

/// Why a token can't be read.
#[derive(Clone, Copy)]
pub enum Refusal {
    /// The rule can't take it.
    Token(Rule),
    /// No rule takes the comma before it.
    Comma,
    /// A skipped form lacks its next token there.
    Form(Mode),
}

/// A reading so far: where it stands, and what is wanted of the tokens to come.
#[derive(Drop)]
pub struct Machine {
    mode: Mode,
    wants: Wants,
}

impl Model for Machine {
    ghost use Rattle.ir_read.specs.Machine.{State};

    ghost Value = { State };

    ghost view = { λ machine. record { mode = machine.mode; wants = machine.wants } };
}

impl Machine {
    /// Before the first token.
    pub fn new(alloc: Global) -> Result<Machine, AllocError>
        ensures { IfOk result (λ machine. machine ≡ begun) }
    {
        Ok(Machine {
            mode: Mode::Free,
            wants: Wants::items(alloc)?,
        })
    }

    /// Goes on with a token of the class. The answer is the rule that took it, where it is not skipped and no comma.
    /// A machine that refused a token is of no more use.
    #[tactic(auto, unfolding(crate::specs::Machine::fed))]
    #[inline(always)]
    pub fn feed(&mut self, terminal: Terminal) -> Result<Option<Rule>, Failure<Refusal>>
        ensures { Gives (λ taken. (taken, self.new)) result (fed self.old terminal) }
    {
        match self.mode {
            Mode::Free => {}
            Mode::Comma => self.pass_comma(terminal)?,
            mode => return self.feed_in_form(mode, terminal),
        }
        self.feed_free(terminal)
    }

    #[tactic(auto, unfolding(crate::specs::Machine::fed_free))]
    #[inline(always)]
    fn feed_free(&mut self, terminal: Terminal) -> Result<Option<Rule>, Failure<Refusal>>
        ensures { Gives (λ taken. (taken, self.new)) result (fed_free self.old.wants terminal) }
    {
        if is_comma(terminal) {
            self.mode = Mode::Comma;
            return Ok(None);
        }
        if let Some(mode) = skip_of(terminal) {
            self.mode = mode;
            return Ok(None);
        }
        match self.wants.advance(DEPTH, terminal) {
            Ok(rule) => {
                self.mode = Mode::Free;
                Ok(Some(rule))
            }
            Err(Failure::Refused(rule)) => Err(Failure::Refused(Refusal::Token(rule))),
            Err(Failure::NoMemory) => Err(Failure::NoMemory),
        }
    }

    /// Drops the comma that is held, or a rule takes it.
    #[tactic(auto, unfolding(crate::specs::Machine::fed_behind_comma))]
    fn pass_comma(&mut self, terminal: Terminal) -> Result<(), Failure<Refusal>>
        ensures passed { OnOk result (fed_behind_comma self.old.wants terminal ≡ fed_free self.new.wants terminal) }
        ensures refused { OnErr result (Gives (λ _. (None, self.new)) result (fed_behind_comma self.old.wants terminal)) }
    {
        if drops_comma(terminal) {
            return Ok(());
        }
        match self.wants.advance(DEPTH, Terminal::Comma) {
            Ok(_) => Ok(()),
            Err(Failure::Refused(_)) => Err(Failure::Refused(Refusal::Comma)),
            Err(Failure::NoMemory) => Err(Failure::NoMemory),
        }
    }

    #[tactic(auto, unfolding(crate::specs::Machine::fed_in_form))]
    fn feed_in_form(
        &mut self,
        mode: Mode,
        terminal: Terminal,
    ) -> Result<Option<Rule>, Failure<Refusal>>
        ensures { Gives (λ taken. (taken, self.new)) result (fed_in_form mode self.old.wants terminal) }
    {
        match skip_row(mode, terminal) {
            Some(next) => {
                self.mode = next;
                Ok(None)
            }
            None => Err(Failure::Refused(Refusal::Form(mode))),
        }
    }

    /// Whether the whole text is read.
    pub fn is_done(&self) -> bool
        ensures { result ≡ is_done self.now }
    {
        matches!(self.mode, Mode::Free) && self.wants.is_empty()
    }

    /// Where reading stands.
    pub fn mode(&self) -> Mode
        ensures { result ≡ self.now.mode }
    {
        self.mode
    }
}
