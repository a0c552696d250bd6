//! A reading of a module's tokens, one at a time.

ghost use Rattle.std.specs.Prelude.{◌≡◌, [], ◌∷◌, true, IfOk};
ghost use Rattle.ir_lex.specs.Token.{is_token};
ghost use Rattle.rc_base.specs.Failures.{Gives};
ghost use Rattle.ir_read.specs.Cause.{ends_type as spec_ends_type};
ghost use Rattle.ir_read.specs.Read as spec;

use crate::cause::{ends_type, error_of};
use crate::error::ModuleError;
use crate::grammar::Rule;
use crate::machine::Machine;
use crate::node::{Node, RawModule, note};
use crate::skip::{Mode, drops_comma};
use crate::terminal::{Terminal, lexed_class, terminal_of};
use ir_lex::Token;
use rc_base::Failure;
use std::alloc::{AllocError, Global};
use std::marker::Model;

/// What comes behind a text's tokens, with its line.
#[derive(Clone, Copy)]
pub enum Ending {
    /// The end of the text, in its last line.
    End { line: u32 },
    /// A place where no token begins.
    Bad { line: u32 },
}

impl Ending {
    fn terminal(self) -> Terminal
        ensures { result ≡ spec.terminal_at self }
    {
        match self {
            Ending::End { .. } => Terminal::End,
            Ending::Bad { .. } => Terminal::Bad,
        }
    }

    fn line(self) -> u32
        ensures { result ≡ spec.line_at self }
    {
        match self {
            Ending::End { line } | Ending::Bad { line } => line,
        }
    }
}

/// A reading so far.
#[derive(Drop)]
pub struct Reader<'s> {
    machine: Machine,
    last: Last,
    nodes: Vec<Node<'s>>,
}

/// The last token, skipped ones aside, with the rule that took it. Whether it ended a type is asked only where the next
/// one is refused.
#[derive(Clone, Copy)]
struct Last {
    rule: Rule,
    terminal: Terminal,
}

/// A token that ends no type.
const NO_TYPE: Last = Last {
    rule: Rule::Items,
    terminal: Terminal::End,
};

impl<'s> Model for Reader<'s> {
    ghost use Rattle.ir_read.specs.Cause.{ends_type};
    ghost use Rattle.ir_read.specs.Read.{Progress};

    ghost Value = { Progress };

    ghost view = { λ reader. record { state = reader.machine; behind_type = ends_type reader.last.rule reader.last.terminal; nodes = reader.nodes.items } };
}

impl<'s> Reader<'s> {
    /// Before the first token.
    #[tactic(auto, unfolding(crate::specs::Cause::ends_type))]
    pub fn new(alloc: Global) -> Result<Reader<'s>, AllocError>
        ensures { IfOk result (λ reader. reader ≡ spec.beginning) }
    {
        Ok(Reader {
            machine: Machine::new(alloc)?,
            last: NO_TYPE,
            nodes: Vec::new(alloc),
        })
    }

    /// Goes on with a token.
    #[inline(always)]
    pub fn take(&mut self, token: &Token<'s>) -> Result<(), Failure<ModuleError>>
        ensures { Gives (λ _. self.new) result (spec.put self.old (spec.lexeme_of token.now)) }
    {
        self.put(terminal_of(token.kind, token.text), token.text, token.line)
    }

    /// Goes on with a token that a lexer found.
    #[inline(always)]
    pub fn take_lexed(&mut self, token: &Token<'s>) -> Result<(), Failure<ModuleError>>
        requires { is_token token.now.kind token.now.text ≡ true }
        ensures { Gives (λ _. self.new) result (spec.put self.old (spec.lexeme_of token.now)) }
    {
        self.put(lexed_class(token.kind, token.text), token.text, token.line)
    }

    /// Goes on with a token of the class. A reader that refused a token is of no more use.
    #[tactic(auto, unfolding(crate::specs::Read::put))]
    #[inline(always)]
    pub fn put(
        &mut self,
        terminal: Terminal,
        text: &'s [u8],
        line: u32,
    ) -> Result<(), Failure<ModuleError>>
        ensures { Gives (λ _. self.new) result (spec.put self.old (record { terminal = terminal; text = text.now; line = line })) }
    {
        let mode = self.machine.mode();
        match self.machine.feed(terminal) {
            Ok(taken) => {
                self.last = self.last.after(taken, mode, terminal);
                note(&mut self.nodes, taken, terminal, text, line)?;
                Ok(())
            }
            Err(Failure::Refused(refusal)) => {
                let behind_type = directly_behind(mode, self.last.ends_type());
                Err(Failure::Refused(error_of(behind_type, refusal, terminal, line)))
            }
            Err(Failure::NoMemory) => Err(Failure::NoMemory),
        }
    }

    /// The items, where what ends the text may stand here.
    #[tactic(auto, using(crate::proofs::Reading::read_fails, crate::proofs::Reading::read_ends))]
    pub fn end(mut self, ending: Ending) -> Result<RawModule<'s>, Failure<ModuleError>>
        ensures { Gives (λ found. found.nodes.items) result (spec.read_from self.entry (spec.lexeme_at ending ∷ [])) }
    {
        self.put(ending.terminal(), b"", ending.line())?;
        self.finish()
    }

    /// The items. What ends a text leaves nothing to be wanted, so the other answer never comes behind it.
    #[tactic(auto, unfolding(crate::specs::Read::finished))]
    fn finish(self) -> Result<RawModule<'s>, Failure<ModuleError>>
        ensures { Gives (λ found. found.nodes.items) result (spec.finished self.entry) }
    {
        if self.machine.is_done() {
            Ok(RawModule { nodes: self.nodes })
        } else {
            Err(Failure::Refused(ModuleError::Syntax { line: 0 }))
        }
    }
}

/// Whether the next token directly follows one that ended a type: no comma lies between.
#[tactic(auto, unfolding(crate::specs::Read::directly_behind))]
#[inline(always)]
fn directly_behind(mode: Mode, behind_type: bool) -> bool
    ensures { result ≡ spec.directly_behind mode behind_type }
{
    match mode {
        Mode::Comma => false,
        _ => behind_type,
    }
}

impl Last {
    #[inline(always)]
    fn ends_type(self) -> bool
        ensures { result ≡ spec_ends_type self.rule self.terminal }
    {
        ends_type(self.rule, self.terminal)
    }

    /// Behind one more. A comma that a rule took lies between a type and what is skipped then.
    #[tactic(auto, unfolding(crate::specs::Read::behind_after, crate::specs::Read::directly_behind, crate::specs::Cause::ends_type))]
    #[inline(always)]
    fn after(self, taken: Option<Rule>, mode: Mode, terminal: Terminal) -> Last
        ensures { spec_ends_type result.rule result.terminal ≡ spec.behind_after taken mode (spec_ends_type self.rule self.terminal) terminal }
    {
        match (taken, mode) {
            (Some(rule), _) => Last { rule, terminal },
            (None, Mode::Comma) if !drops_comma(terminal) => NO_TYPE,
            _ => self,
        }
    }
}
