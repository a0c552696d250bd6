//! What is kept of a module's text.

ghost use Rattle.std.specs.Prelude.{◌≡◌, ◌++◌, OnOk};
ghost use Rattle.ir_read.specs.Name.{is_numbered, name_of};
ghost use Rattle.ir_read.specs.Node.{is_kept, noted};
ghost use Rattle.ir_read.specs.Terminal.{literal_of};

use crate::grammar::Rule;
use crate::name::{is_numbered, name_of};
use crate::number::literal_of;
use crate::terminal::Terminal;
use std::alloc::AllocError;
use std::marker::Model;

/// A token of an item, with the rule that took it. Its text is lent.
#[derive(Drop)]
pub struct Node<'s> {
    /// The token's bytes, with sigil, quotes and colon.
    pub text: &'s [u8],
    /// Its line, from 1.
    pub line: u32,
    pub rule: Rule,
    pub terminal: Terminal,
}

impl<'s> Model for Node<'s> {
    ghost use Rattle.ir_read.specs.Node.{Told};

    ghost Value = { Told };

    ghost view = { λ node. record { rule = node.rule; terminal = node.terminal; text = node.text.now; line = node.line } };
}

impl<'s> Node<'s> {
    /// The name of a register, a global, a struct or a label, without sigil, quotes and colon.
    pub fn name(&self) -> &'s [u8]
        ensures { result.now ≡ name_of self.now.terminal self.now.text }
    {
        name_of(self.terminal, self.text)
    }

    /// Whether the name is a number: digits without quotes.
    pub fn is_numbered(&self) -> bool
        ensures { result ≡ is_numbered self.now.terminal self.now.text }
    {
        is_numbered(self.terminal, self.text)
    }

    /// The number of a literal, modulo 2^64. None where it is a word or a string, or 2^64 or more without its sign.
    pub fn literal(&self) -> Option<u64>
        ensures { result ≡ literal_of self.now.text }
    {
        literal_of(self.text)
    }
}

/// The items of a module, as nodes in the order of the text.
#[derive(Drop)]
pub struct RawModule<'s> {
    pub nodes: Vec<Node<'s>>,
}

/// Keeps a token that a rule took.
#[tactic(auto, unfolding(crate::specs::Node::noted, crate::specs::Node::told))]
#[inline(always)]
pub fn note<'s>(
    nodes: &mut Vec<Node<'s>>,
    taken: Option<Rule>,
    terminal: Terminal,
    text: &'s [u8],
    line: u32,
) -> Result<(), AllocError>
    ensures { OnOk result (nodes.new.items ≡ nodes.old.items ++ noted taken (record { terminal = terminal; text = text.now; line = line })) }
{
    if let Some(rule) = taken
        && is_kept(terminal)
    {
        nodes.push(Node {
            text,
            line,
            rule,
            terminal,
        })?;
    }
    Ok(())
}

/// Whether a token makes a node. Commas and the end of the text don't.
#[tactic(auto, unfolding(crate::specs::Node::is_kept))]
fn is_kept(terminal: Terminal) -> bool
    ensures { result ≡ is_kept terminal }
{
    !matches!(terminal, Terminal::Comma | Terminal::End)
}
