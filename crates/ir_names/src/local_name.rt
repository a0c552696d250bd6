//! The names of a body's arguments, blocks and registers.

ghost use Rattle.std.specs.Prelude.{◌≡◌};
ghost use Rattle.ir_names.specs.LocalName.{local_of};

use crate::number::Number;
use ir_read::Node;
use std::marker::Model;

/// A name that is no number, without sigil, quotes and colon.
#[derive(Drop)]
pub struct PlainName<'s> {
    text: &'s [u8],
}

impl<'s> Model for PlainName<'s> {
    ghost use Rattle.std.specs.Prelude.{ℕ, List};
    ghost use Rattle.std.specs.Coded.{coded_list, coded_ℕ};

    ghost Value = { List ℕ };

    ghost coded = { coded_list coded_ℕ };

    ghost view = { λ name. name.text.now };
}

impl<'s> PlainName<'s> {
    pub fn new(text: &'s [u8]) -> Self
        ensures { result ≡ text.now }
    {
        PlainName { text }
    }

    pub fn text(&self) -> &'s [u8]
        ensures { result.now ≡ self.now }
    {
        self.text
    }
}

/// The name of an argument, a block or a register.
#[derive(Drop)]
pub enum LocalName<'s> {
    /// Digits without quotes: `%1` and `%01` are one name, and `%"1"` is another.
    Number(Number<'s>),
    Plain(PlainName<'s>),
}

impl<'s> LocalName<'s> {
    /// The name that the text of a register's or a label's node writes.
    pub fn of(node: &Node<'s>) -> Self
        ensures { result ≡ local_of node.now.terminal node.now.text }
    {
        if node.is_numbered() {
            LocalName::Number(Number::of(node.name()))
        } else {
            LocalName::Plain(PlainName::new(node.name()))
        }
    }
}
