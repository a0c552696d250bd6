//! The way through what a global begins with, from its first phrase to its last.
//!
//! A list within a list is open beside the one around it, so that a value that is nested deep takes no stack.

ghost use Rattle.std.specs.Prelude.{◌≡◌, ◌∷◌, IfOk, OnOk};
ghost use Rattle.ir_read.specs.Escapes.{bytes_of_string};
ghost use Rattle.global_check.specs.Filling as spec;

use crate::image::{put, put_operand, zeros};
use crate::initial_list::InitialList;
use crate::resolved::{is_word, takes_string};
use instruction_check::{Scope, kind_in};
use ir_items::Phrases;
use ir_read::{Node, Terminal, bytes_of_string};
use ir_types::Bytes;
use module_fault::{Cause, Found, lesser, unless};
use rc_base::NoMemory;
use std::alloc::Global;
use std::marker::Model;
use struct_table::Member;

/// What a global begins with, so far.
#[derive(Drop)]
pub struct Filling<'m, 's> {
    /// The open lists; the one that was opened last is the last.
    lists: Vec<InitialList<'m, 's>>,
    /// Whether a `<` came, whose `{` is next.
    is_packed: bool,
    /// Where the next value lies, with its type. None where a type is next, or the end of a list.
    due: Option<Member<'m, 's>>,
    pub image: Bytes,
    pub cause: Option<Cause>,
}

impl<'m, 's> Model for Filling<'m, 's> {
    ghost use Rattle.std.specs.Prelude.{reverse};
    ghost use Rattle.global_check.specs.Filling.{Filling as State};

    ghost Value = { State };

    ghost view = { λ filling. record {
      lists = reverse filling.lists.items;
      is_packed = filling.is_packed;
      due = filling.due;
      image = filling.image;
      cause = filling.cause;
    } };
}

/// What a global of the type begins with that takes so many bytes.
pub fn filling_of<'m, 's>(
    alloc: Global,
    scope: &Scope<'_, 'm, 's>,
    size: u64,
    nodes: &'m [Node<'s>],
    initial: &'m [Node<'s>],
) -> Result<Filling<'m, 's>, NoMemory>
    ensures { IfOk result (λ found. found ≡ spec.filling_of scope.now size nodes.now initial.now) }
{
    let mut filling = Filling::new(alloc, size, nodes)?;
    filling.fill(alloc, scope, &mut Phrases::new(initial))?;
    Ok(filling)
}

impl<'m, 's> Filling<'m, 's> {
    fn new(alloc: Global, size: u64, nodes: &'m [Node<'s>]) -> Result<Filling<'m, 's>, NoMemory>
        ensures { IfOk result (λ filling. filling ≡ spec.begun size nodes.now) }
    {
        let image = zeros(alloc, size)?;
        Ok(Filling {
            lists: Vec::new(alloc),
            is_packed: false,
            due: Some(Member { place: 0, nodes }),
            image,
            cause: None,
        })
    }

    fn fill(
        &mut self,
        alloc: Global,
        scope: &Scope<'_, 'm, 's>,
        phrases: &mut Phrases<'m, 's>,
    ) -> Result<(), NoMemory>
        ensures { OnOk result (self.new ≡ spec.filled_from scope.now self.old phrases.old) }
    {
        while let Some(phrase) = phrases.next() {
            self.step(alloc, scope, phrase)?;
        }
        Ok(())
    }

    /// Goes on by a phrase.
    fn step(
        &mut self,
        alloc: Global,
        scope: &Scope<'_, 'm, 's>,
        phrase: &'m [Node<'s>],
    ) -> Result<(), NoMemory>
        ensures { OnOk result (self.new ≡ spec.with_phrase scope.now self.old phrase.now) }
    {
        let Some(node) = phrase.first() else {
            return Ok(());
        };
        match self.due.take() {
            Some(due) => self.take_value(alloc, scope, due, node, phrase),
            None => self.take_type(node, phrase),
        }
    }

    // ---- where a type is next, or the end of a list

    fn take_type(&mut self, node: &Node<'s>, phrase: &'m [Node<'s>]) -> Result<(), NoMemory>
        ensures { OnOk result (self.new ≡ spec.at_type node.now.terminal self.old phrase.now) }
    {
        match node.terminal {
            Terminal::RightBracket | Terminal::RightBrace => {
                self.close();
                Ok(())
            }
            Terminal::Greater => Ok(()),
            _ => self.expect(phrase),
        }
    }

    /// Takes the type that stands before a value.
    fn expect(&mut self, phrase: &'m [Node<'s>]) -> Result<(), NoMemory>
        ensures { OnOk result (self.new ≡ spec.typed self.old phrase.now) }
    {
        match self.lists.pop() {
            Some(list) => self.expect_part(list, phrase),
            None => {
                self.expect_at(0, phrase, Some(Cause::TypeMismatch));
                Ok(())
            }
        }
    }

    fn expect_part(
        &mut self,
        list: InitialList<'m, 's>,
        phrase: &'m [Node<'s>],
    ) -> Result<(), NoMemory>
        ensures { OnOk result (self.new ≡ spec.typed_part list.entry self.old.lists self.old phrase.now) }
    {
        let mut list = list;
        let (place, cause) = list.take_part(phrase);
        self.lists.push(list)?;
        self.expect_at(place, phrase, cause);
        Ok(())
    }

    fn expect_at(&mut self, place: u64, nodes: &'m [Node<'s>], cause: Option<Cause>)
        ensures { self.new ≡ spec.expected self.old.lists self.old place nodes.now cause }
    {
        self.due = Some(Member { place, nodes });
        self.cause = lesser(self.cause, cause);
    }

    fn close(&mut self)
        ensures { self.new ≡ spec.closed self.old }
    {
        if let Some(list) = self.lists.pop() {
            self.cause = lesser(self.cause, list.end_cause());
        }
    }

    // ---- where a value is next

    fn take_value(
        &mut self,
        alloc: Global,
        scope: &Scope<'_, 'm, 's>,
        due: Member<'m, 's>,
        node: &Node<'s>,
        phrase: &'m [Node<'s>],
    ) -> Result<(), NoMemory>
        ensures { OnOk result (self.new ≡ spec.at_value node.now.terminal scope.now self.old due.entry node.now phrase.now) }
    {
        let structs = scope.structs;
        match node.terminal {
            Terminal::LeftBracket => self.open(InitialList::array(alloc, structs, &due)?),
            Terminal::Less => {
                self.expect_brace(due);
                Ok(())
            }
            Terminal::LeftBrace => {
                let found = InitialList::fields(alloc, structs, self.is_packed, &due)?;
                self.open(found)
            }
            Terminal::Bytes => self.put_string(alloc, &due, node),
            Terminal::LiteralWord => self.put_literal(alloc, scope, &due, node, phrase),
            _ => self.put_word(alloc, scope, &due, phrase),
        }
    }

    fn open(&mut self, found: Found<InitialList<'m, 's>>) -> Result<(), NoMemory>
        ensures { OnOk result (self.new ≡ spec.opened self.old found.entry.value found.entry.cause) }
    {
        self.lists.push(found.value)?;
        self.is_packed = false;
        self.due = None;
        self.cause = lesser(self.cause, found.cause);
        Ok(())
    }

    fn expect_brace(&mut self, due: Member<'m, 's>)
        ensures { self.new ≡ spec.packed self.old due.entry }
    {
        self.is_packed = true;
        self.due = Some(due);
    }

    fn put_string(
        &mut self,
        alloc: Global,
        due: &Member<'m, 's>,
        node: &Node<'s>,
    ) -> Result<(), NoMemory>
        ensures { OnOk result (self.new ≡ spec.string_at self.old due.now (bytes_of_string node.now.text)) }
    {
        let bytes = bytes_of_string(alloc, node.text)?;
        let fits = takes_string(due.nodes, bytes.len() as u64);
        put(&mut self.image.items, due.place, &bytes);
        self.end_value(unless(fits, Cause::TypeMismatch));
        Ok(())
    }

    /// `zeroinitializer` is of every type.
    fn put_literal(
        &mut self,
        alloc: Global,
        scope: &Scope<'_, 'm, 's>,
        due: &Member<'m, 's>,
        node: &Node<'s>,
        phrase: &'m [Node<'s>],
    ) -> Result<(), NoMemory>
        ensures { OnOk result (self.new ≡ spec.literal_at scope.now self.old due.now node.now phrase.now) }
    {
        if node.text == "zeroinitializer".as_bytes() {
            self.end_value(None);
            Ok(())
        } else {
            self.put_word(alloc, scope, due, phrase)
        }
    }

    /// An integer or a pointer.
    fn put_word(
        &mut self,
        alloc: Global,
        scope: &Scope<'_, 'm, 's>,
        due: &Member<'m, 's>,
        phrase: &'m [Node<'s>],
    ) -> Result<(), NoMemory>
        ensures { OnOk result (self.new ≡ spec.word_at scope.now self.old due.now phrase.now) }
    {
        if is_word(due.nodes) {
            self.put_operand(alloc, scope, due, phrase)
        } else {
            self.end_value(Some(Cause::TypeMismatch));
            Ok(())
        }
    }

    fn put_operand(
        &mut self,
        alloc: Global,
        scope: &Scope<'_, 'm, 's>,
        due: &Member<'m, 's>,
        phrase: &'m [Node<'s>],
    ) -> Result<(), NoMemory>
        ensures { OnOk result (self.new ≡ spec.operand_at scope.now self.old due.now phrase.now) }
    {
        let kind = kind_in(due.nodes);
        let found = scope.operand(alloc, kind, phrase)?;
        put_operand(&mut self.image.items, due.place, kind, found.value);
        self.end_value(found.cause);
        Ok(())
    }

    fn end_value(&mut self, cause: Option<Cause>)
        ensures { self.new ≡ spec.filled self.old self.old.image cause }
    {
        self.due = None;
        self.cause = lesser(self.cause, cause);
    }
}
