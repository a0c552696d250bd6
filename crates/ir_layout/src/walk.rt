//! The way through the nodes of a type, from the first to the last.

ghost use Rattle.std.specs.Prelude.{◌≡◌, false, OnOk};
ghost use Rattle.ir_layout.specs.Extent.{kept};
ghost use Rattle.ir_layout.specs.Walk as spec;

use crate::extent::{Extent, Overflow, bytes_of, empty, word};
use crate::frame::{Form, Frame, struct_form};
use crate::layout::Structs;
use ir_read::{Node, Terminal, bits_of, count_of, name_of};
use std::alloc::{AllocError, Global};
use std::marker::Model;

/// The types that are open.
#[derive(Drop)]
pub struct Walk {
    top: Frame,
    /// The one that was opened last is the last.
    below: Vec<Frame>,
    /// Whether a `<` came, whose `{` is next.
    packed: bool,
}

impl Model for Walk {
    ghost use Rattle.std.specs.Prelude.{reverse};
    ghost use Rattle.ir_layout.specs.Walk.{Walk as State};

    ghost Value = { State };

    ghost view = { λ walk. record { top = walk.top; below = reverse walk.below.items; packed = walk.packed } };
}

impl Walk {
    /// Before the first node.
    pub fn new(alloc: Global) -> Walk
        ensures { result ≡ spec.begun }
    {
        Walk {
            top: Frame::new(Form::Whole),
            below: Vec::new(alloc),
            packed: false,
        }
    }

    /// What the last type takes that was read.
    pub fn extent(&self) -> Extent
        ensures { result ≡ self.now.top.extent }
    {
        self.top.extent
    }

    /// Goes on by a node.
    #[tactic(auto, unfolding(crate::specs::Walk::stepped))]
    pub fn step<S: Structs>(
        &mut self,
        overflow: Overflow,
        structs: &S,
        node: &Node<'_>,
    ) -> Result<(), AllocError>
        ensures { OnOk result (self.new ≡ spec.stepped (kept overflow) (S.extents structs.now overflow) node.now self.old) }
    {
        match node.terminal {
            Terminal::Int => self.put(overflow, word(bytes_of(bits_of(node.text)))),
            Terminal::Ptr => self.put(overflow, word(8)),
            Terminal::Void => self.put(overflow, empty()),
            Terminal::Local => {
                let name = name_of(Terminal::Local, node.text);
                self.put(overflow, structs.extent(overflow, name));
            }
            Terminal::Natural => self.open(Form::Array {
                count: count_of(node.text),
            })?,
            Terminal::Less => self.packed = true,
            Terminal::LeftBrace => self.open(struct_form(self.packed))?,
            Terminal::RightBrace | Terminal::RightBracket => self.close(overflow),
            _ => {}
        }
        Ok(())
    }

    /// A type without parts.
    fn put(&mut self, overflow: Overflow, extent: Extent)
        ensures { self.new ≡ spec.put (kept overflow) extent self.old }
    {
        self.top = self.top.with_part(overflow, extent);
    }

    fn open(&mut self, form: Form) -> Result<(), AllocError>
        ensures { OnOk result (self.new ≡ spec.opened form self.old) }
    {
        self.below.push(self.top)?;
        self.top = Frame::new(form);
        self.packed = false;
        Ok(())
    }

    /// The type that was opened last is a part of the one before.
    fn close(&mut self, overflow: Overflow)
        ensures { self.new ≡ spec.closed (kept overflow) self.old }
    {
        let extent = self.top.closed(overflow);
        self.top = match self.below.pop() {
            Some(frame) => frame.with_part(overflow, extent),
            None => Frame {
                form: Form::Whole,
                extent,
            },
        };
    }
}
