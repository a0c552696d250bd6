//! The items of a module, and what they have.

ghost use Rattle.std.specs.Prelude.{◌≡◌, ◌≤◌, [], ◌∷◌, length, take, get_or, MatchOption};
ghost use Rattle.std.specs.List.{prefix_len};
ghost use Rattle.ir_items.specs.declared.segment.Cut.{Cut};
ghost use Rattle.ir_items.specs.Segment.{segments_of};
ghost use Rattle.ir_items.specs.Item as spec;

use crate::parameter::Parameters;
use crate::segment::{Cut, Segment, Segments, left};
use ir_read::{Node, Terminal};
use std::marker::Model;

/// What an item of a module defines or declares.
#[derive(Clone, Copy, Debug, PartialEq, Eq)]
pub enum ItemForm {
    /// `%name = type ..`.
    Struct,
    /// `@name = global ..` or `constant ..`.
    Global,
    Declare,
    Define,
}

/// An item of a module.
#[derive(Drop)]
pub struct Item<'m, 's> {
    /// Its first node, whose line is the item's.
    pub first: &'m Node<'s>,
    /// The nodes behind it.
    pub rest: &'m [Node<'s>],
}

impl<'m, 's> Model for Item<'m, 's> {
    ghost use Rattle.ir_items.specs.Segment.{Segment};

    ghost Value = { Segment };

    ghost view = { λ item. record { first = item.first.now; rest = item.rest.now } };
}

/// What is left of a module, which contracts see as its items.
#[derive(Drop)]
pub struct Items<'m, 's> {
    segments: Segments<'m, 's>,
}

impl<'m, 's> Model for Items<'m, 's> {
    ghost use Rattle.std.specs.Prelude.{List};
    ghost use Rattle.ir_items.specs.Segment.{Segment};

    ghost Value = { List Segment };

    ghost view = { λ items. items.segments };
}

impl<'m, 's> Items<'m, 's> {
    /// The items of a module's nodes.
    pub fn new(nodes: &'m [Node<'s>]) -> Items<'m, 's>
        ensures { result ≡ segments_of Cut.Items nodes.now }
    {
        Items {
            segments: Segments::new(Cut::Items, nodes),
        }
    }

    /// Takes off the first item, where one is left.
    pub fn next(&mut self) -> Option<Item<'m, 's>>
        ensures { MatchOption result ((self.old ≡ []) × (self.new ≡ [])) (λ item. self.old ≡ item ∷ self.new) }
    {
        match self.segments.next() {
            None => None,
            Some(Segment { first, rest }) => Some(Item { first, rest }),
        }
    }
}

impl<'m, 's> Item<'m, 's> {
    pub fn form(&self) -> ItemForm
        ensures { result ≡ spec.form_of self.now }
    {
        let first = self.first;
        match first.terminal {
            Terminal::Local => ItemForm::Struct,
            Terminal::Global | Terminal::OddGlobal => ItemForm::Global,
            Terminal::KeyDeclare => ItemForm::Declare,
            _ => ItemForm::Define,
        }
    }

    /// The node with the item's name.
    pub fn name(&self) -> &'m Node<'s>
        ensures { result.now ≡ spec.name_of self.now }
    {
        match self.form() {
            ItemForm::Declare | ItemForm::Define => node_at(self.rest, 1, self.first),
            ItemForm::Struct | ItemForm::Global => self.first,
        }
    }

    /// Of a struct its type; of a global its type and what it holds.
    pub fn value(&self) -> &'m [Node<'s>]
        ensures { result.now ≡ spec.value_of self.now }
    {
        left(self.rest, 2)
    }

    /// Whether a global is a `constant`.
    pub fn is_constant(&self) -> bool
        ensures { result ≡ spec.is_constant self.now }
    {
        node_at(self.rest, 1, self.first).text == "constant".as_bytes()
    }

    /// The type of a function's result.
    pub fn result_type(&self) -> &'m Node<'s>
        ensures { result.now ≡ spec.result_type_of self.now }
    {
        node_at(self.rest, 0, self.first)
    }

    /// The parameters of a function.
    pub fn parameters(&self) -> Parameters<'m, 's>
        ensures { result ≡ spec.parameters_of self.now }
    {
        let signature = left(self.rest, 3);
        let (parameters, _) = signature.split_at(parameters_len(signature));
        Parameters::new(parameters)
    }

    /// Whether a declared function takes further arguments.
    pub fn is_variadic(&self) -> bool
        ensures { result ≡ spec.is_variadic self.now }
    {
        let signature = left(self.rest, 3);
        let end = node_at(signature, parameters_len(signature), self.first);
        matches!(end.terminal, Terminal::Ellipsis)
    }

    /// The labels and instructions of a defined function.
    pub fn body(&self) -> &'m [Node<'s>]
        ensures { result.now ≡ spec.body_of self.now }
    {
        let signature = left(self.rest, 3);
        before_last(left(signature, parameters_len(signature) + 2))
    }
}

/// The node at a place, or another one.
fn node_at<'m, 's>(nodes: &'m [Node<'s>], place: usize, other: &'m Node<'s>) -> &'m Node<'s>
    ensures { result.now ≡ get_or nodes.now place other.now }
{
    if place < nodes.len() {
        &nodes[place]
    } else {
        other
    }
}

/// How many nodes the parameters have, at the front of what stands behind a function's opening bracket.
fn parameters_len(signature: &[Node<'_>]) -> usize
    ensures value { result ≡ prefix_len spec.is_parameter_node signature.now }
    ensures within { result ≤ length signature.now }
{
    signature
        .iter()
        .take_while(|node| !matches!(node.terminal, Terminal::RightParen | Terminal::Ellipsis))
        .count()
}

/// All nodes but the last one.
pub fn before_last<'m, 's>(nodes: &'m [Node<'s>]) -> &'m [Node<'s>]
    ensures { result.now ≡ spec.before_last nodes.now }
{
    let (front, _) = nodes.split_at(nodes.len().saturating_sub(1));
    front
}
