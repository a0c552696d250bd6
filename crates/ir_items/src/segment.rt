//! Lists of nodes, cut before the nodes with which something begins.

ghost use Rattle.std.specs.Prelude.{◌≡◌, ◌≤◌, [], ◌∷◌, length, drop, MatchOption};
ghost use Rattle.ir_items.specs.Segment as spec;

use ir_read::{Node, Rule};
use std::marker::Model;

/// Before which nodes a list is cut.
#[derive(Clone, Copy)]
pub enum Cut {
    /// The first node of each item of a module.
    Items,
    /// The type of each parameter of a function.
    Parameters,
    /// The first node of each label and instruction of a body.
    Statements,
}

/// The node with which something begins, and those behind it, up to the next cut.
#[derive(Drop)]
pub struct Segment<'m, 's> {
    pub first: &'m Node<'s>,
    pub rest: &'m [Node<'s>],
}

impl<'m, 's> Model for Segment<'m, 's> {
    ghost use Rattle.ir_items.specs.Segment.{Segment};

    ghost Value = { Segment };

    ghost view = { λ segment. record { first = segment.first.now; rest = segment.rest.now } };
}

/// What is left of a list of nodes, which contracts see as its segments.
#[derive(Drop)]
pub struct Segments<'m, 's> {
    cut: Cut,
    nodes: &'m [Node<'s>],
    start: usize,
}

impl<'m, 's> Model for Segments<'m, 's> {
    ghost use Rattle.std.specs.Prelude.{List, drop};
    ghost use Rattle.ir_items.specs.Segment.{Segment};

    ghost Value = { List Segment };

    ghost use Rattle.ir_items.specs.Segment.{segments_of};

    ghost view = { λ segments. segments_of segments.cut (drop segments.start segments.nodes.now) };
}

impl<'m, 's> Segments<'m, 's> {
    /// The segments of the nodes.
    pub fn new(cut: Cut, nodes: &'m [Node<'s>]) -> Segments<'m, 's>
        ensures { result ≡ spec.segments_of cut nodes.now }
    {
        Segments {
            cut,
            nodes,
            start: 0,
        }
    }

    /// Takes off the first segment, where one is left.
    #[tactic(auto, using(crate::proofs::Cuts::segments_from))]
    pub fn next(&mut self) -> Option<Segment<'m, 's>>
        ensures { MatchOption result ((self.old ≡ []) × (self.new ≡ [])) (λ segment. self.old ≡ segment ∷ self.new) }
    {
        match left(self.nodes, self.start).split_first() {
            None => None,
            Some((first, behind)) => {
                let len = rest_len(self.cut, first.rule, behind);
                let (rest, _) = behind.split_at(len);
                self.start += len + 1;
                Some(Segment { first, rest })
            }
        }
    }
}

/// The nodes from a place on.
pub fn left<'m, 's>(nodes: &'m [Node<'s>], start: usize) -> &'m [Node<'s>]
    ensures { result.now ≡ drop start nodes.now }
{
    let (_, left) = nodes.split_at(start.min(nodes.len()));
    left
}

/// How many nodes lie before the next cut, behind a node that the rule took.
fn rest_len(cut: Cut, first: Rule, nodes: &[Node<'_>]) -> usize
    ensures value { result ≡ spec.rest_len cut first nodes.now }
    ensures within { result ≤ length nodes.now }
{
    let mut previous = first;
    let mut len = 0;
    for node in nodes {
        if begins(cut, previous, node.rule) {
            break;
        }
        previous = node.rule;
        len += 1;
    }
    len
}

/// Whether something begins with the node that the rule took, behind one that the other rule took.
#[tactic(auto, unfolding(crate::specs::Segment::begins))]
fn begins(cut: Cut, previous: Rule, rule: Rule) -> bool
    ensures { result ≡ spec.begins cut previous rule }
{
    match cut {
        Cut::Items => matches!(rule, Rule::Items),
        Cut::Parameters => matches!(rule, Rule::ValueType | Rule::ParameterType),
        Cut::Statements => {
            matches!(rule, Rule::Body)
                || (matches!(rule, Rule::Operation) && !matches!(previous, Rule::Equals))
        }
    }
}
