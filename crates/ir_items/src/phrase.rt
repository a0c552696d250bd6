//! The types, operands, names and words that an instruction or an item is made of.

ghost use Rattle.std.specs.Prelude.{◌≡◌, ◌+◌, ◌<◌, ◌≤◌, ◌^◌, [], ◌∷◌, length, MatchOption};
ghost use Rattle.std.specs.List.{prefix_len};
ghost use Rattle.ir_items.specs.Phrase as spec;

use crate::item::before_last;
use crate::segment::left;
use ir_read::{Node, Rule, Terminal};
use std::marker::Model;

/// What is left of a list of nodes, which contracts see as its phrases.
#[derive(Drop)]
pub struct Phrases<'m, 's> {
    nodes: &'m [Node<'s>],
    start: usize,
}

impl<'m, 's> Model for Phrases<'m, 's> {
    ghost use Rattle.std.specs.Prelude.{List, drop};
    ghost use Rattle.ir_read.specs.Node.{Told};
    ghost use Rattle.ir_items.specs.Phrase.{phrases_of};

    ghost Value = { List (List Told) };

    ghost view = { λ phrases. phrases_of (drop phrases.start phrases.nodes.now) };
}

impl<'m, 's> Phrases<'m, 's> {
    /// The phrases of the nodes.
    pub fn new(nodes: &'m [Node<'s>]) -> Phrases<'m, 's>
        ensures { result ≡ spec.phrases_of nodes.now }
    {
        Phrases { nodes, start: 0 }
    }

    /// Takes off the first phrase, where one is left. A phrase has at least one node.
    #[tactic(auto, using(crate::proofs::Phrasing::phrases_from, crate::proofs::Phrasing::no_phrases))]
    pub fn next(&mut self) -> Option<&'m [Node<'s>]>
        ensures { MatchOption result ((self.old ≡ []) × (self.new ≡ [])) (λ phrase. self.old ≡ phrase.now ∷ self.new) }
    {
        let left = left(self.nodes, self.start);
        let marks = marks_len(left);
        let (_, left) = left.split_at(marks);
        match left.split_first() {
            None => None,
            Some((first, behind)) => {
                let len = open_len(first, behind) + 1;
                let (phrase, _) = left.split_at(len);
                self.start += marks + len;
                Some(phrase)
            }
        }
    }
}

/// What a phrase of several nodes has within its first and its last one.
pub fn inside<'m, 's>(phrase: &'m [Node<'s>]) -> &'m [Node<'s>]
    ensures { result.now ≡ spec.inside_of phrase.now }
{
    before_last(left(phrase, 1))
}

/// How many marks stand in front.
fn marks_len(nodes: &[Node<'_>]) -> usize
    ensures value { result ≡ prefix_len spec.is_mark nodes.now }
    ensures within { result ≤ length nodes.now }
{
    nodes
        .iter()
        .take_while(|node| parts_others(node.rule))
        .count()
}

/// How many nodes are left of a phrase behind its first one.
fn open_len(first: &Node<'_>, nodes: &[Node<'_>]) -> usize
    ensures value { result ≡ spec.open_len (spec.depth_behind 0 first.now) nodes.now }
    ensures within { result ≤ length nodes.now }
{
    let mut depth = depth_behind(0, first);
    let mut len = 0;
    for node in nodes {
        if depth == 0 {
            break;
        }
        depth = depth_behind(depth, node);
        len += 1;
    }
    len
}

/// How many phrases are open behind the node, where so many are before it.
#[tactic(auto, unfolding(crate::specs::Phrase::depth_behind))]
fn depth_behind(depth: usize, node: &Node<'_>) -> usize
    requires { depth < 2 ^ 63 }
    ensures value { result ≡ spec.depth_behind depth node.now }
    ensures step { result ≤ depth + 1 }
{
    if parts_others(node.rule) {
        depth
    } else if opens(node.rule, node.terminal) || opens_within(depth, node.rule) {
        depth + 1
    } else if closes(node.terminal) {
        depth.saturating_sub(1)
    } else {
        depth
    }
}

/// Whether the node begins a type, a constant expression, or the types that a call writes.
#[tactic(auto, unfolding(crate::specs::Phrase::opens))]
fn opens(rule: Rule, terminal: Terminal) -> bool
    ensures { result ≡ spec.opens rule terminal }
{
    match rule {
        Rule::Type | Rule::Aggregate => is_bracket(terminal),
        Rule::Initializer | Rule::Operand => is_expression(terminal),
        Rule::Callee => matches!(terminal, Terminal::LeftParen),
        _ => false,
    }
}

/// Whether it is the `{` behind the `<` of a packed type. That of a list of initial values opens nothing.
#[tactic(auto, unfolding(crate::specs::Phrase::opens_within))]
fn opens_within(depth: usize, rule: Rule) -> bool
    ensures { result ≡ spec.opens_within depth rule }
{
    depth > 0 && matches!(rule, Rule::PackedBrace)
}

fn is_bracket(terminal: Terminal) -> bool
    ensures { result ≡ spec.is_bracket terminal }
{
    matches!(
        terminal,
        Terminal::LeftBracket | Terminal::LeftBrace | Terminal::Less
    )
}

fn is_expression(terminal: Terminal) -> bool
    ensures { result ≡ spec.is_expression terminal }
{
    matches!(terminal, Terminal::GetElementPtr | Terminal::IntToPtr)
}

#[tactic(auto, unfolding(crate::specs::Phrase::closes))]
fn closes(terminal: Terminal) -> bool
    ensures { result ≡ spec.closes terminal }
{
    matches!(
        terminal,
        Terminal::RightParen | Terminal::RightBracket | Terminal::RightBrace | Terminal::Greater
    )
}

/// Whether what the rule took only parts others.
#[tactic(auto, unfolding(crate::specs::Phrase::parts_others))]
fn parts_others(rule: Rule) -> bool
    ensures { result ≡ spec.parts_others rule }
{
    matches!(
        rule,
        Rule::Equals
            | Rule::OpenConstant
            | Rule::KeyX
            | Rule::KeyTo
            | Rule::KeyLabel
            | Rule::Edge
            | Rule::CloseEdge
            | Rule::Branch
            | Rule::OpenCases
            | Rule::Cases
            | Rule::OpenArguments
            | Rule::Arguments
            | Rule::MoreArguments
    )
}
