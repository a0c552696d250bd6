//! The types that nodes spell, as views of the nodes.

ghost use Rattle.std.specs.Prelude.{◌≡◌, ◌≤◌, ◌^◌, length, drop};
ghost use Rattle.ir_read.specs.Shape as spec;

use crate::name::name_of;
use crate::node::Node;
use crate::number::number_of;
use crate::terminal::Terminal;
use std::marker::Model;

/// A type, as the nodes that spell it.
#[derive(Drop)]
pub struct RawType<'m, 's> {
    nodes: &'m [Node<'s>],
}

impl<'m, 's> Model for RawType<'m, 's> {
    ghost use Rattle.std.specs.Prelude.{List};
    ghost use Rattle.ir_read.specs.Node.{Told};

    ghost Value = { List Told };

    ghost view = { λ raw. raw.nodes.now };
}

/// What a type is: an integer of so many bits, an array of so many elements, a struct that is named, one with its
/// fields, or a packed one.
#[derive(Clone, Copy, Debug, PartialEq, Eq)]
pub enum TypeForm {
    Int { bits: u32 },
    Ptr,
    Void,
    Array { count: u64 },
    Named,
    Struct,
    Packed,
}

impl<'m, 's> RawType<'m, 's> {
    /// The type that stands in front of the nodes, and the nodes behind it.
    pub fn split(nodes: &'m [Node<'s>]) -> (RawType<'m, 's>, &'m [Node<'s>])
        ensures front { result.0 ≡ spec.type_in nodes.now }
        ensures rest { result.1.now ≡ spec.behind_type nodes.now }
    {
        let (front, rest) = nodes.split_at(type_length(nodes));
        (RawType { nodes: front }, rest)
    }

    /// The nodes that spell it.
    pub fn nodes(&self) -> &'m [Node<'s>]
        ensures { result.now ≡ self.now }
    {
        self.nodes
    }

    pub fn form(&self) -> TypeForm
        ensures { result ≡ spec.form_of self.now }
    {
        form_of(self.nodes)
    }

    /// The name of a named struct, without sigil and quotes.
    pub fn name(&self) -> &'s [u8]
        ensures { result.now ≡ spec.struct_name self.now }
    {
        struct_name(self.nodes)
    }

    /// The type of an array's elements.
    pub fn element(&self) -> RawType<'m, 's>
        ensures { result ≡ spec.element_of self.now }
    {
        RawType {
            nodes: element_of(self.nodes),
        }
    }

    /// The nodes of a struct's fields, one after another.
    pub fn fields(&self) -> &'m [Node<'s>]
        ensures { result.now ≡ spec.fields_of self.now }
    {
        fields_of(self.nodes)
    }

    /// The nodes of a packed struct's fields, one after another.
    pub fn packed_fields(&self) -> &'m [Node<'s>]
        ensures { result.now ≡ spec.packed_fields_of self.now }
    {
        packed_fields_of(self.nodes)
    }
}

/// How many bits an integer of the type `i1`, `i8`, `i16`, `i32` or `i64` has.
pub fn bits_of(text: &[u8]) -> u32
    ensures { result ≡ spec.bits_of text.now }
{
    if text == "i1".as_bytes() {
        1
    } else if text == "i8".as_bytes() {
        8
    } else if text == "i16".as_bytes() {
        16
    } else if text == "i32".as_bytes() {
        32
    } else {
        64
    }
}

/// How many of the nodes are of the type in front.
pub fn type_length(nodes: &[Node<'_>]) -> usize
    ensures length { result ≡ spec.type_length nodes.now }
    ensures within { result ≤ length nodes.now }
{
    let mut depth: usize = 0;
    let mut count: usize = 0;
    for node in nodes {
        count += 1;
        depth = depth_behind(node.terminal, depth);
        if depth == 0 {
            return count;
        }
    }
    count
}

/// How many brackets are open behind a token of the class.
fn depth_behind(terminal: Terminal, depth: usize) -> usize
    requires { depth ≤ 2 ^ 62 }
    ensures { result ≡ spec.depth_behind terminal depth }
{
    match terminal {
        Terminal::LeftBracket | Terminal::LeftBrace | Terminal::Less => depth + 1,
        Terminal::RightBracket | Terminal::RightBrace | Terminal::Greater => depth.saturating_sub(
            1,
        ),
        _ => depth,
    }
}

fn form_of(nodes: &[Node<'_>]) -> TypeForm
    ensures { result ≡ spec.form_of nodes.now }
{
    let Some((node, rest)) = nodes.split_first() else {
        return TypeForm::Void;
    };
    match node.terminal {
        Terminal::Int => TypeForm::Int {
            bits: bits_of(node.text),
        },
        Terminal::Ptr => TypeForm::Ptr,
        Terminal::Local => TypeForm::Named,
        Terminal::LeftBracket => TypeForm::Array {
            count: count_in(rest),
        },
        Terminal::LeftBrace => TypeForm::Struct,
        Terminal::Less => TypeForm::Packed,
        _ => TypeForm::Void,
    }
}

fn count_in(nodes: &[Node<'_>]) -> u64
    ensures { result ≡ spec.count_in nodes.now }
{
    match nodes.first() {
        Some(node) => count_of(node.text),
        None => 0,
    }
}

/// How many elements an array has, by the text of its number.
pub fn count_of(text: &[u8]) -> u64
    ensures { result ≡ spec.count_of text.now }
{
    match number_of(text) {
        Some(number) => number,
        None => 0,
    }
}

fn struct_name<'s>(nodes: &[Node<'s>]) -> &'s [u8]
    ensures { result.now ≡ spec.struct_name nodes.now }
{
    match nodes.first() {
        Some(node) => name_of(node.terminal, node.text),
        None => b"",
    }
}

fn element_of<'m, 's>(nodes: &'m [Node<'s>]) -> &'m [Node<'s>]
    ensures { result.now ≡ spec.element_of nodes.now }
{
    without_last(behind(nodes, 3))
}

fn fields_of<'m, 's>(nodes: &'m [Node<'s>]) -> &'m [Node<'s>]
    ensures { result.now ≡ spec.fields_of nodes.now }
{
    without_last(behind(nodes, 1))
}

fn packed_fields_of<'m, 's>(nodes: &'m [Node<'s>]) -> &'m [Node<'s>]
    ensures { result.now ≡ spec.packed_fields_of nodes.now }
{
    without_last(without_last(behind(nodes, 2)))
}

fn behind<'m, 's>(nodes: &'m [Node<'s>], count: usize) -> &'m [Node<'s>]
    ensures { result.now ≡ drop count nodes.now }
{
    &nodes[count.min(nodes.len())..]
}

fn without_last<'m, 's>(nodes: &'m [Node<'s>]) -> &'m [Node<'s>]
    ensures { result.now ≡ spec.without_last nodes.now }
{
    match nodes {
        [] => nodes,
        [front @ .., _] => front,
    }
}
