//! The parameters of a function.

ghost use Rattle.std.specs.Prelude.{◌≡◌, [], ◌∷◌, MatchOption, option_map};
ghost use Rattle.ir_items.specs.declared.segment.Cut.{Cut};
ghost use Rattle.ir_items.specs.Item.{parameter_of, parameters_in};
ghost use Rattle.ir_items.specs.Segment.{segments_of};

use crate::segment::{Cut, Segment, Segments};
use ir_read::Node;
use std::marker::Model;

/// A parameter of a function.
#[derive(Drop)]
pub struct Parameter<'m, 's> {
    pub value_type: &'m Node<'s>,
    pub name: Option<&'m Node<'s>>,
}

impl<'m, 's> Model for Parameter<'m, 's> {
    ghost use Rattle.std.specs.Prelude.{option_map};
    ghost use Rattle.ir_items.specs.Item.{Parameter};

    ghost Value = { Parameter };

    ghost view = { λ parameter. record { value_type = parameter.value_type.now; name = option_map (λ name. name.now) parameter.name } };
}

/// What is left of a function's parameters.
#[derive(Drop)]
pub struct Parameters<'m, 's> {
    segments: Segments<'m, 's>,
}

impl<'m, 's> Model for Parameters<'m, 's> {
    ghost use Rattle.std.specs.Prelude.{List};
    ghost use Rattle.ir_items.specs.Item.{Parameter, parameters_in};

    ghost Value = { List Parameter };

    ghost view = { λ parameters. parameters_in parameters.segments };
}

impl<'m, 's> Parameters<'m, 's> {
    /// The parameters of the nodes between a function's brackets.
    pub fn new(nodes: &'m [Node<'s>]) -> Parameters<'m, 's>
        ensures { result ≡ parameters_in (segments_of Cut.Parameters nodes.now) }
    {
        Parameters {
            segments: Segments::new(Cut::Parameters, nodes),
        }
    }

    /// Takes off the first parameter, where one is left.
    pub fn next(&mut self) -> Option<Parameter<'m, 's>>
        ensures { MatchOption result ((self.old ≡ []) × (self.new ≡ [])) (λ parameter. self.old ≡ parameter ∷ self.new) }
    {
        match self.segments.next() {
            None => None,
            Some(segment) => Some(parameter_of(&segment)),
        }
    }
}

fn parameter_of<'m, 's>(segment: &Segment<'m, 's>) -> Parameter<'m, 's>
    ensures { result ≡ parameter_of segment.now }
{
    Parameter {
        value_type: segment.first,
        name: segment.rest.first(),
    }
}
