//! The labels and instructions of a body.

ghost use Rattle.std.specs.Prelude.{◌≡◌, [], ◌∷◌, MatchOption};
ghost use Rattle.ir_items.specs.Statement as spec;

use crate::segment::{Cut, Segment, Segments};
use ir_read::{Node, Rule, Terminal};
use std::marker::Model;

/// A label, or an instruction with its operands.
#[derive(Drop)]
pub struct Statement<'m, 's> {
    /// The line of its first token, from 1.
    pub line: u32,
    /// The name before `=`.
    pub result: Option<&'m Node<'s>>,
    /// The instruction's word, or the label.
    pub operation: &'m Node<'s>,
    /// What stands behind the word.
    pub operands: &'m [Node<'s>],
}

impl<'m, 's> Model for Statement<'m, 's> {
    ghost use Rattle.std.specs.Prelude.{option_map};
    ghost use Rattle.ir_items.specs.Statement.{Statement};

    ghost Value = { Statement };

    ghost view = { λ statement. record {
      line = statement.line;
      result = option_map (λ node. node.now) statement.result;
      operation = statement.operation.now;
      operands = statement.operands.now;
    } };
}

/// What is left of a body, which contracts see as its statements.
#[derive(Drop)]
pub struct Statements<'m, 's> {
    segments: Segments<'m, 's>,
}

impl<'m, 's> Model for Statements<'m, 's> {
    ghost use Rattle.std.specs.Prelude.{List};
    ghost use Rattle.ir_items.specs.Statement.{Statement, statements_in};

    ghost Value = { List Statement };

    ghost view = { λ statements. statements_in statements.segments };
}

impl<'m, 's> Statements<'m, 's> {
    /// The statements of a body's nodes.
    pub fn new(body: &'m [Node<'s>]) -> Statements<'m, 's>
        ensures { result ≡ spec.statements_of body.now }
    {
        Statements {
            segments: Segments::new(Cut::Statements, body),
        }
    }

    /// Takes off the first statement, where one is left.
    pub fn next(&mut self) -> Option<Statement<'m, 's>>
        ensures { MatchOption result ((self.old ≡ []) × (self.new ≡ [])) (λ statement. self.old ≡ statement ∷ self.new) }
    {
        match self.segments.next() {
            None => None,
            Some(segment) => Some(statement_of(&segment)),
        }
    }
}

impl<'m, 's> Statement<'m, 's> {
    pub fn is_label(&self) -> bool
        ensures { result ≡ spec.is_label self.now }
    {
        let operation = self.operation;
        matches!(operation.terminal, Terminal::Label)
    }
}

fn statement_of<'m, 's>(segment: &Segment<'m, 's>) -> Statement<'m, 's>
    ensures { result ≡ spec.statement_of segment.now }
{
    let first = segment.first;
    let rest = segment.rest;
    if let Some((equals, behind)) = rest.split_first()
        && let Some((operation, operands)) = behind.split_first()
        && matches!(equals.rule, Rule::Equals)
    {
        return Statement {
            line: first.line,
            result: Some(first),
            operation,
            operands,
        };
    }
    Statement {
        line: first.line,
        result: None,
        operation: first,
        operands: rest,
    }
}
