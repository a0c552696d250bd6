//! Faults of a module, of which the first is answered.

ghost use Rattle.std.specs.Prelude.{◌≡◌, None};
ghost use Rattle.module_fault.specs.Fault as spec;

use crate::cause::{Cause, lesser};
use std::marker::Model;

/// Something that is wrong with a module, and where.
#[derive(Clone, Copy, Debug, PartialEq, Eq)]
pub struct Fault {
    /// From 1; 0 where no line of the module is at fault.
    pub line: u32,
    pub cause: Cause,
}

/// The first of the faults that were noted, in whichever order.
#[derive(Debug, Drop)]
pub struct First {
    found: Option<Fault>,
}

impl Model for First {
    ghost use Rattle.std.specs.Prelude.{Option as Maybe};
    ghost use Rattle.module_fault.specs.declared.fault.Fault.{Fault as One};

    ghost Value = { Maybe One };

    ghost view = { λ first. first.found };
}

impl First {
    /// No fault.
    pub fn new() -> First
        ensures { result ≡ None }
    {
        First { found: None }
    }

    pub fn fault(&self) -> Option<Fault>
        ensures { result ≡ self.now }
    {
        self.found
    }

    /// Notes a fault, where there is one.
    pub fn join(&mut self, fault: Option<Fault>)
        ensures { self.new ≡ spec.earlier self.old fault }
    {
        self.found = earlier(self.found, fault);
    }

    /// Notes what is wrong at the line, where something is.
    pub fn note(&mut self, line: u32, cause: Option<Cause>)
        ensures { self.new ≡ spec.note self.old line cause }
    {
        self.join(fault_at(line, cause));
    }
}

/// The cause at its line.
fn fault_at(line: u32, cause: Option<Cause>) -> Option<Fault>
    ensures { result ≡ spec.fault_at line cause }
{
    match cause {
        Some(cause) => Some(Fault { line, cause }),
        None => None,
    }
}

/// The one of two faults that is answered.
fn earlier(one: Option<Fault>, other: Option<Fault>) -> Option<Fault>
    ensures { result ≡ spec.earlier one other }
{
    match (one, other) {
        (None, _) => other,
        (_, None) => one,
        (Some(first), Some(second)) => earlier_of(first, second),
    }
}

fn earlier_of(one: Fault, other: Fault) -> Option<Fault>
    ensures { result ≡ spec.earlier_of one other }
{
    if one.line < other.line {
        Some(one)
    } else if other.line < one.line {
        Some(other)
    } else {
        fault_at(one.line, lesser(Some(one.cause), Some(other.cause)))
    }
}
