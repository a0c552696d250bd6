//! A type of which some parts are read.

ghost use Rattle.std.specs.Prelude.{◌≡◌};
ghost use Rattle.ir_layout.specs.Extent.{empty, kept};
ghost use Rattle.ir_layout.specs.Walk as spec;

use crate::extent::{Extent, Overflow, empty, ended, repeated, with_field};

/// What is open: a whole type, an array of so many elements, a struct or a packed one.
#[derive(Clone, Copy)]
pub enum Form {
    Whole,
    Array { count: u64 },
    Plain,
    Packed,
}

/// An open type, with what its parts take so far.
#[derive(Clone, Copy)]
pub struct Frame {
    pub form: Form,
    pub extent: Extent,
}

impl Frame {
    /// Before its first part.
    pub fn new(form: Form) -> Frame
        ensures { result ≡ spec.frame form empty }
    {
        Frame {
            form,
            extent: empty(),
        }
    }

    /// With one more part.
    pub fn with_part(self, overflow: Overflow, part: Extent) -> Frame
        ensures { result ≡ spec.with_part (kept overflow) part self }
    {
        let extent = match self.form {
            Form::Whole => part,
            Form::Array { count } => repeated(overflow, count, part),
            Form::Plain => with_field(overflow, false, self.extent, part),
            Form::Packed => with_field(overflow, true, self.extent, part),
        };
        Frame {
            form: self.form,
            extent,
        }
    }

    /// What the type takes, with all of its parts.
    pub fn closed(self, overflow: Overflow) -> Extent
        ensures { result ≡ spec.closed_extent (kept overflow) self.form self.extent }
    {
        match self.form {
            Form::Plain => ended(overflow, false, self.extent),
            _ => self.extent,
        }
    }
}

/// The form of a struct with its fields.
pub fn struct_form(packed: bool) -> Form
    ensures { result ≡ spec.struct_form packed }
{
    if packed { Form::Packed } else { Form::Plain }
}
