//! The causes of faults, and what is found beside one.

ghost use Rattle.std.specs.Prelude.{◌≡◌};
ghost use Rattle.module_fault.specs.Cause as spec;

/// What is wrong with a part of a module. Where several are, in one line, the first in this order is answered.
#[derive(Clone, Copy, Debug, PartialEq, Eq)]
pub enum Cause {
    /// A name that nothing in the module gives.
    UnknownName,
    /// A name that is given twice.
    Duplicate,
    /// Kinds or counts that don't fit.
    TypeMismatch,
    /// What the language has, and the tool doesn't.
    Unsupported,
    /// A module, a function, a block or a type that isn't whole.
    BadShape,
}

impl Cause {
    fn rank(self) -> u8
        ensures { result ≡ spec.rank self }
    {
        match self {
            Cause::UnknownName => 0,
            Cause::Duplicate => 1,
            Cause::TypeMismatch => 2,
            Cause::Unsupported => 3,
            Cause::BadShape => 4,
        }
    }
}

/// The one of two causes that is answered.
pub fn lesser(one: Option<Cause>, other: Option<Cause>) -> Option<Cause>
    ensures { result ≡ spec.lesser one other }
{
    match (one, other) {
        (None, _) => other,
        (_, None) => one,
        (Some(first), Some(second)) => {
            if first.rank() <= second.rank() {
                one
            } else {
                other
            }
        }
    }
}

/// The cause, unless it holds.
pub fn unless(holds: bool, cause: Cause) -> Option<Cause>
    ensures { result ≡ spec.unless holds cause }
{
    if holds { None } else { Some(cause) }
}

/// What a part of a module stands for, beside what is wrong with it. Where something is, the value stands for nothing,
/// and the module is refused.
#[derive(Debug, Drop)]
pub struct Found<T> {
    pub value: T,
    pub cause: Option<Cause>,
}
