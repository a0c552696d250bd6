//! Numbers that rise, and a search among them.

ghost use Rattle.std.specs.Prelude.{◌≡◌, ℕ, ◌<◌, [], ◌∷◌, ◌++◌, length, nat_eq, position, slice_index, IsTrue, OnErr, OnOk, Some};

use crate::number::Number;
use rc_base::NoMemory;
use std::alloc::Global;
use std::marker::Model;

/// Numbers, each above those before it.
#[derive(Drop)]
pub struct Rising<'s> {
    numbers: Vec<Number<'s>>,
}

impl<'s> Model for Rising<'s> {
    ghost use Rattle.std.specs.Prelude.{ℕ, List};
    ghost use Rattle.std.specs.Coded.{coded_list, coded_ℕ};
    ghost use Rattle.ir_names.specs.Rising.{Rises};

    ghost Value = { List ℕ };

    ghost coded = { coded_list coded_ℕ };

    ghost view = { λ rising. rising.numbers.items };

    ghost invariant = { λ rising. Rises rising.numbers.items };
}

impl<'s> Rising<'s> {
    pub fn new(alloc: Global) -> Self
        ensures { result ≡ [] }
    {
        Rising {
            numbers: Vec::new(alloc),
        }
    }

    /// The place of the number, from 0. Most numbers of a body rise from 0 without a gap, so that each stands at its own.
    pub fn place(&self, number: &Number<'_>) -> Option<usize>
        ensures { result ≡ position (nat_eq number.now) self.now }
    {
        match usize::try_from(number.likely_place()) {
            Ok(place) if self.has_at(place, number) => Some(place),
            _ => self.search(number),
        }
    }

    /// Whether the number stands at the place.
    fn has_at(&self, place: usize, number: &Number<'_>) -> bool
        ensures { IsTrue result → position (nat_eq number.now) self.now ≡ Some place }
    {
        match self.numbers.get(place) {
            Some(other) => other == number,
            None => false,
        }
    }

    fn search(&self, number: &Number<'_>) -> Option<usize>
        ensures { result ≡ position (nat_eq number.now) self.now }
    {
        self.numbers.binary_search(number).ok()
    }

    pub fn push(&mut self, number: Number<'s>) -> Result<(), NoMemory>
        requires { (place : ℕ) → place < length self.old → slice_index self.old place < number }
        ensures ok { OnOk result (self.new ≡ self.old ++ number.entry ∷ []) }
        ensures err { OnErr result (self.new ≡ self.old) }
    {
        self.numbers.push(number)?;
        Ok(())
    }
}
