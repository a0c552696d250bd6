//! The names of a module's items of one kind, with the number of each.

ghost use Rattle.std.specs.Prelude.{◌≡◌, ◌<◌, [], length, position, unwrap_or, slice_get, IfOk, IfSome, IsTrue, OnOk, OnErr, Some};
ghost use Rattle.std.specs.BTreeMap.{IsUnchanged};
ghost use Rattle.std.specs.List.{IsDistinct};
ghost use Rattle.std.specs.Str.{bytes_eq};
ghost use Rattle.ir_names.specs.NameTable.{given, number_of, GivesNumber};

use crate::guesses::Guesses;
use rc_base::NoMemory;
use std::alloc::Global;
use std::collections::BTreeMap;
use std::marker::Model;

/// Names in the order in which they were first given. The number of a name is its place there, from 0.
#[derive(Drop)]
pub struct NameTable<'s> {
    names: Vec<&'s [u8]>,
    numbers: BTreeMap<&'s [u8], usize>,
    guesses: Guesses,
}

impl<'s> Model for NameTable<'s> {
    ghost use Rattle.std.specs.Prelude.{◌≡◌, ℕ, List, bytes_eq, map, position};
    ghost use Rattle.std.specs.Coded.{coded_list, coded_ℕ};
    ghost use Rattle.std.specs.List.{IsDistinct};
    ghost use Rattle.ir_names.specs.NameTable.{number_of};

    ghost Value = { List (List ℕ) };

    ghost coded = { coded_list (coded_list coded_ℕ) };

    ghost view = { λ table. map (λ name. name.now) table.names.items };

    ghost invariant = { λ table.
        ((name : List ℕ) → number_of table.numbers name
        ≡ position (bytes_eq name) (map (λ given. given.now) table.names.items))
        × IsDistinct bytes_eq (map (λ given. given.now) table.names.items) };
}

/// The number that the name has, or else the one that it is given here. A new name, as all names of a
/// good module are, is looked up once.
pub(crate) fn number_or_give<'s>(
    numbers: &mut BTreeMap<&'s [u8], usize>,
    name: &'s [u8],
    number: usize,
) -> Result<usize, NoMemory>
    ensures value { IfOk result (λ first. first ≡ unwrap_or (number_of numbers.old name.now) number) }
    ensures ok { OnOk result (GivesNumber numbers.old numbers.new name.now number) }
    ensures err { OnErr result (IsUnchanged numbers.old numbers.new) }
{
    let Some(first) = numbers.insert(name, number)? else {
        return Ok(number);
    };
    numbers.insert(name, first)?;
    Ok(first)
}

impl<'s> NameTable<'s> {
    /// No names. Takes no memory.
    pub fn new(alloc: Global) -> Self
        ensures { result ≡ [] }
    {
        NameTable {
            names: Vec::new(alloc),
            numbers: BTreeMap::new(alloc),
            guesses: Guesses::new(alloc),
        }
    }

    /// How many names there are, each of which is there once.
    pub fn len(&self) -> usize
        ensures len { result ≡ length self.now }
        ensures once { IsDistinct bytes_eq self.now }
    {
        self.names.len()
    }

    /// The number of the name.
    pub fn number(&self, name: &[u8]) -> Option<usize>
        ensures place { result ≡ position (bytes_eq name.now) self.now }
        ensures within { IfSome result (λ number. number < length self.now) }
        ensures named { IfSome result (λ number. slice_get self.now number ≡ Some name.now) }
    {
        match self.guesses.place(name) {
            Some(place) if self.has_at(place, name) => Some(place),
            _ => self.search(name),
        }
    }

    /// Whether the name has the number.
    fn has_at(&self, number: usize, name: &[u8]) -> bool
        ensures { IsTrue result → Some number ≡ position (bytes_eq name.now) self.now }
    {
        match self.names.get(number) {
            Some(given) => *given == name,
            None => false,
        }
    }

    fn search(&self, name: &[u8]) -> Option<usize>
        ensures { result ≡ position (bytes_eq name.now) self.now }
    {
        self.numbers.get(name).copied()
    }

    /// Gives the name the next number, unless it has one, which is the answer then.
    pub fn give(&mut self, name: &'s [u8]) -> Result<Option<usize>, NoMemory>
        ensures before { IfOk result (λ first. first ≡ position (bytes_eq name.now) self.old) }
        ensures ok { OnOk result (self.new ≡ given self.old name.now) }
        ensures err { OnErr result (self.new ≡ self.old) }
    {
        self.names.reserve(1)?;
        self.guesses.make_room(&self.names)?;
        let number = self.names.len();
        let first = number_or_give(&mut self.numbers, name, number)?;
        if first < number {
            return Ok(Some(first));
        }
        self.names.push(name)?;
        self.guesses.note(name, number);
        Ok(None)
    }
}
