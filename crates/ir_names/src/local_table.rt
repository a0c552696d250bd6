//! The names of a body, with the place of each.

ghost use Rattle.std.specs.Prelude.{◌≡◌, ℕ, ◌<◌, ◌≤◌, [], length, position, unwrap_or, IfOk, IfSome, OnErr, OnOk, Some};
ghost use Rattle.std.specs.BTreeMap.{get, IsUnchanged};
ghost use Rattle.std.specs.List.{IsDistinct};
ghost use Rattle.std.specs.Ordering.{nat_cmp};
ghost use Rattle.ir_names.specs.LocalName.{local_eq};
ghost use Rattle.ir_names.specs.LocalTable.{count_of, defined, given, name_given};
ghost use Rattle.ir_names.specs.declared.local_name.LocalName.TheVariants as names;
ghost use Rattle.ir_names.specs.LocalPlaces.{GivesPlace};

use crate::local_name::{LocalName, PlainName};
use crate::name_table::number_or_give;
use crate::number::Number;
use crate::rising::Rising;
use rc_base::NoMemory;
use std::alloc::Global;
use std::collections::BTreeMap;
use std::marker::Model;

/// What a definition's name is among those before it.
#[derive(Clone, Copy, Debug, PartialEq, Eq)]
pub enum Given {
    Fresh,
    /// It is there already. The first definition keeps it.
    Duplicate,
    /// It is a number below the count that isn't there. It is defined here nevertheless.
    Below,
}

/// The names of a body's arguments, blocks and registers, in the order in which they were first defined.
///
/// Numbers that are taken in their turn rise, so that a definition without a name is compared with none.
/// Those below the count, which a good module doesn't have, are kept apart.
#[derive(Drop)]
pub struct LocalTable<'s> {
    names: Vec<LocalName<'s>>,
    plain: BTreeMap<&'s [u8], usize>,
    rising: Rising<'s>,
    places: Vec<usize>,
    below: BTreeMap<Number<'s>, usize>,
    count: Number<'s>,
}

impl<'s> Model for LocalTable<'s> {
    ghost use Rattle.std.specs.Prelude.{List};
    ghost use Rattle.ir_names.specs.declared.local_name.LocalName.{LocalName as Name};
    ghost use Rattle.ir_names.specs.LocalPlaces.{HasPlaces};

    ghost Value = { List Name };

    ghost view = { λ table. table.names.items };

    ghost invariant = { λ table.
        HasPlaces table.names.items table.plain table.rising table.places.items table.below table.count };
}

/// The place that the number has, or else the one that it is given here.
fn place_or_give<'s>(
    places: &mut BTreeMap<Number<'s>, usize>,
    number: &Number<'s>,
    place: usize,
) -> Result<usize, NoMemory>
    ensures value { IfOk result (λ first. first ≡ unwrap_or (get nat_cmp places.old number.now) place) }
    ensures ok { OnOk result (GivesPlace places.old places.new number.now place) }
    ensures err { OnErr result (IsUnchanged places.old places.new) }
{
    let Some(first) = places.insert(number.again(), place)? else {
        return Ok(place);
    };
    places.insert(number.again(), first)?;
    Ok(first)
}

impl<'s> LocalTable<'s> {
    /// No names. Takes no memory.
    pub fn new(alloc: Global) -> Self
        ensures { result ≡ [] }
    {
        LocalTable {
            names: Vec::new(alloc),
            plain: BTreeMap::new(alloc),
            rising: Rising::new(alloc),
            places: Vec::new(alloc),
            below: BTreeMap::new(alloc),
            count: Number::zero(),
        }
    }

    /// How many names there are, each of which is there once.
    pub fn len(&self) -> usize
        ensures len { result ≡ length self.now }
        ensures once { IsDistinct local_eq self.now }
    {
        self.names.len()
    }

    /// The place of the name, from 0.
    pub fn number(&self, name: &LocalName<'s>) -> Option<usize>
        ensures place { result ≡ position (local_eq name.now) self.now }
        ensures within { IfSome result (λ place. place < length self.now) }
    {
        match name {
            LocalName::Number(number) => self.number_place(number),
            LocalName::Plain(name) => self.plain.get(name.text()).copied(),
        }
    }

    fn number_place(&self, number: &Number<'s>) -> Option<usize>
        ensures { result ≡ position (local_eq (names.Number number.now)) self.now }
    {
        if let Some(place) = self.rising.place(number) {
            return Some(self.places[place]);
        }
        self.below.get(number).copied()
    }

    /// A definition. Without a name it takes the number to which the count has come.
    pub fn define(&mut self, name: Option<LocalName<'s>>) -> Result<Given, NoMemory>
        ensures given { IfOk result (λ answer. answer ≡ given self.old (name_given self.old name.entry)) }
        ensures ok { OnOk result (self.new ≡ defined self.old (name_given self.old name.entry)) }
        ensures err { OnErr result (self.new ≡ self.old) }
    {
        match name {
            None => {
                let number = self.count.again();
                self.define_next(number)
            }
            Some(LocalName::Number(number)) => self.define_number(number),
            Some(LocalName::Plain(name)) => self.define_plain(name),
        }
    }

    fn define_number(&mut self, number: Number<'s>) -> Result<Given, NoMemory>
        ensures given { IfOk result (λ answer. answer ≡ given self.old (names.Number number.entry)) }
        ensures ok { OnOk result (self.new ≡ defined self.old (names.Number number.entry)) }
        ensures err { OnErr result (self.new ≡ self.old) }
    {
        if number < self.count {
            self.define_below(number)
        } else {
            self.define_next(number)
        }
    }

    /// A number to which the count has come, or one above. No name is compared with it.
    fn define_next(&mut self, number: Number<'s>) -> Result<Given, NoMemory>
        requires { count_of self.old ≤ number }
        ensures given { IfOk result (λ answer. answer ≡ given self.old (names.Number number.entry)) }
        ensures ok { OnOk result (self.new ≡ defined self.old (names.Number number.entry)) }
        ensures err { OnErr result (self.new ≡ self.old) }
    {
        let count = number.next()?;
        self.names.reserve(1)?;
        self.places.reserve(1)?;
        self.rising.push(number.again())?;
        self.places.push(self.names.len())?;
        self.names.push(LocalName::Number(number))?;
        self.count = count;
        Ok(Given::Fresh)
    }

    fn define_below(&mut self, number: Number<'s>) -> Result<Given, NoMemory>
        requires { number < count_of self.old }
        ensures given { IfOk result (λ answer. answer ≡ given self.old (names.Number number.entry)) }
        ensures ok { OnOk result (self.new ≡ defined self.old (names.Number number.entry)) }
        ensures err { OnErr result (self.new ≡ self.old) }
    {
        if self.rising.place(&number).is_some() {
            return Ok(Given::Duplicate);
        }
        self.names.reserve(1)?;
        let place = self.names.len();
        let first = place_or_give(&mut self.below, &number, place)?;
        if first < place {
            return Ok(Given::Duplicate);
        }
        self.names.push(LocalName::Number(number))?;
        Ok(Given::Below)
    }

    fn define_plain(&mut self, name: PlainName<'s>) -> Result<Given, NoMemory>
        ensures given { IfOk result (λ answer. answer ≡ given self.old (names.Plain name.entry)) }
        ensures ok { OnOk result (self.new ≡ defined self.old (names.Plain name.entry)) }
        ensures err { OnErr result (self.new ≡ self.old) }
    {
        self.names.reserve(1)?;
        let place = self.names.len();
        let first = number_or_give(&mut self.plain, name.text(), place)?;
        if first < place {
            return Ok(Given::Duplicate);
        }
        self.names.push(LocalName::Plain(name))?;
        Ok(Given::Fresh)
    }
}
