//! Rows of items that lie one after the other in memory.

ghost use Rattle.std.specs.Prelude.{◌≡◌, ◌+◌, ◌<◌, ◌++◌, ◌∷◌, [], length, nat_lt, option_map, slice_get, take, IfErr, IfOk, OnOk, if◌then◌else◌};
ghost use Rattle.refutation.specs.Rows.{AreCut, cut, start};

use rc_base::NoMemory;
use std::alloc::Global;
use std::marker::Model;

/// Rows of items, as the literals of clauses are. The items of all rows lie in one `Vec`, and together they are fewer
/// than 2^32.
#[derive(Debug, Drop)]
pub struct Rows<T> {
    items: Vec<T>,
    ends: Vec<u32>,
}

impl<T> Model for Rows<T> {
    ghost use Rattle.std.specs.Prelude.{List, length};
    ghost use Rattle.refutation.specs.Rows.{AreCut, cut};

    ghost Value = { List (List T) };

    ghost view = { λ rows. cut 0 rows.ends.items rows.items.items };

    ghost invariant = { λ rows. AreCut 0 rows.ends.items (length rows.items.items) };
}

/// Where a row begins.
fn start_of(ends: &[u32], at: usize) -> usize
    requires { at < length ends.now }
    ensures { result ≡ start 0 ends.now at }
{
    if at == 0 {
        return 0;
    }
    ends[at - 1] as usize
}

/// The row of a place.
fn row<'a, T>(items: &'a [T], ends: &[u32], at: usize) -> Option<&'a [T]>
    requires { AreCut 0 ends.now (length items.now) }
    ensures { option_map (λ row. row.now) result ≡ slice_get (cut 0 ends.now items.now) at }
{
    if at >= ends.len() {
        return None;
    }
    let end = ends[at] as usize;
    let found = items.get(start_of(ends, at)..end)?;
    Some(found)
}

/// How many rows there are.
fn count<T>(items: &[T], ends: &[u32]) -> usize
    ensures { result ≡ length (cut 0 ends.now items.now) }
{
    ends.len()
}

/// Adds a row and where it ends. A refusal leaves both as they were.
fn push_onto<T: Copy>(items: &mut Vec<T>, ends: &mut Vec<u32>, row: &[T]) -> Result<(), NoMemory>
    ensures items { OnOk result (items.new.items ≡ items.old.items ++ row.now) }
    ensures ends { OnOk result (ends.new.items
        ≡ ends.old.items ++ (length items.old.items + length row.now) ∷ []) }
    ensures kept { IfErr result (λ _. (items.new.items ≡ items.old.items) × (ends.new.items ≡ ends.old.items)) }
{
    let before = items.len();
    let Some(end) = before.checked_add(row.len()) else {
        return Err(NoMemory);
    };
    let Ok(end) = u32::try_from(end) else {
        return Err(NoMemory);
    };
    if items.extend_from_slice(row).is_err() {
        return Err(NoMemory);
    }
    if ends.push(end).is_err() {
        items.truncate(before);
        return Err(NoMemory);
    }
    Ok(())
}

/// Takes off the rows from a place on, and their items.
fn cut_back<T: Copy>(items: &mut Vec<T>, ends: &mut Vec<u32>, len: usize)
    requires { AreCut 0 ends.old.items (length items.old.items) }
    ensures ends { ends.new.items ≡ take len ends.old.items }
    ensures items { items.new.items ≡ (if nat_lt len (length ends.old.items)
        then take (start 0 ends.old.items len) items.old.items else items.old.items) }
{
    if len < ends.len() {
        items.truncate(start_of(ends, len));
    }
    ends.truncate(len);
}

impl<T> Rows<T> {
    /// No rows. Takes no memory.
    pub fn new(alloc: Global) -> Rows<T>
        ensures { result ≡ [] }
    {
        Rows {
            items: Vec::new(alloc),
            ends: Vec::new(alloc),
        }
    }

    /// How many rows there are.
    pub fn len(&self) -> usize
        ensures { result ≡ length self.now }
    {
        count(&self.items, &self.ends)
    }

    /// The row of a place, counted from 0.
    pub fn get(&self, at: usize) -> Option<&[T]>
        ensures { option_map (λ row. row.now) result ≡ slice_get self.now at }
    {
        row(&self.items, &self.ends, at)
    }
}

impl<T: Copy> Rows<T> {
    /// Takes off the rows from a place on.
    pub fn truncate(&mut self, len: usize)
        ensures { self.new ≡ take len self.old }
    {
        cut_back(&mut self.items, &mut self.ends, len);
    }

    /// Equal rows.
    pub fn fork(&self) -> Result<Rows<T>, NoMemory>
        ensures { IfOk result (λ fork. fork ≡ self.now) }
    {
        let alloc = *self.items.allocator();
        let items = Vec::from_slice(alloc, &self.items)?;
        let ends = Vec::from_slice(alloc, &self.ends)?;
        Ok(Rows { items, ends })
    }

    /// Adds a row. A refusal leaves the rows as they were.
    pub fn push(&mut self, row: &[T]) -> Result<(), NoMemory>
        ensures pushed { OnOk result (self.new ≡ self.old ++ row.now ∷ []) }
        ensures kept { IfErr result (λ _. self.new ≡ self.old) }
    {
        push_onto(&mut self.items, &mut self.ends, row)?;
        Ok(())
    }
}
