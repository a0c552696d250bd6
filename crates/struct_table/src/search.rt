//! The search for what a struct holds.

ghost use Rattle.std.specs.Prelude.{◌≡◌, ◌<◌, [], ◌∷◌, false, get_or, length, set, true, IfOk, IsTrue, MatchOption, OnOk};
ghost use Rattle.struct_table.specs.Search as spec;

use ir_types::List;
use rc_base::NoMemory;
use std::alloc::Global;
use std::marker::Model;

/// What is found so far.
#[derive(Drop)]
pub struct Search {
    /// Whether it is held, by the number of the struct.
    marks: List<bool>,
    /// Those at which nobody looked yet. The next one is the last.
    pending: Vec<usize>,
}

impl Model for Search {
    ghost use Rattle.std.specs.Prelude.{reverse};
    ghost use Rattle.struct_table.specs.Search.{Search as State};

    ghost Value = { State };

    ghost view = { λ search. record { marks = search.marks; pending = reverse search.pending.items } };
}

impl Search {
    /// Nothing is held by any of so many structs.
    pub fn new(alloc: Global, count: usize) -> Result<Search, NoMemory>
        ensures { IfOk result (λ search. search ≡ spec.begun count) }
    {
        let mut marks = Vec::new(alloc);
        marks.resize(count, false)?;
        Ok(Search {
            marks: List { items: marks },
            pending: Vec::new(alloc),
        })
    }

    /// Marks the structs of the numbers, where they aren't marked.
    pub fn mark_all(&mut self, numbers: &[usize]) -> Result<(), NoMemory>
        ensures { OnOk result (self.new ≡ spec.with_marks self.old numbers.now) }
    {
        for number in numbers {
            self.mark(*number)?;
        }
        Ok(())
    }

    fn mark(&mut self, number: usize) -> Result<(), NoMemory>
        ensures { OnOk result (self.new ≡ spec.with_mark self.old number) }
    {
        if is_unmarked(&self.marks, number) {
            self.pending.push(number)?;
            put_mark(&mut self.marks, number);
        }
        Ok(())
    }

    /// Takes off a struct at which nobody looked yet, where there is one.
    pub fn next(&mut self) -> Option<usize>
        ensures first { MatchOption result (self.old.pending ≡ []) (λ number. self.old.pending ≡ number ∷ self.new.pending) }
        ensures marks { self.new.marks ≡ self.old.marks }
    {
        self.pending.pop()
    }

    pub fn is_marked(&self, number: usize) -> bool
        ensures { result ≡ get_or self.now.marks number false }
    {
        is_marked(&self.marks, number)
    }
}

fn is_marked(marks: &List<bool>, number: usize) -> bool
    ensures { result ≡ get_or marks.now number false }
{
    number < marks.items.len() && marks.items[number]
}

fn is_unmarked(marks: &List<bool>, number: usize) -> bool
    ensures value { result ≡ spec.is_unmarked marks.now number }
    ensures within { IsTrue result → number < length marks.now }
{
    number < marks.items.len() && !marks.items[number]
}

fn put_mark(marks: &mut List<bool>, number: usize)
    requires { number < length marks.old }
    ensures { marks.new ≡ set marks.old number true }
{
    marks.items[number] = true;
}
