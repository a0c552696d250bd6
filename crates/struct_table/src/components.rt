//! Structs that hold each other, as a hint: an order in which those that are held come first, and numbers that no struct
//! holds one of a higher number than its own. Nothing that is answered rests on either: they make the work short.

ghost use Rattle.std.specs.Prelude.{◌<◌, length, IsTrue};

use crate::parts::part as at;
use ir_types::List;
use rc_base::NoMemory;
use std::alloc::Global;

/// A struct, and how many of those that it holds were looked at.
#[derive(Clone, Copy)]
struct Visit {
    number: usize,
    looked_at: usize,
}

/// The walk through all structs, which goes on to what a struct holds before it ends with the struct. Structs that hold each
/// other, a component, are ended together.
#[derive(Drop)]
pub struct Components {
    /// By the number of the struct: when it was first seen, from 1.
    seen: List<usize>,
    seen_count: usize,
    /// By the number of the struct: its component, from 1, once it is ended.
    pub numbers: List<usize>,
    count: usize,
    /// The structs as they were ended.
    pub order: List<usize>,
    /// Those that are visited, each held by the one before.
    visits: List<Visit>,
    /// Those that were seen and aren't ended, as they were seen.
    waiting: List<usize>,
    /// Those of them that may be the first of their component.
    firsts: List<usize>,
    /// How often the walk may go on. It is enough for each struct and each that it holds.
    steps: usize,
}

/// The components of the structs, by what each holds.
pub fn components_of(alloc: Global, holds: &List<List<usize>>) -> Result<Components, NoMemory> {
    let mut components = Components {
        seen: zeros(alloc, holds.len())?,
        seen_count: 0,
        numbers: zeros(alloc, holds.len())?,
        count: 0,
        order: List::new(alloc),
        visits: List::new(alloc),
        waiting: List::new(alloc),
        firsts: List::new(alloc),
        steps: steps_for(holds),
    };
    for number in 0..holds.len() {
        components.look_at(number)?;
        components.go_on(holds)?;
    }
    Ok(components)
}

impl Components {
    /// Goes on until all structs are ended that are visited.
    fn go_on(&mut self, holds: &List<List<usize>>) -> Result<(), NoMemory> {
        let mut steps = self.steps;
        while steps > 0 {
            steps -= 1;
            self.steps = steps;
            match self.visits.items.pop() {
                Some(visit) => self.visit(holds, visit)?,
                None => return Ok(()),
            }
        }
        Ok(())
    }

    /// Looks at the next struct that the visited one holds, or ends the visit.
    fn visit(&mut self, holds: &List<List<usize>>, visit: Visit) -> Result<(), NoMemory> {
        match held_at(holds, visit.number, visit.looked_at) {
            Some(held) => {
                self.visits.items.push(Visit {
                    number: visit.number,
                    looked_at: visit.looked_at.saturating_add(1),
                })?;
                self.look_at(held)
            }
            None => self.end(visit.number),
        }
    }

    /// Visits a struct that wasn't seen. One that waits is in one component with those that were seen after it.
    fn look_at(&mut self, number: usize) -> Result<(), NoMemory> {
        let seen = at(&self.seen, number);
        if seen == 0 {
            self.seen_count = self.seen_count.saturating_add(1);
            put(&mut self.seen, number, self.seen_count);
            self.waiting.items.push(number)?;
            self.firsts.items.push(number)?;
            self.visits.items.push(Visit {
                number,
                looked_at: 0,
            })?;
        } else if at(&self.numbers, number) == 0 {
            self.join_from(seen);
        }
        Ok(())
    }

    /// Those that were seen later are not the first of their component.
    fn join_from(&mut self, seen: usize) {
        while seen_behind(&self.seen, &self.firsts, seen) {
            self.firsts.items.pop();
        }
    }

    /// Ends the component of which the struct is the first one, where it is.
    fn end(&mut self, number: usize) -> Result<(), NoMemory> {
        match self.firsts.items.pop() {
            Some(first) if first == number => self.end_from(number),
            Some(first) => {
                self.firsts.items.push(first)?;
                Ok(())
            }
            None => Ok(()),
        }
    }

    /// Those that wait, from the struct on, are a component.
    fn end_from(&mut self, number: usize) -> Result<(), NoMemory> {
        self.count = self.count.saturating_add(1);
        for _waiting in 0..self.waiting.len() {
            if self.end_last()? == Some(number) {
                return Ok(());
            }
        }
        Ok(())
    }

    /// Ends the last one that waits.
    fn end_last(&mut self) -> Result<Option<usize>, NoMemory> {
        let last = self.waiting.items.pop();
        if let Some(number) = last {
            put(&mut self.numbers, number, self.count);
            self.order.items.push(number)?;
        }
        Ok(last)
    }
}

/// How often a walk goes on at most: once for each struct, and for each that it holds.
fn steps_for(holds: &List<List<usize>>) -> usize {
    let mut steps = holds.len();
    for held in holds.as_slice() {
        steps = steps.saturating_add(held.len());
    }
    steps.saturating_add(holds.len())
}

/// Whether the last of the structs was seen later.
fn seen_behind(seen: &List<usize>, firsts: &List<usize>, when: usize) -> bool
    ensures { IsTrue result → 0 < length firsts.now }
{
    let len = firsts.items.len();
    len > 0 && at(seen, firsts.items[len - 1]) > when
}

fn zeros(alloc: Global, count: usize) -> Result<List<usize>, NoMemory> {
    let mut items = Vec::new(alloc);
    items.resize(count, 0)?;
    Ok(List { items })
}

fn put(numbers: &mut List<usize>, place: usize, number: usize) {
    if place < numbers.items.len() {
        numbers.items[place] = number;
    }
}

/// The struct at the place among those that the struct of the number holds.
fn held_at(holds: &List<List<usize>>, number: usize, place: usize) -> Option<usize> {
    if number < holds.items.len() && place < holds.items[number].items.len() {
        Some(holds.items[number].items[place])
    } else {
        None
    }
}
