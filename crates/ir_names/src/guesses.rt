//! Where names are likely to stand.

use rc_base::NoMemory;
use std::alloc::Global;

/// Of names that look alike, the place of the last one. It is a guess: who asks looks whether the name stands there.
#[derive(Drop)]
pub struct Guesses {
    places: Vec<usize>,
}

/// What names are told apart by: the length and the last bytes, in which names that are made by a count differ.
fn trace_of(name: &[u8]) -> usize {
    let mut trace = name.len();
    for byte in name.iter().rev().take(8) {
        trace = trace.wrapping_mul(31).wrapping_add(*byte as usize);
    }
    trace
}

impl Guesses {
    /// No names. Takes no memory.
    pub fn new(alloc: Global) -> Self {
        Guesses {
            places: Vec::new(alloc),
        }
    }

    /// Where the name is likely to stand.
    pub fn place(&self, name: &[u8]) -> Option<usize> {
        let len = self.places.len();
        if len == 0 {
            return None;
        }
        Some(self.places[trace_of(name) % len])
    }

    /// From now on a name that looks like this one is looked for at the place.
    pub fn note(&mut self, name: &[u8], place: usize) {
        let len = self.places.len();
        if len > 0 {
            self.places[trace_of(name) % len] = place;
        }
    }

    /// Makes room for the names and one more, so that few of them look alike.
    pub fn make_room(&mut self, names: &[&[u8]]) -> Result<(), NoMemory> {
        if names.len() < self.places.len() / 2 {
            return Ok(());
        }
        let len = names.len().saturating_mul(4).saturating_add(64);
        self.places.resize(len, 0)?;
        for (place, name) in names.iter().enumerate() {
            self.note(name, place);
        }
        Ok(())
    }
}
