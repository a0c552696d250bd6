//! Why memory can't be accessed.

use run_types::Trap;

/// Why an access of memory wasn't done: the program under study trapped, or this one has no memory.
#[derive(Clone, Copy, Debug, PartialEq, Eq)]
pub enum MemError {
    Trap(Trap),
    NoMemory,
}
