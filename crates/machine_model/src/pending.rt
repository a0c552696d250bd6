//! What a thread waits to do, as other threads see it.

use ir_types::Site;

/// The operation with which the next turn of a thread begins.
#[derive(Clone, Copy, Debug, PartialEq, Eq)]
pub enum Pending {
    /// The start of the thread.
    Start,
    /// A load or store at a watched site: of `len` bytes from the address `at` on.
    Access {
        site: Site,
        at: u64,
        len: u32,
        store: bool,
    },
    /// A call, or the end of the thread.
    Other,
    /// None: the thread has ended.
    Ended,
    /// None: the thread was not made.
    Unborn,
}
