//! By which rule turns are chosen.

/// The rule by which a chooser picks the thread of the next turn.
#[derive(Clone, Copy, Debug, PartialEq, Eq)]
pub enum Mode {
    /// Before the hold: the recorded turns are followed.
    Before,
    /// The recorded turns are followed by the other threads, and `thread` is not chosen.
    Hold { thread: u32 },
    /// `thread`, which was held, is chosen once. Whether that was done is `chosen`; from then on the
    /// recorded turns are followed.
    After { thread: u32, chosen: bool },
}
