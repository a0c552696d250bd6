//! What a run prints.

use ir_types::ItemKind;

/// A printed item: a byte, a number, or the exit status.
#[derive(Clone, Copy, Debug, PartialEq, Eq)]
pub struct OutItem {
    pub kind: ItemKind,
    pub bits: u64,
}
