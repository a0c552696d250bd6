//! The number of the block in which a statement stands.

ghost use Rattle.module_check.specs.BlockPlace as spec;
ghost use Rattle.std.specs.Prelude.{◌≡◌};

use crate::item_names::numbered;

/// Where a walk over a body's statements stands.
#[derive(Clone, Copy)]
pub struct BlockPlace {
    /// The number of the open block.
    pub block: u32,
    /// How many blocks there are up to it.
    pub next: usize,
}

impl BlockPlace {
    /// Before the statements of a body. A first block without a label is the block 0.
    pub fn new(is_labelled: bool) -> BlockPlace
        ensures { result ≡ spec.first_place is_labelled }
    {
        if is_labelled {
            BlockPlace { block: 0, next: 0 }
        } else {
            BlockPlace { block: 0, next: 1 }
        }
    }

    /// Behind a label.
    pub fn at_label(self) -> BlockPlace
        ensures { result ≡ spec.at_label self }
    {
        BlockPlace {
            block: numbered(self.next),
            next: self.next.saturating_add(1),
        }
    }
}
