//! What an input gives a slot.

ghost use Rattle.std.specs.Prelude.{◌≡◌};
ghost use Rattle.ir_types.specs.Input as spec;

use crate::input::Input;

impl Input {
    /// The value of the slot of this number, 0 where there is none.
    pub fn slot_value(&self, number: u32) -> u64
        ensures { result ≡ spec.slot_value self.now number }
    {
        for slot in &self.slots.items {
            if slot.number == number {
                return slot.value;
            }
        }
        0
    }
}
