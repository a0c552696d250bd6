//! The values of an input.

ghost use Rattle.std.specs.Prelude.{◌≡◌, ◌++◌, OnOk};
ghost use Rattle.report_text.specs.Input.{input_text, slot_text};

use crate::numbers::push_decimal;
use ir_types::{Input, Slot};
use std::alloc::AllocError;

/// Appends the values of an input with their slots, parted by spaces.
pub fn push_input(text: &mut Vec<u8>, input: &Input) -> Result<(), AllocError>
    ensures { OnOk result (text.new.items ≡ text.old.items ++ input_text input.now) }
{
    let Some((first, others)) = input.slots.as_slice().split_first() else {
        return text.extend_from_slice(b"-");
    };
    push_slot(text, *first)?;
    for slot in others {
        text.extend_from_slice(b" ")?;
        push_slot(text, *slot)?;
    }
    Ok(())
}

fn push_slot(text: &mut Vec<u8>, slot: Slot) -> Result<(), AllocError>
    ensures { OnOk result (text.new.items ≡ text.old.items ++ slot_text slot) }
{
    push_decimal(text, u64::from(slot.number))?;
    text.extend_from_slice(b"=")?;
    push_decimal(text, slot.value)
}
