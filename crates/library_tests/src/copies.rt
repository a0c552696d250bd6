//! Lists, inputs and turns, and their copies.

use ir_types::{Input, List, Slot, Width};
use run_types::{copy_input, copy_turns};
use std::alloc::AllocError;
use std::test::Fail;

fn copied<T: Clone>(value: &T) -> Result<T, AllocError> {
    value.clone()
}

#[test]
fn copies_have_the_same_items(rt: HostRuntime) -> Result<(), Fail> {
    let alloc = rt.alloc();
    let low = Slot {
        number: 0,
        width: Width::W8,
        value: 255,
    };
    let high = Slot {
        number: 7,
        width: Width::W64,
        value: u64::MAX,
    };
    let slots = List::from(vec![in alloc; low, high]?);
    assert_eq!(rt; slots.len(), 2);
    assert!(rt; !slots.is_empty());
    let input = Input { slots };
    assert_eq!(rt;
        [
            input.slot_value(0),
            input.slot_value(3),
            input.slot_value(7)
        ],
        [255, 0, u64::MAX]
    );
    assert_eq!(rt; copied(&input)?, input);
    let copy = copy_input(alloc, &input)?;
    assert_eq!(rt; copy, input);
    let none = Input {
        slots: List::new(alloc),
    };
    assert_ne!(rt; copy, none);
    assert_eq!(rt; copy.slots.into_vec().as_slice(), input.slots.as_slice());
    let turns = List::from(vec![in alloc; 0u8, 0, 15, 1]?);
    let copy = copy_turns(alloc, &turns)?;
    assert_eq!(rt; copy.as_slice(), [0u8, 0, 15, 1].as_slice());
    Ok(())
}
