//! The texts of runs and of races that are made by hand.

mod replays;
mod reports;

use ir_types::{Function, ItemKind, List, Module};
use run_types::OutItem;
use std::alloc::Global;
use std::test::Fail;

fn item(kind: ItemKind, bits: u64) -> OutItem {
    OutItem { kind, bits }
}

/// A module whose one function has this name.
fn module_of(alloc: Global, name: &[u8]) -> Result<Module, Fail> {
    let function = Function {
        name: List {
            items: Vec::from_slice(alloc, name)?,
        },
        params: List::new(alloc),
        result: None,
        blocks: List::new(alloc),
        registers: List::new(alloc),
    };
    Ok(Module {
        globals: List::new(alloc),
        functions: List {
            items: vec![in alloc; function]?,
        },
        main: 0,
    })
}
