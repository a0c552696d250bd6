//! The check of a module: its names and those of its bodies, what they stand for, and what is wrong with them and with the
//! shapes of functions and blocks.
//!
//! - `signature`: what functions take and give, as they are written
//! - `main_function`: the function `main`
//! - `item_names`: the names of a module's items, and what they stand for
//! - `callee`: the function that a call names
//! - `body_names`: the names of a body's arguments, blocks and registers, and what they stand for
//! - `shape`: the shapes of a body's blocks
//! - `block_place`: the number of the block in which a statement stands
//! - `predecessors`: the blocks from which a block is reached
//! - `phis`: the phis of a body, each of which wants an edge from each block that leads to its own
//! - `names`: the first fault of all names and shapes
//! - `laws`: what it means that names stand for something, and that a block is whole
#![tactic(auto)]

mod block_place;
mod body_names;
mod callee;
mod item_names;
pub mod laws;
mod main_function;
mod names;
mod phis;
mod predecessors;
mod shape;
mod signature;

pub use body_names::{NamedBody, begins_with_label, name_body};
pub use item_names::{NamedItems, name_items, numbered};
pub use main_function::main_of;
pub use names::{check_names, or_no_main};
pub use phis::phi_fault;
pub use predecessors::predecessors_of;
pub use shape::shape_fault;
pub use signature::result_kind;
