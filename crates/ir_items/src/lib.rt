//! The nodes of a module as its items, and a body's nodes as statements: views over one list, cut by the rules that took
//! the nodes. Nothing is copied.
//!
//! - `segment`: where the nodes of a list are cut, and the walk from cut to cut
//! - `item`, `parameter`: the items of a module, and a function's parameters
//! - `statement`: the labels and instructions of a body
//! - `phrase`: the types, operands, names and words that a statement or an item is made of
//! - `laws`: that nothing is lost
#![tactic(auto)]

mod item;
pub mod laws;
mod parameter;
mod phrase;
mod segment;
mod statement;

pub use item::{Item, ItemForm, Items};
pub use parameter::{Parameter, Parameters};
pub use phrase::{Phrases, inside};
pub use segment::{Cut, Segment, Segments};
pub use statement::{Statement, Statements};
