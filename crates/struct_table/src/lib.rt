//! The structs that a module names: their types, what they take in memory, where their fields lie, and what is wrong
//! with them.
//!
//! - `named`: the structs, with the nodes of their types
//! - `rounds`: what a struct takes, by what is known of others
//! - `settling`: what all structs take
//! - `members`: where the fields of a struct lie
//! - `table`: the table of a module's structs
//! - `holds`: which structs a struct's type names
//! - `components`: structs that hold each other, as a hint
//! - `parts`, `search`, `circles`: which structs hold themselves
//! - `laws`: which structs take something, and that it is what their types take
//! - `faults`: what is wrong with the structs of a module
#![tactic(auto)]

mod circles;
mod components;
mod faults;
mod holds;
pub mod laws;
mod members;
mod named;
mod parts;
mod rounds;
mod search;
mod settling;
mod table;

pub use faults::struct_fault;
pub use members::{Member, member_in, members_of};
pub use table::StructTable;
