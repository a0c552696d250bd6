//! The check of an instruction of a module: what it is, with all of its names resolved, and what is wrong with it. Calls
//! have a crate of their own.
//!
//! - `address`: the instructions that make addresses
//! - `control`: the instructions that end a block, and those that join blocks
//! - `expressions`: the addresses that constant expressions spell
//! - `literals`: the kinds that types spell, and the constants that literals spell
//! - `memory`: the instructions that read and write memory at a pointer
//! - `operand`: the operands that phrases spell
//! - `operations`: the operations that words spell
//! - `phrases`: the phrases of an instruction
//! - `results`: what instructions give
//! - `roles`: what names stand for
//! - `scope`: where the names of an instruction lead
//! - `values`: the instructions that compute a value
#![tactic(auto)]

mod address;
mod control;
mod expressions;
mod literals;
mod memory;
mod operand;
mod operations;
mod phrases;
mod results;
mod roles;
mod scope;
mod values;

pub use expressions::expression;
pub use literals::{constant, kind_of, literal};
pub use operations::{Cast, binary_of, cast_of};
pub use phrases::{Phrase, kind_in, take_pair};
pub use results::{call_result, result_of};
pub use roles::{GlobalRole, LocalRole, same_kind, same_result, unless_same};
pub use scope::{BodyNames, ModuleNames, Scope, Signature, StringText};
