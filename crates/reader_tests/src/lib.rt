//! Texts of modules, with the tokens, the nodes or the first fault that their reader finds, and what views of the nodes
//! show, worked out by hand.
//!
//! They stand in a crate of their own, since a crate with tests is proved twice.
//!
//! - `lexer`: the tokens of texts, and where none begins
//! - `marks`, `faults`: texts with their first faults
//! - `accepted`: texts that are read, with the number of their nodes
//! - `items`: modules with their items, statements and phrases
//! - `names`: the names of items and of a body, definition by definition
//! - `module_names`: modules with the first fault of their names and shapes
//! - `addresses`: what `getelementptr`, `alloca` and constant expressions make of addresses
//! - `types`, `layouts`: types with their forms and parts, and what they take in memory
//! - `structs`: structs with their first fault, what they take, and where their fields lie
//! - `programs`: whole programs, with the number of their nodes
//! - `modules`, `bodies`, `operands`, `calls`, `formats`, `initial_values`: modules with the first fault of their check
//! - `built_modules`: a module in full, from its globals' bytes to its instructions
//! - `texts`: how texts are put together
#![tactic(auto)]

#[cfg(test)]
mod accepted;
#[cfg(test)]
mod addresses;
#[cfg(test)]
mod bodies;
#[cfg(test)]
mod built_modules;
#[cfg(test)]
mod calls;
#[cfg(test)]
mod faults;
#[cfg(test)]
mod formats;
#[cfg(test)]
mod initial_values;
#[cfg(test)]
mod items;
#[cfg(test)]
mod layouts;
#[cfg(test)]
mod lexer;
#[cfg(test)]
mod marks;
#[cfg(test)]
mod module_names;
#[cfg(test)]
mod modules;
#[cfg(test)]
mod names;
#[cfg(test)]
mod operands;
#[cfg(test)]
mod programs;
#[cfg(test)]
mod structs;
#[cfg(test)]
mod texts;
#[cfg(test)]
mod types;
