//! The module that a module's nodes spell: names resolved, kinds checked, types laid out, globals placed with their images; or
//! what is wrong with it first.
//!
//! - `instruction`: an instruction by its word
//! - `body`: the blocks of a body, with their instructions
//! - `function`: a defined function
//! - `functions`: all of them
//! - `checked`: the call that checks a module
//! - `laws`: what holds of accepted modules
#![tactic(auto)]

mod body;
mod checked;
mod function;
mod functions;
mod instruction;
pub mod laws;

pub use checked::check_module;
