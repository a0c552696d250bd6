//! The check of a call: what it is, with all of its names resolved, and what is wrong with it.
//!
//! - `arguments`: the arguments of a call
//! - `callee`: what a call calls, and what stands before its arguments
//! - `calls`: calls of functions and of external calls
#![tactic(auto)]

mod arguments;
mod callee;
mod calls;

pub use calls::call;
