//! What can be wrong with a module: causes, what is found beside one, and faults, of which the first is answered.
//!
//! - `cause`: the causes of faults, and what is found beside one
//! - `fault`: faults of a module, of which the first is answered
//! - `laws`: what it means that a fault is the first
#![tactic(auto)]

mod cause;
mod fault;
pub mod laws;

pub use cause::{Cause, Found, lesser, unless};
pub use fault::{Fault, First};
