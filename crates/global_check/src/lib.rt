//! The globals of a module: where they lie, the strings that its constants hold, and the bytes that each one begins with.
//!
//! - `placed`: sizes and addresses
//! - `strings`: the strings of constants
//! - `resolved`: the type that a name stands for, and whether two types are the same
//! - `image`: bytes that are written one behind another
//! - `initial_list`: an open list of initial values, and what its next value is for
//! - `filling`: the way through an initializer
//! - `globals`: the globals of a module, with what is wrong first
//! - `laws`: what the definitions say
#![tactic(auto)]

mod filling;
mod globals;
mod image;
mod initial_list;
pub mod laws;
mod placed;
mod resolved;
mod strings;

pub use globals::{CheckedGlobals, check_globals};
pub use placed::{PlacedGlobals, place_globals};
pub use strings::strings_of;
