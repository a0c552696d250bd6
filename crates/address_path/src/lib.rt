//! The way that indices take from an address into a type, as `getelementptr` does: how many bytes it goes, and to which
//! type it comes.
//!
//! - `fields`: what types take, and the fields of structs
//! - `index`: the indices, and what one counts
//! - `path`: the way, an index after another
//! - `laws`: what a step is by the type to which the way has come
#![tactic(auto)]

mod fields;
mod index;
pub mod laws;
mod path;

pub use fields::size_of;
pub use index::Index;
pub use path::{Path, path_of};
