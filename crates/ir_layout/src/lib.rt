//! How many bytes the types of a module take in memory, and how they are aligned.
//!
//! - `extent`: sizes and alignments, and how those of parts make those of the whole
//! - `frame`, `walk`: the way through a type's nodes, with what the open types take
//! - `layout`: the calls
//! - `laws`: that the way through the nodes gives the layout of the type, and what holds of layouts
#![tactic(auto)]

mod extent;
mod frame;
pub mod laws;
mod layout;
mod walk;

pub use extent::{Extent, Overflow, bytes_of, empty, ended, place, repeated, with_field, word};
pub use layout::{Structs, extent_of};
