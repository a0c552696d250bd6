//! The calls of the C library and of POSIX threads that a module may make, as data for the check of modules.
//!
//! - `call`: the calls, by their names
//! - `prototype`: what each takes and gives
//! - `format`, `pieces`: the format of `printf`, as a list of pieces
//! - `laws`: that no two calls have one name, and what it means that bytes are a format
#![tactic(auto)]

mod call;
mod format;
pub mod laws;
mod pieces;
mod prototype;

pub use call::ExternalCall;
pub use format::{argument_kind, read_format};
pub use prototype::Parameter;
