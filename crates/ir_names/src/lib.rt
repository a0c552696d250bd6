//! The names of a module: those that its items have, and those of a body's arguments, blocks and registers.
//!
//! - `name_table`: names with the number of each
//! - `number`: numbers without upper limit
//! - `guesses`: where names are likely to stand
//! - `local_name`: a name of a body, which is a number or plain
//! - `rising`: numbers that rise, and a search among them
//! - `local_table`: the names of a body, with the count from which definitions without a name take theirs
//! - `laws`: that names keep their places, and that the count is free
#![tactic(auto)]

mod guesses;
pub mod laws;
mod local_name;
mod local_table;
mod name_table;
mod number;
mod rising;

pub use local_name::{LocalName, PlainName};
pub use local_table::{Given, LocalTable};
pub use name_table::NameTable;
pub use number::Number;
