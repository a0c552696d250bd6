//! The text of a case: what is asked of a module.
//!
//! - `error`: what is wrong with a text, and in which line
//! - `keyword`: the words that lines begin with, in the order of the lines
//! - `line`: a line by its shape alone
//! - `words`: the words of a line of an input, and of a line of a watched site
//! - `watch`: the loads and stores that lines of watched sites name
//! - `progress`: what was read so far, and each kind of line that is taken in
//! - `read`: the call that reads a whole text
//! - `laws`: that a line is its spelling, that what is accepted is exactly what spells a case, and that a refused line is
//!   never accepted
#![tactic(auto)]

mod error;
mod keyword;
pub mod laws;
mod line;
mod progress;
mod read;
mod watch;
mod words;

pub use error::CaseError;
pub use read::read_case;
