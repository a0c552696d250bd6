//! The grammar of modules: from their tokens to nodes in the order of the text, or to the first fault.
//!
//! - `terminal`, `words`, `number`: the classes of tokens
//! - `grammar`: the grammar as a table of rules, whose rows stand in `token_rows`, `item_rows`, `type_rows`,
//!   `constant_rows`, `body_rows` and `call_rows`
//! - `skip`: what stands between the tokens of an item without a meaning
//! - `wants`, `machine`: the stack of wanted rules, and the machine that reads a token at a time
//! - `error`, `cause`: why a token is refused
//! - `escapes`: the bytes that strings spell
//! - `name`, `node`, `read`: what is kept, and the calls that read
//! - `raw_type`: the types that nodes spell
//! - `type_laws`: that what the grammar takes as a type spells one, and that it is found
//! - `laws`: that the tokens that are read are the items of a module, and that an error is of the first fault
#![tactic(auto)]

mod body_rows;
mod call_rows;
mod cause;
mod constant_rows;
mod error;
mod escapes;
mod grammar;
mod item_rows;
pub mod laws;
mod machine;
mod name;
mod node;
mod number;
mod raw_type;
mod read;
mod skip;
mod terminal;
mod text;
mod token_rows;
pub mod type_laws;
mod type_rows;
mod wants;
mod words;

pub use error::ModuleError;
pub use escapes::bytes_of_string;
pub use grammar::Rule;
pub use machine::{Machine, Refusal};
pub use name::{bare_name, is_numbered, name_of};
pub use node::{Node, RawModule};
pub use number::{literal_of, number_of};
pub use raw_type::{RawType, TypeForm, bits_of, count_of, type_length};
pub use read::{Ending, Reader};
pub use skip::Mode;
pub use terminal::{Terminal, terminal_of};
pub use text::read_module;
