//! The tokens of a module's text, over lent bytes.
//!
//! - `lexer`: what is left of a text, and its next token
//! - `place`: a place in a text, and the way from one token to the next
//! - `gap`: the lines that are skipped whole
//! - `extent`: the longest token at a place
//! - `token`: what a token is
//! - `bytes`: the classes of bytes, and how far each goes
//! - `laws`: what a text is by its tokens
#![tactic(auto)]

mod bytes;
mod extent;
mod gap;
pub mod laws;
mod lexer;
mod place;
mod token;

pub use lexer::{Lexer, MOST_BYTES};
pub use token::{LexError, Token, TokenKind};
