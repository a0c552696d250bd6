//! The call that reads a module's text.

ghost use Rattle.std.specs.Prelude.{◌≡◌, ◌==◌, ◌≤◌, count_by, length};
ghost use Rattle.ir_lex.specs.Laws.{line_at};
ghost use Rattle.rc_base.specs.Failures.{Gives};
ghost use Rattle.ir_read.specs.Text.{last_line, raw_module_in};

use crate::error::ModuleError;
use crate::node::RawModule;
use crate::read::{Ending, Reader};
use ir_lex::laws::tokens_are_longest;
use ir_lex::{Lexer, MOST_BYTES};
use rc_base::Failure;
use std::alloc::Global;

/// The items of the module that a text spells, as nodes in the order of the text; or what is wrong at the first token
/// with which no module goes on.
#[tactic(auto, using(crate::proofs::Reading::text_goes_on))]
pub fn read_module<'s>(alloc: Global, text: &'s [u8]) -> Result<RawModule<'s>, Failure<ModuleError>>
    requires { length text.now ≤ MOST_BYTES }
    ensures { Gives (λ found. found.nodes.items) result (raw_module_in text.now) }
{
    tokens_are_longest();
    let mut lexer = Lexer::new(text);
    let mut reader = Reader::new(alloc)?;
    let mut start = 0;
    let mut line = 1;
    loop {
        match lexer.next() {
            Ok(Some(token)) => {
                start = token.start;
                line = token.line;
                reader.take_lexed(&token)?;
            }
            Ok(None) => {
                let line = last_line(text, start as usize, line);
                return reader.end(Ending::End { line });
            }
            Err(error) => return reader.end(Ending::Bad { line: error.line }),
        }
    }
}

/// The line in which a text ends, where the line of a place is known. The bytes before that aren't read again.
fn last_line(text: &[u8], start: usize, line: u32) -> u32
    requires short { length text.now ≤ MOST_BYTES }
    requires known { line ≡ line_at text.now start }
    ensures { result ≡ last_line text.now }
{
    match text.split_last() {
        None => 1,
        Some((_, front)) if start <= front.len() => line + count_feeds(&front[start..]),
        Some((_, front)) => count_feeds(front) + 1,
    }
}

/// How many line feeds there are. They are counted without a branch, so that many bytes are at a time.
fn count_feeds(text: &[u8]) -> u32
    requires { length text.now ≤ MOST_BYTES }
    ensures count { result ≡ count_by (λ byte. byte == 10) text.now }
    ensures within { result ≤ length text.now }
{
    let mut count = 0;
    for byte in text {
        count += u32::from(*byte == b'\n');
    }
    count
}
