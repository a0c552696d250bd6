//! What lies between tokens besides blanks and comments: lines that are skipped whole.

ghost use Rattle.std.specs.Prelude.{◌≡◌};
ghost use Rattle.ir_lex.specs.Gap.{begins_with, is_debug_line, is_marker, is_skipped};

use crate::bytes::space_len;

/// Whether a line that begins so, after blanks, is skipped whole: it has to do with debugging, metadata or the
/// target, and with nothing that a module does.
#[inline(always)]
#[tactic(auto, using(crate::proofs::Gaps::skipped_never, crate::proofs::Gaps::skipped_end))]
pub fn is_skipped(bytes: &[u8]) -> bool
    ensures { result ≡ is_skipped bytes.now }
{
    let Some((first, _)) = bytes.split_first() else {
        return false;
    };
    match *first {
        b'!' => true,
        b's' => begins_with(bytes, b"source_filename"),
        b't' => begins_with(bytes, b"target") || is_debug_line(bytes, b"tail call void"),
        b'a' => begins_with(bytes, b"attributes"),
        b'#' => begins_with(bytes, b"#dbg_"),
        b'c' => is_debug_line(bytes, b"call void"),
        b'd' => is_debug_line(bytes, b"declare void"),
        _ => false,
    }
}

/// Whether the words stand at the front, and then, after blanks or none, a name of a debugging or lifetime marker.
#[tactic(auto, unfolding(crate::specs::Gap::begins_with, crate::specs::Gap::is_debug_line))]
fn is_debug_line(bytes: &[u8], words: &[u8]) -> bool
    ensures { result ≡ is_debug_line bytes.now words.now }
{
    match bytes.strip_prefix(words) {
        Some(rest) => is_marker(rest),
        None => false,
    }
}

fn is_marker(rest: &[u8]) -> bool
    ensures { result ≡ is_marker rest.now }
{
    let (_, name) = rest.split_at(space_len(rest));
    begins_with(name, b"@llvm.dbg.") || begins_with(name, b"@llvm.lifetime.")
}

#[tactic(auto, unfolding(crate::specs::Gap::begins_with))]
fn begins_with(bytes: &[u8], word: &[u8]) -> bool
    ensures { result ≡ begins_with bytes.now word.now }
{
    bytes.starts_with(word)
}
