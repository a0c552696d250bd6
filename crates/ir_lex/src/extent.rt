//! The kind and the length of the longest token at a place.

ghost use Rattle.std.specs.Prelude.{◌≡◌, ◌+◌, ◌<◌, ◌≤◌, ◌∷◌, not, ◌&&◌, ◌==◌, length, drop, slice_index, true, false, None, Some, IfSome, IsTrue, MatchOption};
ghost use Rattle.std.specs.List.{prefix_len};
ghost use Rattle.ir_lex.specs.Bytes.{is_mark, is_name_byte};
ghost use Rattle.ir_lex.specs.Extent.{closed_len, quoted_len, name_len, with_more, plain_extent, unlabelled_extent, c_extent, quote_extent, bang_extent, extent_of};

use crate::bytes::{digit_len, inside_len, is_lone_mark, is_name_byte, plain_len, word_len};
use crate::token::TokenKind;

/// The longest token that begins with some byte.
#[derive(Clone, Copy)]
pub struct Found {
    pub kind: TokenKind,
    /// How many bytes behind that one belong to it.
    pub more: usize,
    /// How many bytes of a plain name stand behind it, or 0 where that isn't known.
    pub run: usize,
}

/// The longest token that begins with `first`; none where no token begins so. `known` is the number of bytes of a plain
/// name at the front, `first` among them, or 0 where that isn't known.
#[inline(always)]
#[tactic(auto, unfolding(crate::specs::Extent::extent_of), using(crate::proofs::Extents::name_extent, crate::proofs::Extents::mark_extent))]
pub fn extent(first: u8, rest: &[u8], known: usize) -> Option<Found>
    requires { 0 < known → known ≡ prefix_len is_name_byte (first ∷ rest.now) }
    ensures value { MatchOption result (None ≡ extent_of first rest.now) (λ found. Some (found.kind, found.more) ≡ extent_of first rest.now) }
    ensures within { IfSome result (λ found. found.more ≤ length rest.now) }
    ensures run { IfSome result (λ found. 0 < found.run → found.run ≡ prefix_len is_name_byte (drop found.more rest.now)) }
{
    if is_name_byte(first) {
        return plain_extent(first, rest, known);
    }
    let (kind, more) = if is_lone_mark(first) {
        (TokenKind::Mark, 0)
    } else {
        sigil_extent(first, rest)?
    };
    Some(Found { kind, more, run: 0 })
}

/// What a byte begins that is in no plain name, and no mark but `!`.
#[inline(always)]
#[tactic(auto, unfolding(crate::specs::Extent::extent_of))]
fn sigil_extent(first: u8, rest: &[u8]) -> Option<(TokenKind, usize)>
    requires no_name { is_name_byte first ≡ false }
    requires no_mark { (is_mark first && not (first == 33)) ≡ false }
    ensures value { result ≡ extent_of first rest.now }
    ensures within { IfSome result (λ found. found.1 ≤ length rest.now) }
{
    match first {
        b'%' => with_more(TokenKind::Local, name_len(rest)),
        b'@' => with_more(TokenKind::Global, name_len(rest)),
        b'"' => quote_extent(rest),
        b'!' => bang_extent(rest),
        b'#' => with_more(TokenKind::Meta, digit_len(rest)),
        _ => None,
    }
}

/// What a byte of a plain name begins.
#[inline(always)]
#[tactic(auto, using(crate::proofs::Extents::run_behind, crate::proofs::Extents::run_within))]
fn plain_extent(first: u8, rest: &[u8], known: usize) -> Option<Found>
    requires name { is_name_byte first ≡ true }
    requires known { 0 < known → known ≡ prefix_len is_name_byte (first ∷ rest.now) }
    ensures value { MatchOption result (None ≡ plain_extent first rest.now) (λ found. Some (found.kind, found.more) ≡ plain_extent first rest.now) }
    ensures within { IfSome result (λ found. found.more ≤ length rest.now) }
    ensures run { IfSome result (λ found. 0 < found.run → found.run ≡ prefix_len is_name_byte (drop found.more rest.now)) }
{
    if first == b'c' && is_at(rest, 0, b'"') {
        let (kind, more) = c_extent(rest);
        return Some(Found { kind, more, run: 0 });
    }
    let unlabelled = unlabelled_extent(first, rest);
    let passed = match unlabelled {
        Some((_, more)) => more,
        None => 0,
    };
    let run = run_len(rest, passed, known);
    if is_at(rest, run, b':') {
        return Some(Found {
            kind: TokenKind::Label,
            more: run + 1,
            run: 0,
        });
    }
    let (kind, more) = unlabelled?;
    Some(Found {
        kind,
        more,
        run: run - more,
    })
}

/// How many bytes of a plain name stand behind its first, of which some were passed, so that they aren't read again.
/// `known` counts the first too, or is 0 where nothing is known.
#[inline(always)]
#[tactic(auto, using(crate::proofs::Extents::run_from, crate::proofs::Extents::run_within))]
fn run_len(rest: &[u8], passed: usize, known: usize) -> usize
    requires passed { passed ≤ prefix_len is_name_byte rest.now }
    requires known { 0 < known → known ≡ 1 + prefix_len is_name_byte rest.now }
    ensures value { result ≡ prefix_len is_name_byte rest.now }
{
    if known > 0 {
        return known - 1;
    }
    let (_, behind) = rest.split_at(passed);
    passed + rest_len(behind)
}

/// How many bytes of a plain name stand behind a word or a number: as a rule none, so the first is tested before the
/// loop is set up.
#[inline(always)]
fn rest_len(bytes: &[u8]) -> usize
    ensures value { result ≡ prefix_len is_name_byte bytes.now }
    ensures within { result ≤ length bytes.now }
{
    let Some((first, rest)) = bytes.split_first() else {
        return 0;
    };
    if is_name_byte(*first) {
        plain_len(rest) + 1
    } else {
        0
    }
}

/// What a byte of a plain name begins that is no label, where no quote follows a `c`. Letters come first, since most
/// tokens of this kind are words.
#[inline(always)]
#[tactic(auto, using(crate::proofs::Extents::digits_in_name, crate::proofs::Extents::word_in_name))]
fn unlabelled_extent(first: u8, rest: &[u8]) -> Option<(TokenKind, usize)>
    requires no_text { (first == 99 && slice_index rest.now 0 == 34) ≡ false }
    ensures value { result ≡ unlabelled_extent first rest.now }
    ensures within { IfSome result (λ found. found.1 ≤ prefix_len is_name_byte rest.now) }
{
    if first.is_ascii_alphabetic() {
        Some((TokenKind::Word, word_len(rest)))
    } else if first.is_ascii_digit() {
        Some((TokenKind::Number, digit_len(rest)))
    } else if first == b'-' {
        with_more(TokenKind::Number, digit_len(rest))
    } else if first == b'.' && is_at(rest, 0, b'.') && is_at(rest, 1, b'.') {
        Some((TokenKind::Mark, 2))
    } else {
        None
    }
}

/// What `c` begins that is no label.
#[inline(always)]
fn c_extent(rest: &[u8]) -> (TokenKind, usize)
    ensures value { result ≡ c_extent rest.now }
    ensures within { result.1 ≤ length rest.now }
{
    let quoted = quoted_len(rest);
    if quoted == 0 {
        (TokenKind::Word, word_len(rest))
    } else {
        (TokenKind::Text, quoted)
    }
}

/// What a quote begins.
#[inline(always)]
fn quote_extent(rest: &[u8]) -> Option<(TokenKind, usize)>
    ensures value { result ≡ quote_extent rest.now }
    ensures within { IfSome result (λ found. found.1 ≤ length rest.now) }
{
    let closed = closed_len(rest);
    if closed == 0 {
        None
    } else if is_at(rest, closed, b':') {
        Some((TokenKind::Label, closed + 1))
    } else {
        Some((TokenKind::Text, closed))
    }
}

/// What `!` begins.
#[inline(always)]
fn bang_extent(rest: &[u8]) -> Option<(TokenKind, usize)>
    ensures value { result ≡ bang_extent rest.now }
    ensures within { IfSome result (λ found. found.1 ≤ length rest.now) }
{
    let more = word_len(rest);
    if more == 0 {
        Some((TokenKind::Mark, 0))
    } else {
        Some((TokenKind::Meta, more))
    }
}

/// A token of a first byte and of so many more, of which there have to be some.
#[inline(always)]
fn with_more(kind: TokenKind, more: usize) -> Option<(TokenKind, usize)>
    ensures value { result ≡ with_more kind more }
    ensures within { IfSome result (λ found. found.1 ≡ more) }
{
    if more == 0 { None } else { Some((kind, more)) }
}

/// The length of the name at the front, quoted or plain; 0 where there is none.
#[inline(always)]
fn name_len(bytes: &[u8]) -> usize
    ensures value { result ≡ name_len bytes.now }
    ensures within { result ≤ length bytes.now }
{
    let quoted = quoted_len(bytes);
    if quoted == 0 {
        plain_len(bytes)
    } else {
        quoted
    }
}

/// The length of the quoted text at the front, with its quotes; 0 where there is none.
#[inline(always)]
fn quoted_len(bytes: &[u8]) -> usize
    ensures value { result ≡ quoted_len bytes.now }
    ensures within { result ≤ length bytes.now }
{
    match bytes {
        [b'"', inside @ ..] => {
            let closed = closed_len(inside);
            if closed == 0 { 0 } else { closed + 1 }
        }
        _ => 0,
    }
}

/// The length of a quoted text after its first quote, with the last one; 0 where it isn't closed on its line.
#[inline(always)]
fn closed_len(rest: &[u8]) -> usize
    ensures value { result ≡ closed_len rest.now }
    ensures within { result ≤ length rest.now }
{
    let inside = inside_len(rest);
    if is_at(rest, inside, b'"') {
        inside + 1
    } else {
        0
    }
}

/// Whether the byte stands at the index.
#[inline(always)]
fn is_at(bytes: &[u8], index: usize, byte: u8) -> bool
    requires { 0 < byte }
    ensures value { result ≡ (slice_index bytes.now index == byte) }
    ensures within { IsTrue result → index < length bytes.now }
{
    index < bytes.len() && bytes[index] == byte
}
