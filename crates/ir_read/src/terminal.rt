//! The classes of tokens, as the grammar of modules tells them apart.

ghost use Rattle.std.specs.Prelude.{◌≡◌, drop, true};
ghost use Rattle.ir_lex.specs.declared.token.TokenKind.TheVariants as kinds;
ghost use Rattle.ir_lex.specs.Token.{is_token};
ghost use Rattle.std.specs.List.{list_all, list_any};
ghost use Rattle.ir_read.specs.Terminal as spec;

use crate::number::{SHORT, fits_word, is_all_digits};
use crate::words::word_class;
use ir_lex::TokenKind;

/// A class of tokens. Words, marks and what ends a text have their own; names, numbers and strings are told apart
/// as far as the grammar does.
#[derive(Clone, Copy)]
pub enum Terminal {
    Local,
    /// A name that a defined function may have: without quotes, or plain between them.
    Global,
    OddGlobal,
    Label,
    /// Digits, whose number is below 2^64.
    Natural,
    /// `-` and digits, whose number is below 2^64.
    Negative,
    /// Digits, whose number is 2^64 or more.
    Wide,
    /// `-` and digits, whose number is 2^64 or more.
    WideNegative,
    /// `c".."`, in which each backslash begins an escape.
    Bytes,
    OddText,
    /// `!name`.
    MetadataName,
    /// `!0`.
    MetadataNumber,
    /// `#0`.
    AttributeGroup,
    Equals,
    Comma,
    Star,
    LeftParen,
    RightParen,
    LeftBracket,
    RightBracket,
    LeftBrace,
    RightBrace,
    Less,
    Greater,
    Ellipsis,
    OtherMark,
    /// An attribute, a flag or a linkage, without a meaning here.
    Skipped,
    Align,
    Dereferenceable,
    Captures,
    KeyNone,
    KeyType,
    /// `global` or `constant`.
    KeyGlobal,
    KeyDeclare,
    KeyDefine,
    /// `i1` to `i64`.
    Int,
    Ptr,
    Void,
    KeyX,
    KeyTo,
    KeyLabel,
    /// `true`, `false`, `null` or `zeroinitializer`.
    LiteralWord,
    /// `add` to `xor`.
    Binary,
    Icmp,
    /// `eq` to `sle`.
    Predicate,
    /// `trunc`, `zext`, `sext` or `ptrtoint`.
    Cast,
    IntToPtr,
    Select,
    Phi,
    Alloca,
    Load,
    GetElementPtr,
    Call,
    Store,
    Br,
    Switch,
    Ret,
    Unreachable,
    OtherWord,
    /// The end of the text.
    End,
    /// A place where no token begins.
    Bad,
}

/// The class of a token of this kind with this text.
#[tactic(auto, unfolding(crate::specs::Terminal::terminal_of))]
pub fn terminal_of(kind: TokenKind, text: &[u8]) -> Terminal
    ensures { result ≡ spec.terminal_of kind text.now }
{
    match kind {
        TokenKind::Local => Terminal::Local,
        TokenKind::Global => global_class(text),
        TokenKind::Label => Terminal::Label,
        TokenKind::Word => word_class(text),
        TokenKind::Number => number_class(text),
        TokenKind::Text => string_class(text),
        TokenKind::Meta => metadata_class(text),
        TokenKind::Mark => mark_class(text),
    }
}

/// The class of a token that a lexer found. The digits of a number and the bytes of a plain name needn't be read again.
#[tactic(auto, unfolding(crate::specs::Terminal::terminal_of))]
#[inline(always)]
pub fn lexed_class(kind: TokenKind, text: &[u8]) -> Terminal
    requires { is_token kind text.now ≡ true }
    ensures { result ≡ spec.terminal_of kind text.now }
{
    match kind {
        TokenKind::Global => lexed_global(text),
        TokenKind::Number => lexed_number(text),
        _ => terminal_of(kind, text),
    }
}

#[tactic(auto, using(crate::proofs::Lexed::plain_name))]
fn lexed_global(text: &[u8]) -> Terminal
    requires { is_token kinds.Global text.now ≡ true }
    ensures { result ≡ spec.global_class text.now }
{
    match after_first(text) {
        [b'"', ..] => global_class(text),
        _ => Terminal::Global,
    }
}

#[tactic(auto, using(crate::proofs::Lexed::short_negative, crate::proofs::Lexed::short_natural))]
fn lexed_number(text: &[u8]) -> Terminal
    requires { is_token kinds.Number text.now ≡ true }
    ensures { result ≡ spec.number_class text.now }
{
    if text.len() > SHORT {
        return number_class(text);
    }
    match text {
        [b'-', ..] => Terminal::Negative,
        _ => Terminal::Natural,
    }
}

fn global_class(text: &[u8]) -> Terminal
    ensures { result ≡ spec.global_class text.now }
{
    if is_plain(after_first(text)) {
        Terminal::Global
    } else {
        Terminal::OddGlobal
    }
}

/// The bytes after a sigil.
pub fn after_first(text: &[u8]) -> &[u8]
    ensures { result.now ≡ drop 1 text.now }
{
    match text {
        [] => text,
        [_, rest @ ..] => rest,
    }
}

/// Whether a name has bytes of plain names alone, quotes aside, and at least one.
fn is_plain(name: &[u8]) -> bool
    ensures { result ≡ spec.is_plain name.now }
{
    has_plain_bytes(name) && has_name_byte(name)
}

fn has_plain_bytes(name: &[u8]) -> bool
    ensures { result ≡ list_all spec.is_plain_or_quote name.now }
{
    name.iter().all(|byte| is_plain_or_quote(*byte))
}

fn has_name_byte(name: &[u8]) -> bool
    ensures { result ≡ list_any spec.is_name_byte name.now }
{
    name.iter().any(|byte| is_name_byte(*byte))
}

// For each byte 1 where it is one of plain names, 2 for the quote, and else 0.
static NAME_BYTES: [u8; 256] = *b"\
    00000000000000000000000000000000\
    00201000000001101111111111000000\
    01111111111111111111111111100001\
    01111111111111111111111111100000\
    00000000000000000000000000000000\
    00000000000000000000000000000000\
    00000000000000000000000000000000\
    00000000000000000000000000000000";

fn is_plain_or_quote(byte: u8) -> bool
    ensures { result ≡ spec.is_plain_or_quote byte }
{
    NAME_BYTES[byte as usize] != b'0'
}

fn is_name_byte(byte: u8) -> bool
    ensures { result ≡ spec.is_name_byte byte }
{
    NAME_BYTES[byte as usize] == b'1'
}

fn number_class(text: &[u8]) -> Terminal
    ensures { result ≡ spec.number_class text.now }
{
    match text {
        [b'-', digits @ ..] => signed_class(digits),
        _ => unsigned_class(text),
    }
}

fn signed_class(digits: &[u8]) -> Terminal
    ensures { result ≡ spec.signed_class digits.now }
{
    if fits_word(digits) {
        Terminal::Negative
    } else {
        Terminal::WideNegative
    }
}

fn unsigned_class(digits: &[u8]) -> Terminal
    ensures { result ≡ spec.unsigned_class digits.now }
{
    if fits_word(digits) {
        Terminal::Natural
    } else {
        Terminal::Wide
    }
}

fn string_class(text: &[u8]) -> Terminal
    ensures { result ≡ spec.string_class text.now }
{
    match text {
        [b'c', quoted @ ..] => quoted_class(quoted),
        _ => Terminal::OddText,
    }
}

fn quoted_class(quoted: &[u8]) -> Terminal
    ensures { result ≡ spec.quoted_class quoted.now }
{
    if are_escapes_whole(quoted) {
        Terminal::Bytes
    } else {
        Terminal::OddText
    }
}

/// What a byte of a string stands in.
#[derive(Clone, Copy)]
enum Escape {
    /// No escape.
    Outside,
    /// An escape of which the backslash was read.
    Backslash,
    /// An escape of which one digit was read.
    Digit,
}

/// Whether each backslash begins `\\` or `\` and two hexadecimal digits.
fn are_escapes_whole(quoted: &[u8]) -> bool
    ensures { result ≡ spec.are_escapes_whole Escape.Outside quoted.now }
{
    let mut escape = Escape::Outside;
    for byte in quoted {
        match after_byte(escape, *byte) {
            Some(next) => escape = next,
            None => return false,
        }
    }
    true
}

fn after_byte(escape: Escape, byte: u8) -> Option<Escape>
    ensures { result ≡ spec.after_byte escape byte }
{
    match escape {
        Escape::Outside if byte == b'\\' => Some(Escape::Backslash),
        Escape::Outside => Some(Escape::Outside),
        Escape::Backslash if byte == b'\\' => Some(Escape::Outside),
        Escape::Backslash if byte.is_ascii_hexdigit() => Some(Escape::Digit),
        Escape::Digit if byte.is_ascii_hexdigit() => Some(Escape::Outside),
        _ => None,
    }
}

fn metadata_class(text: &[u8]) -> Terminal
    ensures { result ≡ spec.metadata_class text.now }
{
    match text {
        [b'#', ..] => Terminal::AttributeGroup,
        _ => exclamation_class(after_first(text)),
    }
}

fn exclamation_class(name: &[u8]) -> Terminal
    ensures { result ≡ spec.exclamation_class name.now }
{
    if is_all_digits(name) {
        Terminal::MetadataNumber
    } else {
        Terminal::MetadataName
    }
}

fn mark_class(text: &[u8]) -> Terminal
    ensures { result ≡ spec.mark_class text.now }
{
    match text {
        b"=" => Terminal::Equals,
        b"," => Terminal::Comma,
        b"*" => Terminal::Star,
        b"(" => Terminal::LeftParen,
        b")" => Terminal::RightParen,
        b"[" => Terminal::LeftBracket,
        b"]" => Terminal::RightBracket,
        b"{" => Terminal::LeftBrace,
        b"}" => Terminal::RightBrace,
        b"<" => Terminal::Less,
        b">" => Terminal::Greater,
        b"..." => Terminal::Ellipsis,
        _ => Terminal::OtherMark,
    }
}
