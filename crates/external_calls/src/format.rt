//! The format of `printf`, byte by byte.

ghost use Rattle.std.specs.Prelude.{◌≡◌, IfOk};
ghost use Rattle.external_calls.specs.Format as spec;

use crate::pieces::Pieces;
use ir_types::{ItemKind, Kind, List, Piece, Width};
use rc_base::NoMemory;
use std::alloc::Global;

/// Where reading stands: at an ordinary character, or within a conversion specification, behind the bytes named.
#[derive(Clone, Copy)]
pub enum Mode {
    Ordinary,
    /// `%`.
    Percent,
    /// `%l`.
    Long,
    /// `%ll`.
    LongLong,
    /// `%z`.
    Size,
}

/// A conversion that takes an argument.
#[derive(Clone, Copy)]
pub enum Conversion {
    Number(ItemKind),
    Character,
    Str,
}

impl Conversion {
    pub fn piece(self) -> Piece
        ensures { result ≡ spec.piece_of self }
    {
        match self {
            Conversion::Number(kind) => Piece::Number(kind),
            Conversion::Character => Piece::Character,
            Conversion::Str => Piece::Str,
        }
    }
}

/// What a byte of a format is.
#[derive(Clone, Copy)]
pub enum Read {
    /// A part of a conversion specification that goes on.
    Goes(Mode),
    /// This byte is printed.
    Prints(u8),
    Converts(Conversion),
    /// The zero byte behind the format.
    Ends,
    /// Another byte than those of the conversion specifications that are served.
    Unknown,
}

/// The pieces of the format that the bytes begin with, up to their first zero byte. There are none where no byte is
/// zero, or where a conversion specification is another one than `%d %i %u %x`, these with `l`, `ll` or `z`, `%c`, `%s`
/// and `%%`. A literal is as long as can be, and never empty.
#[tactic(auto, unfolding(crate::specs::Format::pieces_of))]
pub fn read_format(alloc: Global, bytes: &[u8]) -> Result<Option<List<Piece>>, NoMemory>
    ensures { IfOk result (λ found. found ≡ spec.pieces_of bytes.now) }
{
    let mut pieces = Pieces::new(alloc);
    let mut mode = Mode::Ordinary;
    for byte in bytes {
        match read_byte(mode, *byte) {
            Read::Goes(next) => mode = next,
            Read::Prints(printed) => {
                pieces.print(printed)?;
                mode = Mode::Ordinary;
            }
            Read::Converts(conversion) => {
                pieces.convert(conversion)?;
                mode = Mode::Ordinary;
            }
            Read::Ends => return Ok(Some(pieces.finish()?)),
            Read::Unknown => return Ok(None),
        }
    }
    Ok(None)
}

/// The kind of the argument that a piece takes; none for a literal.
#[tactic(auto, unfolding(crate::specs::Format::argument_kind))]
pub fn argument_kind(piece: &Piece) -> Option<Kind>
    ensures { result ≡ spec.argument_kind piece.now }
{
    match piece {
        Piece::Literal(_) => None,
        Piece::Number(kind) => Some(kind_of_number(*kind)),
        Piece::Character => Some(Kind::Int(Width::W32)),
        Piece::Str => Some(Kind::Ptr),
    }
}

fn kind_of_number(kind: ItemKind) -> Kind
    ensures { result ≡ spec.kind_of_number kind }
{
    match kind {
        ItemKind::D64 | ItemKind::U64 | ItemKind::X64 => Kind::Int(Width::W64),
        _ => Kind::Int(Width::W32),
    }
}

fn read_byte(mode: Mode, byte: u8) -> Read
    ensures { result ≡ spec.read_byte mode byte }
{
    match mode {
        Mode::Ordinary => ordinary(byte),
        Mode::Percent => specified(byte),
        Mode::Long if byte == b'l' => Read::Goes(Mode::LongLong),
        Mode::Long | Mode::LongLong | Mode::Size => long_number(byte),
    }
}

fn ordinary(byte: u8) -> Read
    ensures { result ≡ spec.ordinary byte }
{
    match byte {
        b'\0' => Read::Ends,
        b'%' => Read::Goes(Mode::Percent),
        _ => Read::Prints(byte),
    }
}

fn specified(byte: u8) -> Read
    ensures { result ≡ spec.specified byte }
{
    match byte {
        b'%' => Read::Prints(b'%'),
        b'l' => Read::Goes(Mode::Long),
        b'z' => Read::Goes(Mode::Size),
        b'c' => Read::Converts(Conversion::Character),
        b's' => Read::Converts(Conversion::Str),
        _ => number(ItemKind::D32, ItemKind::U32, ItemKind::X32, byte),
    }
}

fn long_number(byte: u8) -> Read
    ensures { result ≡ spec.long_number byte }
{
    number(ItemKind::D64, ItemKind::U64, ItemKind::X64, byte)
}

fn number(signed: ItemKind, unsigned: ItemKind, hexadecimal: ItemKind, byte: u8) -> Read
    ensures { result ≡ spec.number signed unsigned hexadecimal byte }
{
    match byte {
        b'd' | b'i' => Read::Converts(Conversion::Number(signed)),
        b'u' => Read::Converts(Conversion::Number(unsigned)),
        b'x' => Read::Converts(Conversion::Number(hexadecimal)),
        _ => Read::Unknown,
    }
}
