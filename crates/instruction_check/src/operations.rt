//! The operations that words spell.

ghost use Rattle.std.specs.Prelude.{◌≡◌};
ghost use Rattle.instruction_check.specs.Operations as spec;

use ir_types::{BinOp, CmpOp, ConvOp, Inst, Kind, Operand, Width};

/// What a conversion's word spells.
#[derive(Clone, Copy, Debug, PartialEq, Eq)]
pub enum Cast {
    Truncate,
    ZeroExtend,
    SignExtend,
    PointerToInteger,
    IntegerToPointer,
}

/// The operation of two integers. What no other word spells is `ashr`.
pub fn binary_of(word: &[u8]) -> BinOp
    ensures { result ≡ spec.binary_of word.now }
{
    if word == "add".as_bytes() {
        BinOp::Add
    } else if word == "sub".as_bytes() {
        BinOp::Sub
    } else if word == "mul".as_bytes() {
        BinOp::Mul
    } else if word == "and".as_bytes() {
        BinOp::And
    } else if word == "or".as_bytes() {
        BinOp::Or
    } else if word == "xor".as_bytes() {
        BinOp::Xor
    } else {
        division_of(word)
    }
}

fn division_of(word: &[u8]) -> BinOp
    ensures { result ≡ spec.division_of word.now }
{
    if word == "udiv".as_bytes() {
        BinOp::Udiv
    } else if word == "urem".as_bytes() {
        BinOp::Urem
    } else if word == "sdiv".as_bytes() {
        BinOp::Sdiv
    } else if word == "srem".as_bytes() {
        BinOp::Srem
    } else if word == "shl".as_bytes() {
        BinOp::Shl
    } else if word == "lshr".as_bytes() {
        BinOp::Lshr
    } else {
        BinOp::Ashr
    }
}

/// The predicate of an `icmp`. What no other word spells is `sle`.
pub fn predicate_of(word: &[u8]) -> CmpOp
    ensures { result ≡ spec.predicate_of word.now }
{
    if word == "eq".as_bytes() {
        CmpOp::Eq
    } else if word == "ne".as_bytes() {
        CmpOp::Ne
    } else if word == "ugt".as_bytes() {
        CmpOp::Ugt
    } else if word == "uge".as_bytes() {
        CmpOp::Uge
    } else if word == "ult".as_bytes() {
        CmpOp::Ult
    } else if word == "ule".as_bytes() {
        CmpOp::Ule
    } else {
        signed_predicate_of(word)
    }
}

fn signed_predicate_of(word: &[u8]) -> CmpOp
    ensures { result ≡ spec.signed_predicate_of word.now }
{
    if word == "sgt".as_bytes() {
        CmpOp::Sgt
    } else if word == "sge".as_bytes() {
        CmpOp::Sge
    } else if word == "slt".as_bytes() {
        CmpOp::Slt
    } else {
        CmpOp::Sle
    }
}

/// The conversion of a word. What no other word spells is `inttoptr`.
pub fn cast_of(word: &[u8]) -> Cast
    ensures { result ≡ spec.cast_of word.now }
{
    if word == "trunc".as_bytes() {
        Cast::Truncate
    } else if word == "zext".as_bytes() {
        Cast::ZeroExtend
    } else if word == "sext".as_bytes() {
        Cast::SignExtend
    } else if word == "ptrtoint".as_bytes() {
        Cast::PointerToInteger
    } else {
        Cast::IntegerToPointer
    }
}

/// Whether the conversion leads from the one kind to the other: `trunc` to fewer bits, `zext` and `sext` to more.
pub fn can_cast(cast: Cast, from: Kind, to: Kind) -> bool
    ensures { result ≡ spec.can_cast cast from to }
{
    match (cast, from, to) {
        (Cast::Truncate, Kind::Int(wide), Kind::Int(narrow)) => narrow.bits() < wide.bits(),
        (Cast::ZeroExtend | Cast::SignExtend, Kind::Int(narrow), Kind::Int(wide)) => {
            narrow.bits() < wide.bits()
        }
        (Cast::PointerToInteger, Kind::Ptr, Kind::Int(_)) => true,
        (Cast::IntegerToPointer, Kind::Int(_), Kind::Ptr) => true,
        _ => false,
    }
}

/// The instruction that converts to a width. A pointer has 64 bits, of which the lowest are taken, and to which an
/// integer is extended by zeros.
pub fn converted(to: u32, cast: Cast, operand: Operand, from: Width, width: Width) -> Inst
    ensures { result ≡ spec.converted to cast operand from width }
{
    match cast {
        Cast::Truncate => Inst::Convert {
            to,
            op: ConvOp::Trunc,
            a: operand,
            width,
        },
        Cast::ZeroExtend => Inst::Convert {
            to,
            op: ConvOp::Zext,
            a: operand,
            width,
        },
        Cast::SignExtend => Inst::Convert {
            to,
            op: ConvOp::Sext,
            a: operand,
            width,
        },
        Cast::PointerToInteger => narrowed(to, operand, width),
        Cast::IntegerToPointer => widened(to, operand, from),
    }
}

fn narrowed(to: u32, operand: Operand, width: Width) -> Inst
    ensures { result ≡ spec.narrowed to operand width }
{
    match width {
        Width::W64 => Inst::Same { to, a: operand },
        _ => Inst::Convert {
            to,
            op: ConvOp::Trunc,
            a: operand,
            width,
        },
    }
}

fn widened(to: u32, operand: Operand, from: Width) -> Inst
    ensures { result ≡ spec.widened to operand from }
{
    match from {
        Width::W64 => Inst::Same { to, a: operand },
        _ => Inst::Convert {
            to,
            op: ConvOp::Zext,
            a: operand,
            width: Width::W64,
        },
    }
}
