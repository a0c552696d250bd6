//! Values at the edges of each width, worked out by the rules of the LLVM Language Reference.

use ir_types::{BinOp, CmpOp, ConvOp, Kind, OpTrap, Width, Word, binary, compare, convert, total};

const LEAST: u64 = 1 << 63;

static OPERATIONS: [(BinOp, Width, u64, u64, Result<u64, OpTrap>); 56] = [
    (BinOp::Add, Width::W1, 1, 1, Ok(0)),
    (BinOp::Add, Width::W8, 255, 1, Ok(0)),
    (BinOp::Add, Width::W16, 65535, 3, Ok(2)),
    (BinOp::Add, Width::W32, 4294967295, 6, Ok(5)),
    (BinOp::Add, Width::W64, u64::MAX, 1, Ok(0)),
    (BinOp::Sub, Width::W1, 0, 1, Ok(1)),
    (BinOp::Sub, Width::W8, 3, 5, Ok(254)),
    (BinOp::Sub, Width::W64, 0, 1, Ok(u64::MAX)),
    (BinOp::Mul, Width::W8, 16, 17, Ok(16)),
    (BinOp::Mul, Width::W16, 300, 300, Ok(24464)),
    (BinOp::Mul, Width::W64, u64::MAX, u64::MAX, Ok(1)),
    (
        BinOp::Mul,
        Width::W64,
        4294967297,
        4294967297,
        Ok(8589934593),
    ),
    (BinOp::And, Width::W8, 12, 10, Ok(8)),
    (BinOp::Or, Width::W8, 12, 10, Ok(14)),
    (BinOp::Xor, Width::W8, 12, 10, Ok(6)),
    (BinOp::Udiv, Width::W8, 249, 2, Ok(124)),
    (BinOp::Urem, Width::W8, 249, 2, Ok(1)),
    (BinOp::Udiv, Width::W64, 5, 0, Err(OpTrap::DivZero)),
    (BinOp::Urem, Width::W1, 1, 0, Err(OpTrap::DivZero)),
    (BinOp::Sdiv, Width::W8, 249, 2, Ok(253)),
    (BinOp::Srem, Width::W8, 249, 2, Ok(255)),
    (BinOp::Sdiv, Width::W8, 7, 254, Ok(253)),
    (BinOp::Srem, Width::W8, 7, 254, Ok(1)),
    (BinOp::Sdiv, Width::W8, 249, 254, Ok(3)),
    (BinOp::Srem, Width::W8, 249, 254, Ok(255)),
    (BinOp::Sdiv, Width::W1, 0, 1, Ok(0)),
    (BinOp::Sdiv, Width::W64, LEAST, 2, Ok(3 << 62)),
    (BinOp::Sdiv, Width::W64, LEAST, 0, Err(OpTrap::DivZero)),
    (BinOp::Srem, Width::W32, 7, 0, Err(OpTrap::DivZero)),
    (BinOp::Sdiv, Width::W1, 1, 1, Err(OpTrap::DivOverflow)),
    (BinOp::Srem, Width::W1, 1, 1, Err(OpTrap::DivOverflow)),
    (BinOp::Sdiv, Width::W8, 128, 255, Err(OpTrap::DivOverflow)),
    (BinOp::Srem, Width::W8, 128, 255, Err(OpTrap::DivOverflow)),
    (
        BinOp::Sdiv,
        Width::W16,
        32768,
        65535,
        Err(OpTrap::DivOverflow),
    ),
    (
        BinOp::Srem,
        Width::W16,
        32768,
        65535,
        Err(OpTrap::DivOverflow),
    ),
    (
        BinOp::Sdiv,
        Width::W32,
        2147483648,
        4294967295,
        Err(OpTrap::DivOverflow),
    ),
    (
        BinOp::Srem,
        Width::W32,
        2147483648,
        4294967295,
        Err(OpTrap::DivOverflow),
    ),
    (
        BinOp::Sdiv,
        Width::W64,
        LEAST,
        u64::MAX,
        Err(OpTrap::DivOverflow),
    ),
    (
        BinOp::Srem,
        Width::W64,
        LEAST,
        u64::MAX,
        Err(OpTrap::DivOverflow),
    ),
    (BinOp::Shl, Width::W1, 1, 0, Ok(1)),
    (BinOp::Shl, Width::W1, 1, 1, Err(OpTrap::Overshift)),
    (BinOp::Shl, Width::W8, 129, 1, Ok(2)),
    (BinOp::Shl, Width::W8, 1, 7, Ok(128)),
    (BinOp::Shl, Width::W8, 1, 8, Err(OpTrap::Overshift)),
    (
        BinOp::Shl,
        Width::W32,
        1,
        4294967295,
        Err(OpTrap::Overshift),
    ),
    (BinOp::Shl, Width::W64, 3, 63, Ok(LEAST)),
    (BinOp::Shl, Width::W64, 1, 64, Err(OpTrap::Overshift)),
    (BinOp::Lshr, Width::W8, 128, 7, Ok(1)),
    (BinOp::Lshr, Width::W16, 32768, 16, Err(OpTrap::Overshift)),
    (BinOp::Lshr, Width::W64, LEAST, 63, Ok(1)),
    (BinOp::Ashr, Width::W1, 1, 0, Ok(1)),
    (BinOp::Ashr, Width::W8, 249, 1, Ok(252)),
    (BinOp::Ashr, Width::W8, 7, 1, Ok(3)),
    (BinOp::Ashr, Width::W8, 128, 8, Err(OpTrap::Overshift)),
    (BinOp::Ashr, Width::W16, 32768, 15, Ok(65535)),
    (BinOp::Ashr, Width::W64, LEAST, 63, Ok(u64::MAX)),
];

#[test]
fn operations(rt: HostRuntime) {
    for &(op, width, a, b, want) in &OPERATIONS {
        let value = binary(op, Word::truncated(width, a), Word::truncated(width, b));
        assert_eq!(rt;
            value.map(|word| word.bits),
            want,
            "{op:?} {width:?} {a} {b}"
        );
    }
}

/// Where the table has a trap, the least value of a signed division that overflows, and else 0.
static TOTALS: [(BinOp, Width, u64, u64, u64); 9] = [
    (BinOp::Add, Width::W8, 255, 2, 1),
    (BinOp::Udiv, Width::W64, 5, 0, 0),
    (BinOp::Sdiv, Width::W8, 7, 0, 0),
    (BinOp::Sdiv, Width::W1, 1, 1, 1),
    (BinOp::Sdiv, Width::W8, 128, 255, 128),
    (BinOp::Sdiv, Width::W64, LEAST, u64::MAX, LEAST),
    (BinOp::Srem, Width::W8, 128, 255, 0),
    (BinOp::Shl, Width::W8, 1, 8, 0),
    (BinOp::Ashr, Width::W16, 65535, 16, 0),
];

#[test]
fn operations_have_a_value_where_they_trap(rt: HostRuntime) {
    for &(op, width, a, b, want) in &TOTALS {
        let value = total(op, Word::truncated(width, a), Word::truncated(width, b));
        assert_eq!(rt; value.bits, want, "{op:?} {width:?} {a} {b}");
    }
}

static PREDICATES: [CmpOp; 10] = [
    CmpOp::Eq,
    CmpOp::Ne,
    CmpOp::Ugt,
    CmpOp::Uge,
    CmpOp::Ult,
    CmpOp::Ule,
    CmpOp::Sgt,
    CmpOp::Sge,
    CmpOp::Slt,
    CmpOp::Sle,
];

static COMPARISONS: [(Width, u64, u64, [u64; 10]); 8] = [
    (Width::W8, 5, 3, [0, 1, 1, 1, 0, 0, 1, 1, 0, 0]),
    (
        Width::W64,
        u64::MAX,
        u64::MAX,
        [1, 0, 0, 1, 0, 1, 0, 1, 0, 1],
    ),
    (Width::W1, 1, 0, [0, 1, 1, 1, 0, 0, 0, 0, 1, 1]),
    (Width::W8, 255, 1, [0, 1, 1, 1, 0, 0, 0, 0, 1, 1]),
    (Width::W8, 1, 255, [0, 1, 0, 0, 1, 1, 1, 1, 0, 0]),
    (Width::W16, 32768, 32767, [0, 1, 1, 1, 0, 0, 0, 0, 1, 1]),
    (
        Width::W32,
        2147483648,
        2147483647,
        [0, 1, 1, 1, 0, 0, 0, 0, 1, 1],
    ),
    (Width::W64, LEAST, LEAST - 1, [0, 1, 1, 1, 0, 0, 0, 0, 1, 1]),
];

#[test]
fn predicates(rt: HostRuntime) {
    for (width, a, b, wants) in &COMPARISONS {
        for (op, want) in PREDICATES.iter().zip(wants) {
            let holds = compare(
                *op,
                Word::truncated(*width, *a),
                Word::truncated(*width, *b),
            );
            assert_eq!(rt;
                holds,
                Word::truncated(Width::W1, *want),
                "{op:?} {width:?} {a} {b}"
            );
        }
    }
}

static NARROWER: [(Width, u64, Width, u64); 4] = [
    (Width::W64, 2, Width::W1, 0),
    (Width::W64, 3, Width::W1, 1),
    (Width::W32, 65538, Width::W16, 2),
    (Width::W16, 511, Width::W8, 255),
];

static WIDER: [(Width, u64, Width, u64, u64); 5] = [
    (Width::W1, 0, Width::W64, 0, 0),
    (Width::W1, 1, Width::W64, 1, u64::MAX),
    (Width::W8, 127, Width::W32, 127, 127),
    (Width::W8, 128, Width::W16, 128, 65408),
    (
        Width::W32,
        2147483648,
        Width::W64,
        2147483648,
        18446744071562067968,
    ),
];

#[test]
fn truncations(rt: HostRuntime) {
    for &(from, number, to, want) in &NARROWER {
        assert!(rt; to.bits() < from.bits());
        let word = convert(ConvOp::Trunc, Word::truncated(from, number), to);
        assert_eq!(rt; word.bits, want, "{from:?} {number} {to:?}");
    }
}

#[test]
fn extensions(rt: HostRuntime) {
    for &(from, number, to, zext, sext) in &WIDER {
        assert!(rt; from.bits() < to.bits());
        let word = Word::truncated(from, number);
        let (unsigned, signed) = (
            convert(ConvOp::Zext, word, to),
            convert(ConvOp::Sext, word, to),
        );
        assert_eq!(rt;
            (unsigned.bits, signed.bits),
            (zext, sext),
            "{from:?} {number} {to:?}"
        );
    }
}

/// Sizes as in the data layout of x86-64: a pointer has 8 bytes, and an `i1` takes a byte.
#[test]
fn kinds_have_their_sizes(rt: HostRuntime) {
    let table = [
        (Kind::Int(Width::W1), Width::W1, 1),
        (Kind::Int(Width::W8), Width::W8, 1),
        (Kind::Int(Width::W16), Width::W16, 2),
        (Kind::Int(Width::W32), Width::W32, 4),
        (Kind::Int(Width::W64), Width::W64, 8),
        (Kind::Ptr, Width::W64, 8),
    ];
    for (kind, width, size) in table {
        assert_eq!(rt; kind.width(), width);
        assert_eq!(rt; kind.size(), size);
        assert_eq!(rt; width.bytes(), size);
    }
}
