//! The calls of the C library and of POSIX threads with their types, and formats of `printf`.

use external_calls::{ExternalCall, Parameter, argument_kind, read_format};
use ir_types::{Bytes, Extern, ItemKind, Kind, Piece, Width};
use std::alloc::Global;

const BIT: Kind = Kind::Int(Width::W1);

const CHAR: Kind = Kind::Int(Width::W8);

const SHORT: Kind = Kind::Int(Width::W16);

const INT: Kind = Kind::Int(Width::W32);

const LONG: Kind = Kind::Int(Width::W64);

const PTR: Kind = Kind::Ptr;

/// Each call with its types, as clang declares them.
static CALLS: [(&str, Option<Kind>, &[Kind]); 37] = [
    ("pthread_create", Some(INT), &[PTR, PTR, PTR, PTR]),
    ("pthread_join", Some(INT), &[LONG, PTR]),
    ("pthread_exit", None, &[PTR]),
    ("pthread_self", Some(LONG), &[]),
    ("pthread_mutex_init", Some(INT), &[PTR, PTR]),
    ("pthread_mutex_destroy", Some(INT), &[PTR]),
    ("pthread_mutex_lock", Some(INT), &[PTR]),
    ("pthread_mutex_trylock", Some(INT), &[PTR]),
    ("pthread_mutex_unlock", Some(INT), &[PTR]),
    ("pthread_cond_init", Some(INT), &[PTR, PTR]),
    ("pthread_cond_destroy", Some(INT), &[PTR]),
    ("pthread_cond_wait", Some(INT), &[PTR, PTR]),
    ("pthread_cond_signal", Some(INT), &[PTR]),
    ("pthread_cond_broadcast", Some(INT), &[PTR]),
    ("sched_yield", Some(INT), &[]),
    ("usleep", Some(INT), &[INT]),
    ("sleep", Some(INT), &[INT]),
    ("malloc", Some(PTR), &[LONG]),
    ("calloc", Some(PTR), &[LONG, LONG]),
    ("free", None, &[PTR]),
    ("memcpy", Some(PTR), &[PTR, PTR, LONG]),
    ("memmove", Some(PTR), &[PTR, PTR, LONG]),
    ("memset", Some(PTR), &[PTR, INT, LONG]),
    ("strlen", Some(LONG), &[PTR]),
    ("llvm.memcpy.p0.p0.i64", None, &[PTR, PTR, LONG, BIT]),
    ("llvm.memmove.p0.p0.i64", None, &[PTR, PTR, LONG, BIT]),
    ("llvm.memset.p0.i64", None, &[PTR, CHAR, LONG, BIT]),
    ("putchar", Some(INT), &[INT]),
    ("puts", Some(INT), &[PTR]),
    ("printf", Some(INT), &[PTR]),
    ("exit", None, &[INT]),
    ("abort", None, &[]),
    ("__assert_fail", None, &[PTR, PTR, INT, PTR]),
    ("rc_input_i8", Some(CHAR), &[INT]),
    ("rc_input_i16", Some(SHORT), &[INT]),
    ("rc_input_i32", Some(INT), &[INT]),
    ("rc_input_i64", Some(LONG), &[INT]),
];

static NO_CALLS: [&str; 6] = [
    "",
    "pthread_detach",
    "pthread_joi",
    "putchar_unlocked",
    "llvm.memcpy.p0.p0.i32",
    "rc_input_i1",
];

#[test]
fn calls_have_their_types(rt: HostRuntime) {
    for &(name, result, kinds) in &CALLS {
        let call = ExternalCall::by_name(name.as_bytes());
        assert_eq!(rt; call.map(|call| call.name()), Some(name));
        assert_eq!(rt; call.map(|call| call.result()), Some(result));
        assert!(rt;
            call.is_some_and(|call| has_kinds(call.parameters(), kinds)),
            "{name}"
        );
        assert_eq!(rt;
            call.is_some_and(|call| call.is_variadic()),
            name == "printf"
        );
    }
    for name in &NO_CALLS {
        assert_eq!(rt; ExternalCall::by_name(name.as_bytes()), None);
    }
}

fn has_kinds(parameters: &[Parameter], kinds: &[Kind]) -> bool {
    parameters.len() == kinds.len()
        && parameters
            .iter()
            .zip(kinds)
            .all(|(parameter, kind)| parameter.kind() == *kind)
}

#[test]
fn calls_have_roles(rt: HostRuntime) {
    let value = Parameter::Value(PTR);
    let created = [value, value, Parameter::StartRoutine, value];
    assert_eq!(rt; ExternalCall::Create.parameters(), created.as_slice());
    assert_eq!(rt;
        ExternalCall::Printf.parameters(),
        [Parameter::Format].as_slice()
    );
    assert_eq!(rt;
        ExternalCall::Input8.parameters(),
        [Parameter::Slot].as_slice()
    );
    assert_eq!(rt; ExternalCall::Input8.input_width(), Some(Width::W8));
    assert!(rt; ExternalCall::Puts.is_output());
    assert!(rt; !ExternalCall::Strlen.is_output());
    assert!(rt; ExternalCall::Lock.to_extern() == Some(Extern::Lock));
    assert!(rt; ExternalCall::Create.to_extern().is_none());
}

/// What a piece is to be.
enum Wanted {
    Bytes(&'static [u8]),
    Number(ItemKind),
    Character,
    Text,
}

impl Wanted {
    fn is(&self, piece: &Piece) -> bool {
        match (self, piece) {
            (Wanted::Bytes(wanted), Piece::Literal(bytes)) => bytes.as_slice() == *wanted,
            (Wanted::Number(wanted), Piece::Number(kind)) => wanted == kind,
            (Wanted::Character, Piece::Character) | (Wanted::Text, Piece::Str) => true,
            _ => false,
        }
    }
}

const D32: Wanted = Wanted::Number(ItemKind::D32);

const D64: Wanted = Wanted::Number(ItemKind::D64);

const U64: Wanted = Wanted::Number(ItemKind::U64);

const X64: Wanted = Wanted::Number(ItemKind::X64);

static FORMATS: [(&[u8], &[Wanted]); 12] = [
    (b"\0", &[]),
    (b"\0%", &[]),
    (b"a b\n\0c", &[Wanted::Bytes(b"a b\n")]),
    (b"%d\n\0", &[D32, Wanted::Bytes(b"\n")]),
    (
        b"%i%u%x\0",
        &[
            D32,
            Wanted::Number(ItemKind::U32),
            Wanted::Number(ItemKind::X32),
        ],
    ),
    (b"%ld%lld%zd\0", &[D64, D64, D64]),
    (b"%li%lli%zi\0", &[D64, D64, D64]),
    (b"%lu%llu%zu\0", &[U64, U64, U64]),
    (b"%lx%llx%zx\0", &[X64, X64, X64]),
    (
        b"a%%b%cd\0",
        &[
            Wanted::Bytes(b"a%b"),
            Wanted::Character,
            Wanted::Bytes(b"d"),
        ],
    ),
    (
        b"%%%s%%%%\0",
        &[Wanted::Bytes(b"%"), Wanted::Text, Wanted::Bytes(b"%%")],
    ),
    (b"%%d\xff\0", &[Wanted::Bytes(b"%d\xff")]),
];

static NO_FORMATS: [&[u8]; 13] = [
    b"", b"%d", b"%\0", b"a%\0d", b"%l\0", b"%lc\0", b"%ls\0", b"%l%\0", b"%llld\0", b"%zld\0",
    b"%5d\0", b"%hd\0", b"%p\0",
];

#[test]
fn formats_have_their_pieces(rt: HostRuntime) {
    for &(format, wanted) in &FORMATS {
        assert!(rt; reads_as(rt.alloc(), format, wanted), "{format:?}");
    }
    for format in &NO_FORMATS {
        assert!(rt;
            matches!(read_format(rt.alloc(), format), Ok(None)),
            "{format:?}"
        );
    }
}

fn reads_as(alloc: Global, format: &[u8], wanted: &[Wanted]) -> bool {
    match read_format(alloc, format) {
        Ok(Some(pieces)) => pieces.len() == wanted.len()
            && pieces
                .as_slice()
                .iter()
                .zip(wanted)
                .all(|(piece, wanted)| wanted.is(piece)),
        _ => false,
    }
}

#[test]
fn pieces_take_arguments(rt: HostRuntime) {
    let literal = Piece::Literal(Bytes::new(rt.alloc()));
    assert_eq!(rt; argument_kind(&literal), None);
    assert_eq!(rt; argument_kind(&Piece::Number(ItemKind::X32)), Some(INT));
    assert_eq!(rt; argument_kind(&Piece::Number(ItemKind::D64)), Some(LONG));
    assert_eq!(rt; argument_kind(&Piece::Character), Some(INT));
    assert_eq!(rt; argument_kind(&Piece::Str), Some(PTR));
}
