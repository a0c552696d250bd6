//! A module of a text, in full: where its globals lie and what they begin with, and its functions, instruction by instruction.

use ir_read::read_module;
use ir_types::{
    BinOp, Block, ConvOp, Extern, Function, Inst, ItemKind, Kind, List, Module, Operand, Piece,
    Width, Word,
};
use module_build::check_module;
use std::alloc::{AllocError, Global};
use std::test::Fail;

const TEXT: &str = "@b = global i8 -2
@n = constant i32 -2
@p = global %pair { i8 1, i32 258 }
@q = global <{ i8, i16 }> <{ i8 1, i16 258 }>
@e = global {} zeroinitializer
@s = private constant [9 x i8] c\"%d%%,%s\\0A\\00\"
@a = global [3 x ptr] [ptr @n, ptr getelementptr (%pair, ptr @p, i64 1, i32 1), ptr inttoptr (i16 -1 to ptr)]
@\"l t\" = global i64 0
%pair = type { i8, i32 }
declare i32 @printf(ptr, ...)
define i32 @f(i32 %n, ptr %p) {
  %a = alloca %pair
  %b = alloca i16, i64 3
  %c = getelementptr %pair, ptr %p, i64 2, i32 1
  %d = getelementptr [4 x i16], ptr %p, i32 %n, i64 1
  %e = ptrtoint ptr %p to i64
  %g = ptrtoint ptr %p to i16
  %h = inttoptr i64 %e to ptr
  %i = inttoptr i32 %n to ptr
  switch i32 %n, label %end [
    i32 -1, label %more
    i32 3, label %end
    i32 3, label %more
  ]
more:
  store i8 1, ptr @b
  br label %end
end:
  %x = phi i32 [ %n, %0 ], [ 7, %more ], [ 8, %more ], [ 9, %end ]
  ret i32 %x
}
define i32 @main() {
  %v = call i32 @f(i32 5, ptr @p)
  call void @none(i64 9)
  %t = alloca i64
  call i32 @pthread_create(ptr %t, ptr null, ptr @run, ptr @p)
  %w = call i32 (ptr, ...) @printf(ptr @s, i32 %v, ptr @s)
  %u = call i8 @rc_input_i8(i32 7)
  %z = sub i32 %v, 1
  ret i32 %z
}
declare i32 @pthread_create(ptr, ptr, ptr, ptr)
declare i8 @rc_input_i8(i32)
define ptr @run(ptr %q) {
  ret ptr %q
}
define void @none(i64) {
  ret void
}
";

/// Where the first global lies.
const FIRST: u64 = 4294967296;

/// Names, sizes, how far behind the first, whether constant, and first bytes. Behind each global are 16 bytes or more.
static GLOBALS: [(&str, u64, u64, bool, &[u8]); 8] = [
    ("b", 1, 0, false, &[254]),
    ("n", 4, 32, true, &[254, 255, 255, 255]),
    ("p", 8, 64, false, &[1, 0, 0, 0, 2, 1, 0, 0]),
    ("q", 3, 96, false, &[1, 2, 1]),
    ("e", 0, 128, false, &[]),
    ("s", 9, 144, true, b"%d%%,%s\n\0"),
    (
        "a",
        24,
        176,
        false,
        &[
            32, 0, 0, 0, 1, 0, 0, 0, 76, 0, 0, 0, 1, 0, 0, 0, 255, 255, 0, 0, 0, 0, 0, 0,
        ],
    ),
    ("l t", 8, 224, false, &[0, 0, 0, 0, 0, 0, 0, 0]),
];

const I32: Kind = Kind::Int(Width::W32);

fn word(width: Width, bits: u64) -> Word {
    Word::truncated(width, bits)
}

fn constant(width: Width, bits: u64) -> Operand {
    Operand::Constant(Word::truncated(width, bits))
}

fn bytes(alloc: Global, text: &[u8]) -> Result<List<u8>, AllocError> {
    let items = Vec::from_slice(alloc, text)?;
    Ok(List { items })
}

fn operands(alloc: Global, some: &[Operand]) -> Result<List<Operand>, AllocError> {
    let items = Vec::from_slice(alloc, some)?;
    Ok(List { items })
}

fn block(first: u32, items: Vec<Inst>) -> Block {
    Block {
        first,
        insts: List { items },
    }
}

fn function(
    alloc: Global,
    name: &[u8],
    parameters: &[Kind],
    returned: Option<Kind>,
    registers: &[Kind],
    blocks: Vec<Block>,
) -> Result<Function, AllocError> {
    let params = Vec::from_slice(alloc, parameters)?;
    let kinds = Vec::from_slice(alloc, registers)?;
    Ok(Function {
        name: bytes(alloc, name)?,
        params: List { items: params },
        result: returned,
        blocks: List { items: blocks },
        registers: List { items: kinds },
    })
}

/// The first block of `@f`.
fn front(alloc: Global) -> Result<Block, AllocError> {
    let scaled = vec![in alloc; (Operand::Register(0), 8)]?;
    let cases = vec![in alloc;
        (word(Width::W32, 4294967295), 1),
        (word(Width::W32, 3), 2),
        (word(Width::W32, 3), 1),
    ]?;
    let parameter = Operand::Register(1);
    let insts = vec![in alloc;
        Inst::Alloca {
            to: 2,
            unit: 8,
            count: constant(Width::W32, 1)
        },
        Inst::Alloca {
            to: 3,
            unit: 2,
            count: constant(Width::W64, 3)
        },
        Inst::Address {
            to: 4,
            base: parameter,
            fixed: 20,
            scaled: List::new(alloc)
        },
        Inst::Address {
            to: 5,
            base: parameter,
            fixed: 2,
            scaled: List { items: scaled }
        },
        Inst::Same {
            to: 6,
            a: parameter
        },
        Inst::Convert {
            to: 7,
            op: ConvOp::Trunc,
            a: parameter,
            width: Width::W16
        },
        Inst::Same {
            to: 8,
            a: Operand::Register(6)
        },
        Inst::Convert {
            to: 9,
            op: ConvOp::Zext,
            a: Operand::Register(0),
            width: Width::W64
        },
        Inst::Switch {
            value: Operand::Register(0),
            default: 2,
            cases: List { items: cases }
        },
    ]?;
    Ok(block(0, insts))
}

fn called(alloc: Global) -> Result<Function, AllocError> {
    let store = Inst::Store {
        kind: Kind::Int(Width::W8),
        value: constant(Width::W8, 1),
        at: constant(Width::W64, FIRST),
    };
    let more = vec![in alloc; store, Inst::Branch { block: 2 }]?;
    let edges = vec![in alloc;
        (0, Operand::Register(0)),
        (1, constant(Width::W32, 7)),
        (1, constant(Width::W32, 8)),
        (2, constant(Width::W32, 9)),
    ]?;
    let phi = Inst::Phi {
        to: 10,
        edges: List { items: edges },
    };
    let value = Some(Operand::Register(10));
    let end = vec![in alloc; phi, Inst::Ret { value }]?;
    let blocks = vec![in alloc; front(alloc)?, block(9, more), block(11, end)]?;
    let wide = Kind::Int(Width::W64);
    let narrow = Kind::Int(Width::W16);
    let ptr = Kind::Ptr;
    let registers = [I32, ptr, ptr, ptr, ptr, ptr, wide, narrow, ptr, ptr, I32];
    function(alloc, b"f", &[I32, ptr], Some(I32), &registers, blocks)
}

fn pieces(alloc: Global) -> Result<List<Piece>, AllocError> {
    let items = vec![in alloc;
        Piece::Number(ItemKind::D32),
        Piece::Literal(bytes(alloc, b"%,")?),
        Piece::Str,
        Piece::Literal(bytes(alloc, b"\n")?),
    ]?;
    Ok(List { items })
}

fn external(to: u32, which: Extern, args: List<Operand>) -> Inst {
    Inst::External {
        to: Some(to),
        which,
        args,
    }
}

fn main_function(alloc: Global) -> Result<Function, AllocError> {
    let pair = constant(Width::W64, FIRST + 64);
    let string = constant(Width::W64, FIRST + 144);
    let null = constant(Width::W64, 0);
    let value = Operand::Register(0);
    let thread = operands(alloc, &[Operand::Register(1), null, pair])?;
    let printed = operands(alloc, &[value, string])?;
    let format = Extern::Printf {
        pieces: pieces(alloc)?,
    };
    let input = Extern::Input {
        slot: 7,
        width: Width::W8,
    };
    let insts = vec![in alloc;
        Inst::Call {
            to: Some(0),
            function: 0,
            args: operands(alloc, &[constant(Width::W32, 5), pair])?
        },
        Inst::Call {
            to: None,
            function: 3,
            args: operands(alloc, &[constant(Width::W64, 9)])?
        },
        Inst::Alloca {
            to: 1,
            unit: 8,
            count: constant(Width::W32, 1)
        },
        external(2, Extern::Create { function: 2 }, thread),
        external(3, format, printed),
        external(4, input, List::new(alloc)),
        Inst::Binary {
            to: 5,
            op: BinOp::Sub,
            a: value,
            b: constant(Width::W32, 1)
        },
        Inst::Ret {
            value: Some(Operand::Register(5))
        },
    ]?;
    let blocks = vec![in alloc; block(0, insts)]?;
    let registers = [I32, Kind::Ptr, I32, I32, Kind::Int(Width::W8), I32];
    function(alloc, b"main", &[], Some(I32), &registers, blocks)
}

fn returning(
    alloc: Global,
    name: &[u8],
    parameter: Kind,
    returned: Option<Kind>,
    value: Option<Operand>,
) -> Result<Function, AllocError> {
    let insts = vec![in alloc; Inst::Ret { value }]?;
    let blocks = vec![in alloc; block(0, insts)]?;
    function(alloc, name, &[parameter], returned, &[parameter], blocks)
}

fn all_functions(alloc: Global) -> Result<Vec<Function>, AllocError> {
    let first = Some(Operand::Register(0));
    let run = returning(alloc, b"run", Kind::Ptr, Some(Kind::Ptr), first)?;
    let none = returning(alloc, b"none", Kind::Int(Width::W64), None, None)?;
    let functions = vec![in alloc; called(alloc)?, main_function(alloc)?, run, none]?;
    Ok(functions)
}

fn built(alloc: Global) -> Result<Module, Fail> {
    let Ok(raw) = read_module(alloc, TEXT.as_bytes()) else {
        return Err(Fail::new("the text isn't read"));
    };
    match check_module(alloc, &raw) {
        Ok(module) => Ok(module),
        Err(_) => Err(Fail::new("the module is refused")),
    }
}

#[test]
fn globals_lie_in_order_with_their_bytes(rt: HostRuntime) -> Result<(), Fail> {
    let module = built(rt.alloc())?;
    assert_eq!(rt; module.globals.len(), GLOBALS.len());
    for (global, wanted) in module.globals.as_slice().iter().zip(GLOBALS.iter()) {
        let (name, size, place, is_constant, image) = *wanted;
        assert!(rt; global.name.as_slice() == name.as_bytes(), "{name}");
        assert_eq!(rt; global.size, size, "{name}");
        assert_eq!(rt; global.base, FIRST + place, "{name}");
        assert_eq!(rt; global.constant, is_constant, "{name}");
        assert!(rt; global.image.as_slice() == image, "{name}");
    }
    Ok(())
}

#[test]
fn functions_have_their_instructions(rt: HostRuntime) -> Result<(), Fail> {
    let module = built(rt.alloc())?;
    assert_eq!(rt; module.main, 1);
    let wanted = all_functions(rt.alloc())?;
    assert_eq!(rt; module.functions.len(), wanted.len());
    for (found, wanted) in module.functions.as_slice().iter().zip(wanted.iter()) {
        assert_eq!(rt; found, wanted);
    }
    Ok(())
}
