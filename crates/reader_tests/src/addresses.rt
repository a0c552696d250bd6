//! The addresses that instructions and constant expressions make, worked out by hand by `getelementptr`, `alloca` and
//! `inttoptr` of the LLVM Language Reference.

use instruction_check::Scope;
use ir_items::{Item, Items, Phrases, Statement, Statements};
use ir_lex::MOST_BYTES;
use ir_read::{Node, Terminal, read_module};
use ir_types::{Inst, Kind, List, Operand, Width, Word};
use module_check::{name_body, name_items};
use module_fault::Cause::{TypeMismatch, UnknownName};
use module_fault::{Cause, Found};
use rc_base::NoMemory;
use std::alloc::Global;
use std::test::Fail;
use struct_table::StructTable;

const BEFORE: &str = "%pair = type { i8, i32 }
%outer = type { i16, %pair, [3 x %pair] }
@g = global i32 0
define void @f(i32 %n, ptr %p) {
";

/// What stands behind `getelementptr`, how many bytes literals count, how many each `%n` counts in, with 0 where there is
/// no other, or what is wrong.
static PATHS: [(&str, u64, [u64; 2], Option<Cause>); 18] = [
    ("i8, ptr %p, i64 5", 5, [0, 0], None),
    ("i32, ptr %p, i32 -1", 18446744073709551612, [0, 0], None),
    ("i8, ptr %p, i1 true", 18446744073709551615, [0, 0], None),
    (
        "%outer, ptr %p, i64 1, i32 2, i64 2, i32 1",
        68,
        [0, 0],
        None,
    ),
    ("%outer, ptr %p, i32 %n, i32 2, i32 %n", 12, [36, 8], None),
    (
        "inbounds %outer, ptr %p, i8 0, i32 1, i32 1",
        8,
        [0, 0],
        None,
    ),
    (
        "{ i8, <{ i8, i64 }> }, ptr %p, i8 -1, i32 1, i32 1",
        18446744073709551608,
        [0, 0],
        None,
    ),
    (
        "[4 x [3 x i16]], ptr %p, i64 1, i64 2, i64 -3",
        30,
        [0, 0],
        None,
    ),
    (
        "[4294967296 x [4294967297 x i8]], ptr %p, i64 1",
        4294967296,
        [0, 0],
        None,
    ),
    ("%pair, ptr %p, i32 1, i32 2", 8, [0, 0], Some(TypeMismatch)),
    (
        "%pair, ptr %p, i32 1, i32 -1",
        8,
        [0, 0],
        Some(TypeMismatch),
    ),
    (
        "%pair, ptr %p, i32 1, i32 %n",
        8,
        [0, 0],
        Some(TypeMismatch),
    ),
    ("i32, ptr %p, i32 1, i32 0", 4, [0, 0], Some(TypeMismatch)),
    (
        "%pair, ptr %p, i32 0, i32 1, i32 0",
        4,
        [0, 0],
        Some(TypeMismatch),
    ),
    ("i8, ptr %p, i64 %n", 0, [1, 0], Some(TypeMismatch)),
    ("i8, ptr %n, i64 0", 0, [0, 0], Some(TypeMismatch)),
    ("i8, ptr %q, i64 0", 0, [0, 0], Some(UnknownName)),
    ("%pair, ptr %q, i32 0, i32 9", 0, [0, 0], Some(UnknownName)),
];

/// Constant expressions with their addresses, where `@g` lies at 4096, or with what is wrong.
static EXPRESSIONS: [(&str, u64, Option<Cause>); 8] = [
    ("getelementptr (%pair, ptr @g, i64 1, i32 1)", 4108, None),
    ("getelementptr inbounds (i8, ptr @g, i64 -1)", 4095, None),
    (
        "getelementptr (i8, ptr @g, i64 -4097)",
        18446744073709551615,
        None,
    ),
    ("inttoptr (i8 -1 to ptr)", 255, None),
    ("inttoptr (i64 -1 to ptr)", 18446744073709551615, None),
    ("inttoptr (i1 true to ptr)", 1, None),
    (
        "getelementptr (%pair, ptr @g, i64 0, i32 2)",
        0,
        Some(TypeMismatch),
    ),
    ("getelementptr (i8, ptr @h, i64 1)", 0, Some(UnknownName)),
];

/// What stands behind `alloca`, how many bytes one takes, and how many there are.
static BLOCKS: [(&str, u64, Width, u64); 4] = [
    ("i32", 4, Width::W32, 1),
    ("%outer, align 8", 36, Width::W32, 1),
    ("%pair, i64 3", 8, Width::W64, 3),
    (
        "[4294967296 x [4294967297 x i8]]",
        18446744073709551615,
        Width::W32,
        1,
    ),
];

/// The instruction with which the body of `@f` begins.
fn first_instruction(alloc: Global, nodes: &[Node<'_>]) -> Result<Option<Found<Inst>>, NoMemory> {
    let mut named = name_items(alloc, nodes)?;
    named.names.addresses.items.push(4096)?;
    let structs = StructTable::of(alloc, nodes)?;
    let Some(item) = fourth(nodes) else {
        return Ok(None);
    };
    let body = name_body(alloc, &named.names, &item)?;
    let scope = Scope {
        names: &named.names,
        body: &body.names,
        structs: &structs,
    };
    match Statements::new(item.body()).next() {
        Some(statement) => instruction(alloc, &scope, &statement),
        None => Ok(None),
    }
}

fn instruction<'s>(
    alloc: Global,
    scope: &Scope<'_, '_, 's>,
    statement: &Statement<'_, 's>,
) -> Result<Option<Found<Inst>>, NoMemory> {
    let mut phrases = Phrases::new(statement.operands);
    let operation = statement.operation;
    match operation.terminal {
        Terminal::GetElementPtr => Ok(Some(scope.element(alloc, 2, &mut phrases)?)),
        Terminal::Alloca => Ok(Some(scope.alloca(alloc, 2, &mut phrases)?)),
        Terminal::Load => Ok(Some(scope.load(alloc, 2, &mut phrases)?)),
        Terminal::Store => Ok(Some(scope.store(alloc, &mut phrases)?)),
        _ => Ok(None),
    }
}

fn fourth<'m, 's>(nodes: &'m [Node<'s>]) -> Option<Item<'m, 's>> {
    let mut items = Items::new(nodes);
    let _first = items.next()?;
    let _second = items.next()?;
    let _third = items.next()?;
    items.next()
}

#[test]
fn indices_lead_into_types(rt: HostRuntime) -> Result<(), Fail> {
    let alloc = rt.alloc();
    for (text, bytes, units, cause) in PATHS {
        let module = format!(in alloc; "{BEFORE}%a = getelementptr {text}\nret void\n}}\n")?;
        assert!(rt; module.len() <= MOST_BYTES);
        let nodes = read_module(alloc, module.as_bytes())
            .expect(&rt, "a module")
            .nodes;
        let found = first_instruction(alloc, &nodes)?.expect(&rt, "an instruction");
        assert_eq!(rt; found.cause, cause, "{text}");
        let wanted = Inst::Address {
            to: 2,
            base: Operand::Register(1),
            fixed: bytes,
            scaled: counted_in(alloc, units)?,
        };
        let is_there = found.value == wanted;
        assert!(rt; is_there || cause.is_some(), "{text}");
    }
    Ok(())
}

/// The register `%n`, once for each of the units.
fn counted_in(alloc: Global, units: [u64; 2]) -> Result<List<(Operand, u64)>, NoMemory> {
    let mut scaled = Vec::new(alloc);
    for unit in units {
        if unit > 0 {
            scaled.push((Operand::Register(0), unit))?;
        }
    }
    Ok(List { items: scaled })
}

#[test]
fn expressions_spell_addresses(rt: HostRuntime) -> Result<(), Fail> {
    let alloc = rt.alloc();
    for (text, address, cause) in EXPRESSIONS {
        let module = format!(in alloc; "{BEFORE}%a = load i8, ptr {text}\nret void\n}}\n")?;
        assert!(rt; module.len() <= MOST_BYTES);
        let nodes = read_module(alloc, module.as_bytes())
            .expect(&rt, "a module")
            .nodes;
        let found = first_instruction(alloc, &nodes)?.expect(&rt, "an instruction");
        assert_eq!(rt; found.cause, cause, "{text}");
        let at = Operand::Constant(Word::truncated(Width::W64, address));
        let kind = Kind::Int(Width::W8);
        let is_there = found.value == Inst::Load { to: 2, kind, at };
        assert!(rt; is_there || cause.is_some(), "{text}");
    }
    Ok(())
}

#[test]
fn an_expression_is_no_integer(rt: HostRuntime) -> Result<(), Fail> {
    let alloc = rt.alloc();
    let module = format!(in alloc;
        "{BEFORE}store i64 inttoptr (i64 1 to ptr), ptr %p\nret void\n}}\n"
    )?;
    assert!(rt; module.len() <= MOST_BYTES);
    let nodes = read_module(alloc, module.as_bytes())
        .expect(&rt, "a module")
        .nodes;
    let found = first_instruction(alloc, &nodes)?.expect(&rt, "an instruction");
    assert_eq!(rt; found.cause, Some(TypeMismatch));
    Ok(())
}

#[test]
fn blocks_have_their_sizes_and_counts(rt: HostRuntime) -> Result<(), Fail> {
    let alloc = rt.alloc();
    for (text, unit, width, number) in BLOCKS {
        let module = format!(in alloc; "{BEFORE}%a = alloca {text}\nret void\n}}\n")?;
        assert!(rt; module.len() <= MOST_BYTES);
        let nodes = read_module(alloc, module.as_bytes())
            .expect(&rt, "a module")
            .nodes;
        let found = first_instruction(alloc, &nodes)?.expect(&rt, "an instruction");
        assert_eq!(rt; found.cause, None, "{text}");
        let count = Operand::Constant(Word::truncated(width, number));
        assert!(rt; found.value == Inst::Alloca { to: 2, unit, count });
    }
    Ok(())
}
