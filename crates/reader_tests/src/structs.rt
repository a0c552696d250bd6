//! Texts of modules with the first fault of their structs, and what structs take and where their fields lie, by the layout
//! rules of the LLVM Language Reference, worked out by hand.

use ir_layout::{Overflow, Structs};
use ir_lex::MOST_BYTES;
use ir_read::read_module;
use module_fault::Cause::{BadShape, Duplicate, UnknownName};
use module_fault::{Cause, Fault};
use std::test::Fail;
use struct_table::{StructTable, struct_fault};

static FAULTS: [(&str, Option<(u32, Cause)>); 21] = [
    ("", None),
    ("%a = type { i32, ptr }", None),
    ("%a = type { %b }\n%b = type { i32 }", None),
    ("%a = type { %b, [2 x %b] }\n%b = type <{ }>", None),
    // Structs have names of their own.
    ("@a = global i32 0\n%a = type { i32 }", None),
    ("%a = type { i32 }\n%a = type { i32 }", Some((2, Duplicate))),
    (
        "%a = type { i32 }\n%\"a\" = type { %b }",
        Some((2, UnknownName)),
    ),
    ("%a = type { %b }", Some((1, UnknownName))),
    (
        "%a = type { %b }\n%b = type { [0 x <{ i8, %c }>] }",
        Some((2, UnknownName)),
    ),
    // Circles.
    ("%a = type { %a }", Some((1, BadShape))),
    ("%a = type { ptr, [0 x %a] }", Some((1, BadShape))),
    ("%a = type <{ { i8, { %a } } }>", Some((1, BadShape))),
    ("%a = type { %b }\n%b = type { %a }", Some((1, BadShape))),
    (
        "%a = type { %b }\n%b = type { %c }\n%c = type { i8, %b }",
        Some((2, BadShape)),
    ),
    (
        "%c = type { i8, %b }\n%b = type { %c }\n%a = type { %b }",
        Some((1, BadShape)),
    ),
    (
        "%a = type { %b, %c }\n%b = type { i8 }\n%c = type { %d }\n%d = type { %e }\n%e = type { %b, %d }",
        Some((4, BadShape)),
    ),
    (
        "%a = type { %b, %b, %c }\n%b = type { %c }\n%c = type { i8 }",
        None,
    ),
    // Only the first definition counts.
    ("%a = type { i8 }\n%a = type { %a }", Some((2, Duplicate))),
    ("%a = type { %a }\n%a = type { i8 }", Some((1, BadShape))),
    // Of several faults the first is answered.
    (
        "%a = type { %b }\n%b = type { %b }\n%c = type { %d }",
        Some((2, BadShape)),
    ),
    ("%a = type { %a, %b }", Some((1, UnknownName))),
];

#[test]
fn faults_are_found(rt: HostRuntime) -> Result<(), Fail> {
    for (text, wanted) in FAULTS {
        assert!(rt; text.len() <= MOST_BYTES);
        let module = read_module(rt.alloc(), text.as_bytes()).expect(&rt, "a module");
        let table = StructTable::of(rt.alloc(), module.nodes.as_slice())?;
        let found = struct_fault(rt.alloc(), module.nodes.as_slice(), &table)?;
        let wanted = wanted.map(|(line, cause)| Fault { line, cause });
        assert_eq!(rt; found, wanted, "{text}");
    }
    Ok(())
}

#[test]
fn structs_take_their_bytes(rt: HostRuntime) -> Result<(), Fail> {
    let text =
        "%s = type { i8, %t, [2 x i16] }\n%t = type <{ i32, i8 }>\n%u = type { i8, %s, i64 }\n%v = type { %u, %none }\n%w = type { i8, %v, i16 }\n%t = type { i64 }";
    assert!(rt; text.len() <= MOST_BYTES);
    let module = read_module(rt.alloc(), text.as_bytes()).expect(&rt, "a module");
    let table = StructTable::of(rt.alloc(), module.nodes.as_slice())?;
    let sizes = [
        ("s", 10, 2),
        ("t", 5, 1),
        ("u", 24, 8),
        // Where no layout is known it counts as a struct without fields.
        ("v", 0, 1),
        ("w", 0, 1),
        ("none", 0, 1),
    ];
    for (name, size, align) in sizes {
        let extent = table.extent(Overflow::Wrapping, name.as_bytes());
        assert_eq!(rt; (extent.size, extent.align), (size, align), "{name}");
        let extent = table.extent(Overflow::Saturating, name.as_bytes());
        assert_eq!(rt; (extent.size, extent.align), (size, align), "{name}");
    }
    let places = [
        ("s", 0, Some((0, 1))),
        ("s", 1, Some((1, 1))),
        ("s", 2, Some((6, 5))),
        ("s", 3, None),
        ("t", 1, Some((4, 1))),
        ("u", 1, Some((2, 1))),
        ("u", 2, Some((16, 1))),
        ("none", 0, None),
    ];
    for (name, index, wanted) in places {
        let found = table.member_named(name.as_bytes(), index);
        let found = found.map(|member| (member.place, member.nodes.len()));
        assert_eq!(rt; found, wanted, "{name} {index}");
    }
    Ok(())
}

/// Each struct holds the next one, and the last one the one in the middle; and the same from the last to the first.
#[test]
fn long_chains_are_searched_once(rt: HostRuntime) -> Result<(), Fail> {
    let most: u32 = 2_000;
    let mut rising = String::new(rt.alloc());
    let mut falling = String::new(rt.alloc());
    for number in 0..most {
        let next = if number + 1 < most {
            number + 1
        } else {
            most / 2
        };
        let line = format!(in rt.alloc(); "%s{number} = type {{ %s{next} }}\n")?;
        rising.push_str(line.as_str())?;
        let last = most - 1 - number;
        let next = if last + 1 < most { last + 1 } else { most / 2 };
        let line = format!(in rt.alloc(); "%s{last} = type {{ %s{next} }}\n")?;
        falling.push_str(line.as_str())?;
    }
    for (text, line) in [(rising.as_str(), most / 2 + 1), (falling.as_str(), 1)] {
        assert!(rt; text.len() <= MOST_BYTES);
        let module = read_module(rt.alloc(), text.as_bytes()).expect(&rt, "a module");
        let table = StructTable::of(rt.alloc(), module.nodes.as_slice())?;
        let found = struct_fault(rt.alloc(), module.nodes.as_slice(), &table)?;
        assert_eq!(rt;
            found,
            Some(Fault {
                line,
                cause: BadShape
            })
        );
    }
    Ok(())
}
