//! Texts of modules, with the first fault of their names and shapes, and what the names of one stand for.

use crate::texts::with_main;
use external_calls::ExternalCall;
use instruction_check::{GlobalRole, LocalRole};
use ir_items::{Item, Items};
use ir_lex::MOST_BYTES;
use ir_read::{Node, read_module};
use ir_types::{Kind, Width};
use module_check::{check_names, main_of, name_body, name_items};
use module_fault::Cause::{BadShape, Duplicate};
use module_fault::{Cause, Fault};
use std::test::Fail;

/// Whole texts, and the line and cause of their first fault.
static WHOLE: [(&str, Option<(u32, Cause)>); 27] = [
    // `main`: that there is none has no line.
    ("", Some((0, BadShape))),
    ("declare i32 @main()", Some((0, BadShape))),
    ("@main = global i32 0", Some((0, BadShape))),
    ("@g = global i32 0\n@g = global i32 0", Some((2, Duplicate))),
    ("define i32 @main() {\nret i32 0\n}", None),
    ("define i32 @\"main\"(i32 %n, ptr) {\nret i32 0\n}", None),
    ("\ndefine void @main() {\nret void\n}", Some((2, BadShape))),
    ("define i64 @main() {\nret i64 0\n}", Some((1, BadShape))),
    ("define i32 @main(i32) {\nret i32 0\n}", Some((1, BadShape))),
    (
        "define i32 @main(ptr, i32) {\nret i32 0\n}",
        Some((1, BadShape)),
    ),
    (
        "define i32 @main(i32, ptr, ptr) {\nret i32 0\n}",
        Some((1, BadShape)),
    ),
    // Of two the first counts.
    (
        "define i32 @main() {\nret i32 0\n}\ndefine void @main() {\nret void\n}",
        Some((4, Duplicate)),
    ),
    (
        "define void @main() {\nret void\n}\ndefine i32 @main() {\nret i32 0\n}",
        Some((1, BadShape)),
    ),
    (
        "declare i32 @main()\ndefine i32 @main() {\nret i32 0\n}",
        Some((2, Duplicate)),
    ),
    // Globals, functions and declarations share one space of names, and structs have their own.
    (
        "@g = global i32 0\ndefine i32 @main() {\nret i32 0\n}\ndeclare void @g()",
        Some((5, Duplicate)),
    ),
    (
        "declare i32 @puts(ptr)\ndeclare i32 @puts(ptr)\ndefine i32 @main() {\nret i32 0\n}",
        Some((2, Duplicate)),
    ),
    (
        "@\"g\" = global i32 0\n@g = global i32 0\ndefine i32 @main() {\nret i32 0\n}",
        Some((2, Duplicate)),
    ),
    (
        "%g = type { i32 }\n@g = global i32 0\ndefine i32 @main() {\nret i32 0\n}",
        None,
    ),
    // Arguments share a space with the first block and with results.
    (
        "define i32 @main(i32 %p, ptr %p) {\nret i32 0\n}",
        Some((1, Duplicate)),
    ),
    (
        "define i32 @main(i32 %0, ptr %0) {\nret i32 0\n}",
        Some((1, Duplicate)),
    ),
    (
        "define i32 @main(i32 %5, ptr %3) {\nret i32 0\n}",
        Some((1, BadShape)),
    ),
    (
        "define i32 @main(i32, ptr %1) {\n%3 = add i32 1, 2\nret i32 0\n}",
        None,
    ),
    (
        "define i32 @main(i32, ptr %1) {\n%2 = add i32 1, 2\nret i32 0\n}",
        Some((2, Duplicate)),
    ),
    (
        "define i32 @main(i32, ptr) {\n2:\nbr label %3\n3:\nret i32 0\n}",
        None,
    ),
    // A body without an instruction, before and behind other faults.
    (
        "define void @f() {\n}\n@g = global i32 0\n@g = global i32 0",
        Some((1, BadShape)),
    ),
    (
        "@g = global i32 0\n@g = global i32 0\ndefine void @f() {\n}",
        Some((2, Duplicate)),
    ),
    (
        "declare void @f()\ndefine void @f() {\n}",
        Some((2, Duplicate)),
    ),
];

/// Bodies of `main`, whose first line is the second one.
static BODIES: [(&str, Option<(u32, Cause)>); 45] = [
    // Numbers: the first block has 0.
    ("%1 = add i32 1, 2\nret i32 0", None),
    ("%0 = add i32 1, 2\nret i32 0", Some((2, Duplicate))),
    (
        "%5 = add i32 1, 2\n%3 = add i32 1, 2\nret i32 0",
        Some((3, BadShape)),
    ),
    (
        "%5 = add i32 1, 2\n%5 = add i32 1, 2\nret i32 0",
        Some((3, Duplicate)),
    ),
    (
        "%5 = add i32 1, 2\nadd i32 1, 2\n%6 = add i32 1, 2\nret i32 0",
        Some((4, Duplicate)),
    ),
    (
        "%01 = add i32 1, 2\n%1 = add i32 1, 2\nret i32 0",
        Some((3, Duplicate)),
    ),
    ("%1 = add i32 1, 2\n%\"1\" = add i32 1, 2\nret i32 0", None),
    (
        "%18446744073709551616 = add i32 1, 2\n%18446744073709551615 = add i32 1, 2\nret i32 0",
        Some((3, BadShape)),
    ),
    (
        "call i32 @putchar(i32 65)\n%1 = add i32 1, 2\nret i32 0",
        Some((3, Duplicate)),
    ),
    (
        "call void @free(ptr null)\nstore i32 1, ptr @g\n%1 = add i32 1, 2\nret i32 0",
        None,
    ),
    ("alloca i32\n%2 = add i32 1, 2\nret i32 0", None),
    ("br label %0\n0:\nret i32 0", Some((3, Duplicate))),
    ("0:\n%1 = add i32 1, 2\nret i32 0", None),
    ("5:\nbr label %3\n3:\nret i32 0", Some((4, BadShape))),
    // Names.
    (
        "%a = add i32 1, 2\n%a = add i32 1, 2\nret i32 0",
        Some((3, Duplicate)),
    ),
    (
        "%v = call void @free(ptr null)\n%v = add i32 1, 2\nret i32 0",
        Some((3, Duplicate)),
    ),
    (
        "%a = add i32 1, 2\nbr label %a\na:\nret i32 0",
        Some((4, Duplicate)),
    ),
    (
        "br label %a\na:\nret i32 0\n\"a\":\nret i32 0",
        Some((5, Duplicate)),
    ),
    // Blocks end with what ends one, and have none before.
    ("a:\nret i32 0", None),
    ("unreachable", None),
    ("%a = add i32 1, 2", Some((2, BadShape))),
    ("%x = add i32 1, 2\na:\nret i32 0", Some((2, BadShape))),
    ("ret i32 0\n%a = add i32 1, 2", Some((3, BadShape))),
    (
        "ret i32 0\n%a = add i32 1, 2\nret i32 0",
        Some((4, BadShape)),
    ),
    ("br label %a\na:", Some((3, BadShape))),
    ("br label %a\na:\nb:\nret i32 0", Some((3, BadShape))),
    (
        "ret i32 0\nswitch i32 1, label %a [\n]\na:",
        Some((3, BadShape)),
    ),
    (
        "switch i32 1, label %a [\n]\n%x = add i32 1, 2\na:\nret i32 0",
        Some((4, BadShape)),
    ),
    // In one line the lesser cause.
    (
        "ret i32 0\n%a = add i32 1, 2\n%a = add i32 1, 2",
        Some((4, Duplicate)),
    ),
    // Phis stand at the front of their block.
    (
        "br label %a\na:\n%p = phi i32 [ 0, %0 ]\n%q = phi i32 [ 1, %0 ]\nret i32 0",
        None,
    ),
    (
        "br label %a\na:\n%x = add i32 1, 2\n%p = phi i32 [ 0, %0 ]\nret i32 0",
        Some((5, BadShape)),
    ),
    (
        "ret i32 0\na:\nret i32 0\n%p = phi i32 [ 0, %a ]",
        Some((5, BadShape)),
    ),
    // And have an edge from each block that leads there.
    (
        "br i1 true, label %a, label %b\na:\nbr label %b\nb:\n%p = phi i32 [ 0, %a ]\nret i32 0",
        Some((6, BadShape)),
    ),
    (
        "br i1 true, label %a, label %b\na:\nbr label %b\nb:\n%p = phi i32 [ 0, %a ], [ 1, %0 ]\nret i32 0",
        None,
    ),
    (
        "br label %b\na:\nret i32 0\nb:\n%p = phi i32 [ 0, %0 ], [ 1, %a ]\nret i32 0",
        None,
    ),
    (
        "switch i32 1, label %a [\ni32 0, label %a\n]\na:\n%p = phi i32 [ 0, %0 ]\nret i32 0",
        None,
    ),
    (
        "switch i32 1, label %a [\ni32 0, label %b\n]\na:\nret i32 0\nb:\n%p = phi i32 [ 0, %a ]\nret i32 0",
        Some((8, BadShape)),
    ),
    (
        "br label %a\na:\n%p = phi i32 [ 0, %0 ]\nbr label %a",
        Some((4, BadShape)),
    ),
    (
        "br label %a\na:\n%p = phi i32 [ 0, %0 ], [ %p, %a ], [ 1, %a ]\nbr label %a",
        None,
    ),
    ("%p = phi i32 [ 0, %0 ]\nbr label %0", None),
    (
        "%p = phi i32 [ 0, %a ]\nbr label %0\na:\nret i32 0",
        Some((2, BadShape)),
    ),
    (
        "a:\nbr label %b\nb:\n%p = phi i32 [ 0, %a ]\nret i32 0",
        None,
    ),
    (
        "a:\nbr label %b\nb:\n%p = phi i32 [ 0, %b ]\nret i32 0",
        Some((5, BadShape)),
    ),
    // A name that stands for no block leads nowhere, and is a fault of its own.
    (
        "%x = add i32 1, 2\nbr label %x\na:\n%p = phi i32 [ 0, %none ]\nret i32 0",
        None,
    ),
    // What doesn't stand at the end of its block leads nowhere.
    (
        "br label %a\na:\n%p = phi i32 [ 0, %0 ]\nret i32 0\nb:\nbr label %a\nret i32 0",
        Some((8, BadShape)),
    ),
];

#[test]
fn texts_have_their_first_faults_of_names_and_shapes(rt: HostRuntime) -> Result<(), Fail> {
    let alloc = rt.alloc();
    for (text, expected) in WHOLE {
        assert!(rt; text.len() <= MOST_BYTES);
        let Ok(found) = read_module(alloc, text.as_bytes()) else {
            return Err(Fail::new("a text is refused"));
        };
        let fault = check_names(alloc, &found.nodes)?;
        assert_eq!(rt; shown(fault), expected, "{text}");
    }
    Ok(())
}

#[test]
fn bodies_have_their_first_faults_of_names_and_shapes(rt: HostRuntime) -> Result<(), Fail> {
    let alloc = rt.alloc();
    for (lines, expected) in BODIES {
        let text = with_main(alloc, "", lines)?;
        assert!(rt; text.len() <= MOST_BYTES);
        let Ok(found) = read_module(alloc, text.as_bytes()) else {
            return Err(Fail::new("a text is refused"));
        };
        let fault = check_names(alloc, &found.nodes)?;
        assert_eq!(rt; shown(fault), expected, "{text}");
    }
    Ok(())
}

fn shown(fault: Option<Fault>) -> Option<(u32, Cause)> {
    match fault {
        Some(fault) => Some((fault.line, fault.cause)),
        None => None,
    }
}

const NAMED: &str = "declare i32 @putchar(i32)
declare i32 @other(i32)
define i32 @printf(i32 %a) {
  ret i32 0
}
define ptr @f(ptr, i8 %n) {
  %x = call i32 @putchar(i32 1)
  %y = call i32 (i32) @putchar(i32 1)
  %z = call i32 @printf(i32 1)
  call i32 @other(i32 1)
  %v = call void @free(ptr null)
  br label %end
end:
  %q = icmp eq i32 %z, 0
  ret ptr null
}
@g = global i32 0
@k = global i32 0
define i32 @main() {
  ret i32 0
}
";

const I32: Kind = Kind::Int(Width::W32);

fn register(number: u32, kind: Kind, is_output: bool) -> LocalRole {
    LocalRole::Register {
        number,
        kind,
        is_output,
    }
}

#[test]
fn names_stand_for_what_is_numbered_in_the_order_of_the_text(rt: HostRuntime) -> Result<(), Fail> {
    let alloc = rt.alloc();
    let Ok(found) = read_module(alloc, NAMED.as_bytes()) else {
        return Err(Fail::new("a text is refused"));
    };
    let named = name_items(alloc, &found.nodes)?;
    let roles = [
        GlobalRole::Declared(Some(ExternalCall::Putchar)),
        GlobalRole::Declared(None),
        GlobalRole::Function(0),
        GlobalRole::Function(1),
        GlobalRole::Global(0),
        GlobalRole::Global(1),
        GlobalRole::Function(2),
    ];
    assert!(rt; named.names.roles.as_slice() == roles.as_slice());
    assert_eq!(rt; main_of(&named.names), Some(2));
    let Some(item) = fourth(&found.nodes) else {
        return Err(Fail::new("an item is lacking"));
    };
    let body = name_body(alloc, &named.names, &item)?;
    let roles = [
        register(0, Kind::Ptr, false),
        register(1, Kind::Int(Width::W8), false),
        LocalRole::Block(0),
        register(2, I32, true),
        register(3, I32, true),
        register(4, I32, false),
        register(5, I32, false),
        LocalRole::Void,
        LocalRole::Block(1),
        register(6, Kind::Int(Width::W1), false),
    ];
    assert!(rt; body.names.roles.as_slice() == roles.as_slice());
    assert_eq!(rt; body.blocks, 2);
    Ok(())
}

fn fourth<'m, 's>(nodes: &'m [Node<'s>]) -> Option<Item<'m, 's>> {
    let mut items = Items::new(nodes);
    let _first = items.next()?;
    let _second = items.next()?;
    let _third = items.next()?;
    items.next()
}
