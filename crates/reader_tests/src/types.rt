//! Types in texts of modules: their forms, how many nodes they have, and those of the parts, worked out by hand.

use ir_lex::MOST_BYTES;
use ir_read::{Node, RawType, TypeForm, read_module};
use std::test::Fail;

/// The form of the type in front, its nodes, and the nodes of its element or of its fields.
fn shown(nodes: &[Node<'_>]) -> (TypeForm, usize, usize) {
    let (found, _) = RawType::split(nodes);
    let form = found.form();
    let inside = match form {
        TypeForm::Array { .. } => found.element().nodes().len(),
        TypeForm::Struct => found.fields().len(),
        TypeForm::Packed => found.packed_fields().len(),
        _ => 0,
    };
    (form, found.nodes().len(), inside)
}

#[test]
fn types_have_their_parts(rt: HostRuntime) -> Result<(), Fail> {
    let cases = [
        ("i1", (TypeForm::Int { bits: 1 }, 1, 0)),
        ("i16", (TypeForm::Int { bits: 16 }, 1, 0)),
        ("i64", (TypeForm::Int { bits: 64 }, 1, 0)),
        ("ptr", (TypeForm::Ptr, 1, 0)),
        ("%\"a b\"", (TypeForm::Named, 1, 0)),
        (
            "[ 007 x { i8 , i8 } ]",
            (TypeForm::Array { count: 7 }, 8, 4),
        ),
        ("{ }", (TypeForm::Struct, 2, 0)),
        (
            "{ i8 , [ 2 x ptr ] , <{ i8 }> , i32 }",
            (TypeForm::Struct, 14, 12),
        ),
        ("<{ { } , i32 }>", (TypeForm::Packed, 7, 3)),
    ];
    for (text, wanted) in cases {
        let module = format!(in rt.alloc(); "@g = global {text} zeroinitializer")?;
        assert!(rt; module.len() <= MOST_BYTES);
        let found = read_module(rt.alloc(), module.as_bytes()).expect(&rt, "a module");
        assert!(rt; found.nodes.len() > 3);
        // `@g`, `=` and `global` come before the type
        let nodes = &found.nodes[3..];
        assert_eq!(rt; shown(nodes), wanted, "{text}");
    }
    Ok(())
}
