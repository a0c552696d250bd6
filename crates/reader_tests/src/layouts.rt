//! What types in texts of modules take in memory, by the layout rules of the LLVM Language Reference, worked out by hand.

use ir_layout::{Extent, Overflow, Structs, extent_of};
use ir_lex::MOST_BYTES;
use ir_read::{RawType, read_module};
use std::test::Fail;

/// Each named struct takes 12 bytes, aligned to 4.
#[derive(Drop)]
struct Twelve;

impl Structs for Twelve {
    ghost use Rattle.ir_layout.specs.Extent.{extent};

    ghost extents = { λ structs overflow name. extent 12 4 };

    fn extent(&self, _overflow: Overflow, _name: &[u8]) -> Extent {
        Extent { size: 12, align: 4 }
    }
}

#[test]
fn types_take_their_bytes(rt: HostRuntime) -> Result<(), Fail> {
    let most = u64::MAX;
    let cases = [
        ("i1", 1, 1, 1),
        ("i16", 2, 2, 2),
        ("i64", 8, 8, 8),
        ("ptr", 8, 8, 8),
        ("{ }", 0, 0, 1),
        ("{ i8, i32 }", 8, 8, 4),
        ("{ i32, i8 }", 8, 8, 4),
        ("<{ i8, i32 }>", 5, 5, 1),
        ("[3 x { i8, i16 }]", 12, 12, 2),
        ("{ i8, [2 x ptr], <{ i8, i64 }>, i1 }", 40, 40, 8),
        ("<{ { i8, i64 }, i8 }>", 17, 17, 1),
        ("[0 x i64]", 0, 0, 8),
        ("{ i8, %p }", 16, 16, 4),
        ("[4294967296 x [4294967296 x i8]]", most, 0, 1),
        ("[4294967296 x [4294967297 x i16]]", most, 8589934592, 2),
    ];
    for (text, cut, wrapped, align) in cases {
        let module = format!(in rt.alloc(); "@g = global {text} zeroinitializer")?;
        assert!(rt; module.len() <= MOST_BYTES);
        let found = read_module(rt.alloc(), module.as_bytes()).expect(&rt, "a module");
        assert!(rt; found.nodes.len() > 3);
        // `@g`, `=` and `global` come before the type
        let (raw, _) = RawType::split(&found.nodes[3..]);
        let saturating = extent_of(rt.alloc(), Overflow::Saturating, &Twelve, raw.nodes())?;
        assert_eq!(rt; (saturating.size, saturating.align), (cut, align), "{text}");
        let wrapping = extent_of(rt.alloc(), Overflow::Wrapping, &Twelve, raw.nodes())?;
        assert_eq!(rt; (wrapping.size, wrapping.align), (wrapped, align), "{text}");
    }
    Ok(())
}
