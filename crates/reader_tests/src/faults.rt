//! Texts with their first faults: bad tokens, words, commas, forms that break off, strings and ends.

use crate::texts::with_main;
use ir_lex::MOST_BYTES;
use ir_read::ModuleError::{self, Lexical, Syntax, Unsupported};
use ir_read::read_module;
use rc_base::Failure;
use std::test::Fail;

/// Items, the lines of a `main` behind them, and the fault.
static WITH_MAIN: [(&str, &str, ModuleError); 65] = [
    // No token begins there.
    ("@g = global i32 0.5\n", "ret i32 0", Lexical { line: 1 }),
    (
        "@g = global\ni32 \"open\n",
        "ret i32 0",
        Lexical { line: 2 },
    ),
    ("", "%x = add i32 1,\n~ ret i32 0", Lexical { line: 3 }),
    ("", "ret i32 0,\n$", Lexical { line: 3 }),
    // Words, wherever they stand.
    (
        "@g = global float 0.0\n",
        "ret i32 0",
        Unsupported { line: 1 },
    ),
    (
        "@s = global [2 x i8] c\"ab\n",
        "ret i32 0",
        Unsupported { line: 1 },
    ),
    ("%t = type i32\n", "ret i32 0", Unsupported { line: 1 }),
    ("ret i32 0\n", "ret i32 0", Unsupported { line: 1 }),
    ("", "declare i32 @f()", Unsupported { line: 2 }),
    (
        "define ptr @f(ptr %q) {\nret ptr null\n",
        "ret i32 0",
        Unsupported { line: 3 },
    ),
    ("", "br labl %a", Unsupported { line: 2 }),
    ("", "%x = trunc i64 1 too i32", Unsupported { line: 2 }),
    ("", "%x = add i32 undef, 1", Unsupported { line: 2 }),
    (
        "",
        "switch i32 1, label %a [\ni32 1, label %b\ni32 undef, label %a ]\na:\nret i32 1\nb:\nret i32 2",
        Unsupported { line: 4 },
    ),
    ("", "%x = store i32 1, ptr null", Unsupported { line: 2 }),
    ("", "%x = br label %a", Unsupported { line: 2 }),
    (
        "",
        "%x = switch i32 1, label %a [ ]",
        Unsupported { line: 2 },
    ),
    ("", "%x = ret i32 0", Unsupported { line: 2 }),
    ("", "%x = unreachable", Unsupported { line: 2 }),
    ("", "fence seq_cst", Unsupported { line: 2 }),
    (
        "",
        "%x = load atomic i32, ptr null",
        Unsupported { line: 2 },
    ),
    ("", "%x = alloca void", Unsupported { line: 2 }),
    (
        "",
        "br label %a\na:\n%x = phi i32\nret i32 0",
        Unsupported { line: 5 },
    ),
    ("", "store i32 1,\nfoo ptr null", Unsupported { line: 3 }),
    (
        "@g = global i32 0\n",
        "store i32 1 ptr @g\nret i32 0",
        Unsupported { line: 3 },
    ),
    (
        "@g = global i32 0\n",
        "store i32 1, ptr @g, foo\nret i32 0",
        Unsupported { line: 3 },
    ),
    (
        "",
        "%c = call i32 @pthread_join(i64 9, align 8 ptr null)\nret i32 0",
        Unsupported { line: 2 },
    ),
    (
        "declare void @f(..., i32)\n",
        "ret i32 0",
        Unsupported { line: 1 },
    ),
    (
        "@g = external global i32\n",
        "ret i32 0",
        Unsupported { line: 1 },
    ),
    (
        "@g = global i32 0, section \"s\"\n",
        "ret i32 0",
        Unsupported { line: 1 },
    ),
    (
        "declare void @f(i32 inreg)\n",
        "ret i32 0",
        Unsupported { line: 1 },
    ),
    (
        "declare void @f(i32 range(i32 0, 9))\n",
        "ret i32 0",
        Unsupported { line: 1 },
    ),
    (
        "declare void @f() memory(none)\n",
        "ret i32 0",
        Unsupported { line: 1 },
    ),
    (
        "@p = global i64 ptrtoint (ptr @g to i64)\n",
        "ret i32 0",
        Unsupported { line: 1 },
    ),
    (
        "@p = global ptr inttoptr (i64 1 to i64)\n",
        "ret i32 0",
        Unsupported { line: 1 },
    ),
    (
        "@p = global ptr getelementptr (i8, i64 @g)\n",
        "ret i32 0",
        Unsupported { line: 1 },
    ),
    // Commas with which nothing goes on: the fault is the token behind.
    ("", "ret i32 0,", Syntax { line: 3 }),
    ("", "ret i32 0,\n,", Syntax { line: 3 }),
    ("", "ret i32 0, *", Syntax { line: 2 }),
    ("", "ret i32 0, %x", Syntax { line: 2 }),
    ("", "%x = add i32 1,, 2\nret i32 0", Syntax { line: 2 }),
    ("", "call void @f(i32 1, )", Syntax { line: 2 }),
    (", @g = global i32 0\n", "ret i32 0", Syntax { line: 1 }),
    // Skipped forms that break off.
    (
        "@g = global i32 0, align x\n",
        "ret i32 0",
        Unsupported { line: 1 },
    ),
    (
        "declare void @f(ptr captures(address))\n",
        "ret i32 0",
        Unsupported { line: 1 },
    ),
    (
        "@g = global i32 0, !dbg\n",
        "ret i32 0",
        Unsupported { line: 2 },
    ),
    (
        "@g = global i32 0, align -4\n",
        "ret i32 0",
        Syntax { line: 1 },
    ),
    (
        "@g = global i32 0, align(8)\n",
        "ret i32 0",
        Syntax { line: 1 },
    ),
    (
        "declare void @f(ptr dereferenceable 8)\n",
        "ret i32 0",
        Syntax { line: 1 },
    ),
    ("", "ret i32 0, !dbg", Syntax { line: 3 }),
    ("", "ret i32 0, !dbg !foo", Syntax { line: 2 }),
    ("", "ret i32 0 !5", Syntax { line: 2 }),
    // Strings.
    (
        "@s = constant [1 x i8] c\"\\4\"\n",
        "ret i32 0",
        Syntax { line: 1 },
    ),
    (
        "@s = constant [3 x i8]\nc\"a\\zz\"\n",
        "ret i32 0",
        Syntax { line: 2 },
    ),
    (
        "@s = constant [1 x i8] c\"\\\"\n",
        "ret i32 0",
        Syntax { line: 1 },
    ),
    (
        "@s = constant [1 x i8] \"a\"\n",
        "ret i32 0",
        Syntax { line: 1 },
    ),
    // Other tokens that stand in no place for them.
    (
        "@h = global i32 null\n",
        "%x = add i32 1 2\nret i32 0",
        Syntax { line: 3 },
    ),
    (
        "@g = global [-1 x i8] zeroinitializer\n",
        "ret i32 0",
        Syntax { line: 1 },
    ),
    ("define i32 @f(i32 %x) [\n", "ret i32 0", Syntax { line: 1 }),
    ("a:\n", "ret i32 0", Syntax { line: 1 }),
    ("", "%x = phi i32 ]", Syntax { line: 2 }),
    ("", "%x = select i1 true, i32 2", Syntax { line: 3 }),
    ("", "%x = call i32 (i32 %y) @f(i32 1)", Syntax { line: 2 }),
    (
        "",
        "%x = getelementptr i8, ptr %p, i64 0 4",
        Syntax { line: 2 },
    ),
    ("", "ret i32 0\n}", Syntax { line: 4 }),
];

/// Whole texts, and the fault.
static WHOLE: [(&str, ModuleError); 9] = [
    // The end of the text is in its last line, whose line feed begins none.
    ("define i32 @main() {\nret i32 0", Syntax { line: 2 }),
    ("define i32 @main() {\nret i32 0\n", Syntax { line: 2 }),
    (
        "@g = global i32 0\ndefine i32 @main() {\nret i32 0\n\n; c",
        Syntax { line: 5 },
    ),
    ("%t = type {\n\n\n", Syntax { line: 3 }),
    ("@g = global i32 0, align", Syntax { line: 1 }),
    ("@g = global i32 0,\n", Syntax { line: 1 }),
    ("@v = global <", Syntax { line: 1 }),
    ("\n\ndefine i32 @", Lexical { line: 3 }),
    // Not a text at all.
    ("BCÀÞ", Unsupported { line: 1 }),
];

#[test]
fn texts_with_a_main_have_their_first_faults(rt: HostRuntime) -> Result<(), Fail> {
    for (items, lines, fault) in &WITH_MAIN {
        let text = with_main(rt.alloc(), items, lines)?;
        assert!(rt; text.len() <= MOST_BYTES);
        let found = read_module(rt.alloc(), text.as_bytes()).err();
        assert_eq!(rt; found, Some(Failure::Refused(*fault)), "{text}");
    }
    Ok(())
}

#[test]
fn whole_texts_have_their_first_faults(rt: HostRuntime) -> Result<(), Fail> {
    for (text, fault) in &WHOLE {
        assert!(rt; text.len() <= MOST_BYTES);
        let found = read_module(rt.alloc(), text.as_bytes()).err();
        assert_eq!(rt; found, Some(Failure::Refused(*fault)), "{text}");
    }
    Ok(())
}
