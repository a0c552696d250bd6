//! Tokens that show a form which is left out, and the same tokens elsewhere, where they show none.

use crate::texts::with_main;
use ir_lex::MOST_BYTES;
use ir_read::ModuleError::{self, Syntax, Unsupported};
use ir_read::read_module;
use rc_base::Failure;
use std::test::Fail;

/// Items, the lines of a `main` behind them, and the fault.
static MARKS: [(&str, &str, ModuleError); 60] = [
    // An asterisk behind a type, skipped words aside, and elsewhere.
    (
        "@h = global i32* null\n",
        "ret i32 0",
        Unsupported { line: 1 },
    ),
    (
        "declare void @f(ptr noundef *)\n",
        "ret i32 0",
        Unsupported { line: 1 },
    ),
    ("declare void* @f()\n", "ret i32 0", Unsupported { line: 1 }),
    (
        "define i32* @f() {\n}\n",
        "ret i32 0",
        Unsupported { line: 1 },
    ),
    ("%t = type { %u* }\n", "ret i32 0", Unsupported { line: 1 }),
    ("", "%x = load i32 * %p\nret i32 0", Unsupported { line: 2 }),
    ("", "%x = alloca [2 x i8]*", Unsupported { line: 2 }),
    ("", "%x = alloca { i8 }*", Unsupported { line: 2 }),
    ("", "%x = alloca <{ i8 }>*", Unsupported { line: 2 }),
    (
        "",
        "%x = call i32 (ptr, ...)* @f(ptr null)",
        Unsupported { line: 2 },
    ),
    ("%t = type <{ i8 }*>\n", "ret i32 0", Syntax { line: 1 }),
    ("", "%x = add i32 2 * 3\nret i32 0", Syntax { line: 2 }),
    ("", "%x = load i32, * %p", Syntax { line: 2 }),
    // Numbers of 65 bits, where a number may stand, and elsewhere.
    (
        "@g = global i64 18446744073709551616\n",
        "ret i32 0",
        Unsupported { line: 1 },
    ),
    (
        "@g = global [18446744073709551616 x i8] zeroinitializer\n",
        "ret i32 0",
        Unsupported { line: 1 },
    ),
    (
        "@g = global [2 x i64] [i64 1, i64 18446744073709551616]\n",
        "ret i32 0",
        Unsupported { line: 1 },
    ),
    (
        "@g = global i32 0, align 18446744073709551616\n",
        "ret i32 0",
        Unsupported { line: 1 },
    ),
    (
        "declare void @f(ptr dereferenceable(18446744073709551616))\n",
        "ret i32 0",
        Unsupported { line: 1 },
    ),
    (
        "@p = global ptr inttoptr (i64 -18446744073709551616 to ptr)\n",
        "ret i32 0",
        Unsupported { line: 1 },
    ),
    (
        "@p = global ptr getelementptr (i8, ptr @g, i64 18446744073709551616)\n",
        "ret i32 0",
        Unsupported { line: 1 },
    ),
    (
        "",
        "%x = add i64 -18446744073709551616, 0",
        Unsupported { line: 2 },
    ),
    (
        "",
        "switch i64 1, label %a [ i64 18446744073709551616, label %a ]",
        Unsupported { line: 2 },
    ),
    (
        "@g = global [-18446744073709551616 x i8] zeroinitializer\n",
        "ret i32 0",
        Syntax { line: 1 },
    ),
    (
        "@g = global i32 0, align -18446744073709551616\n",
        "ret i32 0",
        Syntax { line: 1 },
    ),
    (
        "",
        "store 18446744073709551616, ptr null",
        Syntax { line: 2 },
    ),
    ("", "ret i32 0, 18446744073709551616", Syntax { line: 2 }),
    // Other types where a register's type stands, and names where a literal or a name stands.
    ("declare %t @f()\n", "ret i32 0", Unsupported { line: 1 }),
    (
        "declare void @f([2 x i8])\n",
        "ret i32 0",
        Unsupported { line: 1 },
    ),
    (
        "define <2 x i32> @f() {\n}\n",
        "ret i32 0",
        Unsupported { line: 1 },
    ),
    (
        "define void @f({ i8 } %x) {\n}\n",
        "ret i32 0",
        Unsupported { line: 1 },
    ),
    ("", "ret { i32 } zeroinitializer", Unsupported { line: 2 }),
    ("", "ret %t %x", Unsupported { line: 2 }),
    ("", "%x = load [2 x i8], ptr %p", Unsupported { line: 2 }),
    (
        "",
        "store %t zeroinitializer, ptr null",
        Unsupported { line: 2 },
    ),
    ("", "%x = call { i64, i64 } @f()", Unsupported { line: 2 }),
    ("", "%x = call i32 ({ i32 }) @f()", Unsupported { line: 2 }),
    ("", "br %c, label %a, label %b", Unsupported { line: 2 }),
    (
        "",
        "switch i32 1, label %a [ %x, label %a ]",
        Unsupported { line: 2 },
    ),
    ("", "%x = phi [ 0, %a ]", Unsupported { line: 2 }),
    ("", "%x = add %y, 1\nret i32 0", Unsupported { line: 2 }),
    ("", "%x = trunc i64 1 to <2 x i8>", Unsupported { line: 2 }),
    ("", "%x = alloca i8, [2 x i8] 0", Unsupported { line: 2 }),
    (
        "",
        "switch i32 1, label %a [ i32 %x, label %a ]",
        Syntax { line: 2 },
    ),
    (
        "@p = global ptr getelementptr (i8, ptr %p)\n",
        "ret i32 0",
        Syntax { line: 1 },
    ),
    (
        "@p = global ptr getelementptr (i8, ptr @g, i64 @h)\n",
        "ret i32 0",
        Syntax { line: 1 },
    ),
    (
        "@p = global ptr inttoptr (i64 @g to ptr)\n",
        "ret i32 0",
        Syntax { line: 1 },
    ),
    ("%t = type [2 x i32]\n", "ret i32 0", Syntax { line: 1 }),
    // What follows the mark of a packed struct.
    (
        "@v = global <4 x i32> zeroinitializer\n",
        "ret i32 0",
        Unsupported { line: 1 },
    ),
    (
        "@v = global <\n4 x i32> zeroinitializer\n",
        "ret i32 0",
        Unsupported { line: 2 },
    ),
    (
        "@v = global i32 <4>\n",
        "ret i32 0",
        Unsupported { line: 1 },
    ),
    (
        "%t = type <[2 x i8]>\n",
        "ret i32 0",
        Unsupported { line: 1 },
    ),
    ("", "%x = alloca <%t>", Unsupported { line: 2 }),
    // Calls of registers, and further arguments.
    ("", "%x = call i32 %f(i32 1)", Unsupported { line: 2 }),
    ("", "%x = call i32 (i32) %f(i32 1)", Unsupported { line: 2 }),
    (
        "define void @f(...) {\n}\n",
        "ret i32 0",
        Unsupported { line: 1 },
    ),
    (
        "define void @f(ptr %q, ...) {\n}\n",
        "ret i32 0",
        Unsupported { line: 1 },
    ),
    (
        "declare void @f(i32 ...)\n",
        "ret i32 0",
        Syntax { line: 1 },
    ),
    ("", "%x = call i32 @f(ptr null, ...)", Syntax { line: 2 }),
    // Quoted names of functions.
    (
        "define i32 @\"a/b\"() {\n}\n",
        "ret i32 0",
        Unsupported { line: 1 },
    ),
    (
        "define i32 @\"\"() {\n}\n",
        "ret i32 0",
        Unsupported { line: 1 },
    ),
];

#[test]
fn marks_show_forms_that_are_left_out(rt: HostRuntime) -> Result<(), Fail> {
    for (items, lines, fault) in &MARKS {
        let text = with_main(rt.alloc(), items, lines)?;
        assert!(rt; text.len() <= MOST_BYTES);
        let found = read_module(rt.alloc(), text.as_bytes()).err();
        assert_eq!(rt; found, Some(Failure::Refused(*fault)), "{text}");
    }
    Ok(())
}
