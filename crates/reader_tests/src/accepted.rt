//! Texts that are read without a refusal, each with the number of its nodes, worked out by hand: its tokens, but for
//! commas and for what is skipped. What is wrong with some of them is no fault of their tokens.

use crate::texts::with_main;
use ir_lex::MOST_BYTES;
use ir_read::read_module;
use std::test::Fail;

/// Items, the lines of a `main` behind them, and the number of nodes.
static WITH_MAIN: [(&str, &str, usize); 43] = [
    // What no check refuses.
    ("", "ret i32 0 ; \"open", 10),
    (
        "@g = global i32 0\n",
        "store i32 1,\n!x 2\nptr @g\nret i32 0",
        20,
    ),
    (
        "",
        "%c = call i32 @pthread_join(i64 9, , align 8 ptr null)\nret i32 0",
        21,
    ),
    (
        "",
        "%x = add i32 -18446744073709551551, 0\n%y = call i32 @putchar(i32 %x)\nret i32 0",
        25,
    ),
    (
        "",
        "add i32 64, 1\ncall i32 @putchar(i32 %1)\nret i32 0",
        21,
    ),
    (
        "declare i64 @putchar(i8, i8)\n",
        "%x = call i32 @putchar(i32 65)\nret i32 0",
        26,
    ),
    (
        "@k = constant i32 0\n",
        "store i32 1, ptr @k\nret i32 0",
        20,
    ),
    ("", "%x = sub i32 1, 2\nret i32 0", 16),
    (
        "define ptr @f(ptr %q) {\nf:\nret ptr %q\n}\n",
        "ret i32 0",
        23,
    ),
    ("@s = constant [5 x i8] c\"a\\\\5C\\00\"\n", "ret i32 0", 19),
    (
        "",
        "%x = add i32 00000000000000000000000000000001, 18446744073709551615\nret i32 0",
        16,
    ),
    (
        "",
        "br label %4\n4:\nbr label %\"a b\"\n\"a b\": br label %x-1\nx-1: ret i32 0",
        22,
    ),
    (
        "%t = type { i32, <{ ptr, [3 x %u] }> }\n%u = type <{}>\n%v = type {}\n",
        "ret i32 0",
        38,
    ),
    // Every skipped word, and the other skipped forms.
    (
        "private internal common dso_local unnamed_addr local_unnamed_addr hidden @g = global i32 0\n",
        "tail notail volatile inbounds nusw nuw nsw exact disjoint nneg samesign ret i32 0",
        15,
    ),
    (
        "declare noundef signext zeroext noalias nonnull i32 @f(ptr nocapture readonly writeonly readnone returned immarg) nounwind noinline optnone uwtable noreturn mustprogress nofree nosync willreturn cold\n",
        "ret i32 0",
        16,
    ),
    (
        "declare !callback !1 i32 @f(ptr captures(none) dereferenceable(18446744073709551615) align 8) #1\n",
        "%x = private add i32 1, 2, !dbg !5\nret i32 0",
        22,
    ),
    (
        "@g = global i32 0\n",
        "store i32 1, align 4, ptr @g, align 4, !dbg !5\nret i32 0",
        20,
    ),
    // Names that nothing defines, and names that are given twice.
    ("", "br label %target\ntarget:\nret i32 0", 13),
    ("%a = type { %b, %a }\n", "ret i32 0", 17),
    ("", "%x = add i32 1, 2\n%x = add i32 null, 1\nret i32 0", 22),
    (
        "",
        "call i32 @putchar(i32 65)\n%1 = add i32 1, 1\nret i32 0",
        23,
    ),
    ("@g = global i32 0\n@g = global i32 0\n", "ret i32 0", 20),
    (
        "declare void @f(i32 %x, ptr %x)\n",
        "%x = call i32 @g(ptr @f)\nret i32 0",
        28,
    ),
    // Types and literals that don't fit.
    (
        "",
        "%l = load i32, ptr @zz\n%m = add i64 %l, 1\nret i32 0",
        22,
    ),
    (
        "@g = global i32 0\n",
        "%x = add i32 null, 1\n%y = add i32 %no, 1\nret i32 0",
        27,
    ),
    (
        "",
        "%y = add i32 1, 1\n%x = phi i64 [ null, %0 ]\nret i32 0",
        24,
    ),
    (
        "",
        "switch i32 1, label %a [\ni32 1, label %b\ni64 2, label %a ]\na:\nret i32 1\nb:\nret i32 2",
        30,
    ),
    ("", "%x = sub i32 1, 2\nret i64 0", 16),
    (
        "",
        "%x = load i32, i64 %p\nbr i32 %x, label %a, label %a\na:\n%y = select i8 1, ptr 2, i1 null\nret ptr true",
        33,
    ),
    (
        "",
        "%x = mul ptr c\"a\", zeroinitializer\nswitch ptr %x, label %a [ ]\na:\n%y = getelementptr i8, i32 1, ptr null\nret void",
        31,
    ),
    (
        "",
        "%x = call void @f()\n%y = ptrtoint i32 1 to ptr\n%z = getelementptr i8, ptr %y\nret i32 0",
        30,
    ),
    (
        "@a = global i32 [i8 1, ptr null]\n@b = global ptr { i8 1 }\n@c = global [2 x i8] <{}>\n@d = global {} []\n",
        "ret i32 0",
        47,
    ),
    // Calls, and uses of results, that are left out.
    (
        "",
        "%y = add i32 %x, 1\n%x = call i32 @putchar(i32 65)\nret i32 0",
        25,
    ),
    (
        "declare i32 @getchar(i8)\n",
        "%x = call i64 @getchar(ptr null)\nret i32 0",
        25,
    ),
    ("", "%x = call i32 @rc_input_i32(i32 %y)\nret i32 0", 19),
    (
        "@s = constant [3 x i8] c\"%p\\00\"\n",
        "%p = call i32 (ptr, ...) @printf(ptr @s, i32 1)\nret i32 0",
        34,
    ),
    // Modules without shape, and of too many bytes.
    ("", "%3 = add i32 1, 1\n%2 = add i32 1, 1\nret i32 0", 22),
    (
        "@h = global %b zeroinitializer\n%b = type { i8, [0 x %a] }\n%a = type { %b }\n",
        "ret i32 0",
        32,
    ),
    (
        "@g = global i32 0\n@h = global [1048573 x i8] zeroinitializer\n@i = global i64 0\n",
        "ret i32 0",
        29,
    ),
    (
        "@h = global [4294967296 x [4294967296 x i8]] zeroinitializer\n",
        "ret i32 0",
        23,
    ),
    ("", "br label %a\na:", 11),
    ("", "ret i32 0\n%x = add i32 1, 2\nret i32 0", 19),
    (
        "define ptr @f(ptr) {\n}\n",
        "unreachable\n%x = phi i32 [ 1, %a ], [ 2, %b ]",
        28,
    ),
];

/// Whole texts, and the number of nodes.
static WHOLE: [(&str, usize); 5] = [
    // Nothing, a name that is plain in quotes, and words between any two tokens.
    ("", 0),
    ("; c", 0),
    ("define i32 @\"a-b\"() {\n}", 7),
    ("declare void @\"a b\"(...)", 6),
    (
        "volatile @g = global i32 0\ndefine align 4 i32 #3 @main ( nsw ) { nounwind %x = private add i32 1 dereferenceable(8), 2 !a !1 ret i32 exact 0 } cold",
        21,
    ),
];

#[test]
fn texts_with_a_main_are_read(rt: HostRuntime) -> Result<(), Fail> {
    for (items, lines, nodes) in &WITH_MAIN {
        let text = with_main(rt.alloc(), items, lines)?;
        assert!(rt; text.len() <= MOST_BYTES);
        let found = read_module(rt.alloc(), text.as_bytes()).map(|found| found.nodes.len());
        assert_eq!(rt; found, Ok(*nodes), "{text}");
    }
    Ok(())
}

#[test]
fn whole_texts_are_read(rt: HostRuntime) -> Result<(), Fail> {
    for (text, nodes) in &WHOLE {
        assert!(rt; text.len() <= MOST_BYTES);
        let found = read_module(rt.alloc(), text.as_bytes()).map(|found| found.nodes.len());
        assert_eq!(rt; found, Ok(*nodes), "{text}");
    }
    Ok(())
}

/// Each array is four nodes, and the rest five.
#[test]
fn deep_types_are_read(rt: HostRuntime) -> Result<(), Fail> {
    let alloc = rt.alloc();
    let front = "[1 x ".repeat(alloc, 100_000)?;
    let back = "]".repeat(alloc, 100_000)?;
    let text = format!(in alloc; "@g = global {front}i8{back} zeroinitializer")?;
    assert!(rt; text.len() <= MOST_BYTES);
    let found = read_module(alloc, text.as_bytes()).map(|found| found.nodes.len());
    assert_eq!(rt; found, Ok(400_005));
    Ok(())
}
