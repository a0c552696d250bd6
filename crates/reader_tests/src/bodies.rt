//! Bodies of `main`, with the first fault of their names, types and shapes, worked out by hand.

use crate::modules::fault_in;
use crate::texts::with_main;
use module_fault::Cause;
use module_fault::Cause::{BadShape, Duplicate, TypeMismatch, UnknownName, Unsupported};
use std::test::Fail;

/// What stands behind `main`.
pub const BEHIND: &str = "@g = global i32 7
@t = global %pair zeroinitializer
@d = constant [3 x i8] c\"%d\\00\"
@text = constant [9 x i8] c\"%ld%%%s\\0A\\00\"
%pair = type { i8, i32 }
define i32 @inc(i32 %n) {
  ret i32 %n
}
define ptr @run(ptr %q) {
  ret ptr null
}
define void @none() {
  ret void
}
declare i32 @putchar(i32)
declare i32 @printf(ptr, ...)
declare i32 @pthread_create(ptr, ptr, ptr, ptr)
declare i32 @rc_input_i32(i32)
declare void @free(ptr)
declare i64 @getchar(i8, ...)
";

/// What stands before `ret i32 0`, from line 2 on.
static LINES: [(&str, Option<(u32, Cause)>); 33] = [
    // Names that nothing gives.
    ("%x = add i32 %y, 1", Some((2, UnknownName))),
    ("br label %a\nb:", Some((2, UnknownName))),
    (
        "br label %a\na:\n%x = add i32 %a, 1",
        Some((4, UnknownName)),
    ),
    (
        "br label %a\na:\n%p = phi i32 [ 0, %0 ], [ 1, %b ]",
        Some((4, UnknownName)),
    ),
    (
        "switch i32 1, label %a [\ni32 2, label %b\n]\na:",
        Some((2, UnknownName)),
    ),
    ("%x = load i32, ptr @h", Some((2, UnknownName))),
    (
        "%x = load i32, ptr getelementptr (i8, ptr @h, i64 1)",
        Some((2, UnknownName)),
    ),
    (
        "%x = load i32, ptr getelementptr (%h, ptr @g, i64 1)",
        Some((2, UnknownName)),
    ),
    ("%x = alloca [0 x { %h }]", Some((2, UnknownName))),
    (
        "%x = getelementptr %h, ptr @g, i64 1",
        Some((2, UnknownName)),
    ),
    ("call void @h()", Some((2, UnknownName))),
    ("call i32 @g()", Some((2, UnknownName))),
    ("store ptr @run, ptr @t", Some((2, UnknownName))),
    ("store ptr @free, ptr @t", Some((2, UnknownName))),
    (
        "%x = load i32, ptr getelementptr (i8, ptr @run, i64 1)",
        Some((2, UnknownName)),
    ),
    (
        "call i32 @pthread_create(ptr @g, ptr null, ptr @h, ptr null)",
        Some((2, UnknownName)),
    ),
    (
        "call i32 @pthread_create(ptr @run, ptr null, ptr @run, ptr null)",
        Some((2, UnknownName)),
    ),
    ("call i64 @getchar(ptr @run)", Some((2, UnknownName))),
    (
        "br label %a\na:\n%p = phi i32 [ %x, %0 ]",
        Some((4, UnknownName)),
    ),
    ("%x = alloca i32, i8 %n", Some((2, UnknownName))),
    // Of two the first counts.
    (
        "%y = add i32 %x, 1\n%x = add i32 1, 2\n%x = add i64 1, 2",
        Some((4, Duplicate)),
    ),
    (
        "%y = add i64 %x, 1\n%x = add i32 1, 2\n%x = add i64 1, 2",
        Some((2, TypeMismatch)),
    ),
    // Shapes.
    ("ret i32 0\n%x = add i32 1, 2", Some((4, BadShape))),
    (
        "br label %a\na:\n%x = add i32 1, 2\n%p = phi i32 [ 0, %0 ]",
        Some((5, BadShape)),
    ),
    (
        "br label %a\na:\n%p = phi i32 [ 0, %a ]",
        Some((4, BadShape)),
    ),
    ("%5 = add i32 1, 2\n%3 = add i32 1, 2", Some((3, BadShape))),
    (
        "switch i32 1, label %a [\ni32 2, label %a\ni32 2, label %b\n]\na:\nret i32 0\nb:",
        None,
    ),
    // In one line an unknown name comes first, then a name given twice, types, what is unsupported, and shapes.
    (
        "%x = add i32 1, 2\n%x = add i32 %y, null",
        Some((3, UnknownName)),
    ),
    (
        "%x = add i32 1, 2\n%x = add i32 null, 1",
        Some((3, Duplicate)),
    ),
    (
        "%x = call i32 @putchar(i32 65)\n%y = add i32 %x, null",
        Some((3, TypeMismatch)),
    ),
    // And of all lines the least.
    (
        "%x = add i32 null, 1\n%y = add i32 %no, 1",
        Some((2, TypeMismatch)),
    ),
    (
        "call i64 @getchar()\n%x = add i32 null, 1",
        Some((2, Unsupported)),
    ),
    (
        "%5 = add i32 1, 2\n%3 = add i32 1, 2\n%x = add i32 %no, 1",
        Some((3, BadShape)),
    ),
];

/// Whole bodies, from line 2 on.
static BLOCKS: [(&str, Option<(u32, Cause)>); 9] = [
    // Names that nothing gives.
    ("%x = add i32 1, 2\nbr label %x", Some((3, UnknownName))),
    // A name may be used above what gives it.
    (
        "br label %b\na:\nret i32 %x\nb:\n%x = add i32 1, 2\nbr label %a",
        None,
    ),
    // Operands of other kinds.
    ("ret void", Some((2, TypeMismatch))),
    ("ret i64 0", Some((2, TypeMismatch))),
    ("ret i32 null", Some((2, TypeMismatch))),
    // Shapes.
    ("%x = add i32 1, 2", Some((2, BadShape))),
    ("br label %a\na:", Some((3, BadShape))),
    (
        "br label %b\na:\nret i32 0\nb:\n%p = phi i32 [ 0, %0 ], [ 1, %a ], [ 2, %0 ]\nret i32 %p",
        None,
    ),
    // In one line an unknown name comes first, then a name given twice, types, what is unsupported, and shapes.
    ("call i64 @getchar()", Some((2, Unsupported))),
];

#[test]
fn lines_have_their_first_faults(rt: HostRuntime) -> Result<(), Fail> {
    for (lines, wanted) in LINES {
        let body = format!(in rt.alloc(); "{lines}\nret i32 0")?;
        let main = with_main(rt.alloc(), "", body.as_str())?;
        let text = format!(in rt.alloc(); "{main}{BEHIND}")?;
        assert_eq!(rt; fault_in(rt.alloc(), text.as_str())?, wanted, "{text}");
    }
    Ok(())
}

#[test]
fn blocks_have_their_first_faults(rt: HostRuntime) -> Result<(), Fail> {
    for (lines, wanted) in BLOCKS {
        let main = with_main(rt.alloc(), "", lines)?;
        let text = format!(in rt.alloc(); "{main}{BEHIND}")?;
        assert_eq!(rt; fault_in(rt.alloc(), text.as_str())?, wanted, "{text}");
    }
    Ok(())
}
