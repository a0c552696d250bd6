//! Instructions with operands of other kinds, and ones that fit, worked out by hand.

use crate::bodies::BEHIND;
use crate::modules::fault_in;
use crate::texts::with_main;
use module_fault::Cause;
use module_fault::Cause::TypeMismatch;
use std::test::Fail;

/// What stands before `ret i32 0`, from line 2 on.
static LINES: [(&str, Option<(u32, Cause)>); 60] = [
    // Literals.
    (
        "store i8 255, ptr @g\nstore i1 -7, ptr @g\nstore i1 true, ptr @g\nstore ptr null, ptr @t",
        None,
    ),
    (
        "store ptr zeroinitializer, ptr @t\nstore i16 zeroinitializer, ptr @g",
        None,
    ),
    ("%x = add i32 null, 1", Some((2, TypeMismatch))),
    ("%x = add i32 1, true", Some((2, TypeMismatch))),
    ("store ptr 5, ptr @t", Some((2, TypeMismatch))),
    ("store ptr false, ptr @t", Some((2, TypeMismatch))),
    ("store i8 true, ptr @g", Some((2, TypeMismatch))),
    ("store i1 null, ptr @g", Some((2, TypeMismatch))),
    ("store i32 c\"abcd\", ptr @g", Some((2, TypeMismatch))),
    ("store i64 @g, ptr @t", Some((2, TypeMismatch))),
    (
        "store i64 inttoptr (i64 1 to ptr), ptr @t",
        Some((2, TypeMismatch)),
    ),
    (
        "store i64 getelementptr (i8, ptr @g, i64 1), ptr @t",
        Some((2, TypeMismatch)),
    ),
    (
        "store ptr inttoptr (ptr null to ptr), ptr @t",
        Some((2, TypeMismatch)),
    ),
    (
        "store ptr inttoptr (i64 null to ptr), ptr @t",
        Some((2, TypeMismatch)),
    ),
    // Conversions.
    (
        "%x = trunc i64 1 to i1\n%y = zext i1 %x to i8\n%z = sext i8 %y to i64",
        None,
    ),
    (
        "%x = ptrtoint ptr @g to i8\n%y = inttoptr i1 true to ptr",
        None,
    ),
    ("%x = trunc i32 1 to i32", Some((2, TypeMismatch))),
    ("%x = trunc i8 1 to i16", Some((2, TypeMismatch))),
    ("%x = zext i32 1 to i32", Some((2, TypeMismatch))),
    ("%x = zext i32 1 to i16", Some((2, TypeMismatch))),
    ("%x = sext i64 1 to i64", Some((2, TypeMismatch))),
    ("%x = trunc ptr @g to i32", Some((2, TypeMismatch))),
    ("%x = sext i32 1 to ptr", Some((2, TypeMismatch))),
    ("%x = ptrtoint i64 1 to i32", Some((2, TypeMismatch))),
    ("%x = ptrtoint ptr @g to ptr", Some((2, TypeMismatch))),
    ("%x = inttoptr i64 1 to i64", Some((2, TypeMismatch))),
    ("%x = inttoptr ptr @g to ptr", Some((2, TypeMismatch))),
    // Operands of other kinds.
    (
        "%x = icmp ult ptr @g, null\n%y = select i1 %x, ptr @g, ptr null",
        None,
    ),
    (
        "%x = alloca i32\n%y = add i32 %x, 1",
        Some((3, TypeMismatch)),
    ),
    (
        "%x = add i32 1, 2\n%y = load i32, ptr %x",
        Some((3, TypeMismatch)),
    ),
    (
        "%x = add i32 1, 2\n%y = icmp eq i64 1, %x",
        Some((3, TypeMismatch)),
    ),
    ("%x = add ptr null, null", Some((2, TypeMismatch))),
    ("%x = and ptr @g, @t", Some((2, TypeMismatch))),
    (
        "switch ptr null, label %a [\n]\na:",
        Some((2, TypeMismatch)),
    ),
    (
        "switch i32 1, label %a [\ni32 2, label %a\ni64 3, label %a\n]\na:",
        Some((2, TypeMismatch)),
    ),
    (
        "switch i32 1, label %a [\ni32 null, label %a\n]\na:",
        Some((2, TypeMismatch)),
    ),
    ("%x = select i8 1, i32 2, i32 3", Some((2, TypeMismatch))),
    ("%x = select i1 true, i32 2, i64 3", Some((2, TypeMismatch))),
    ("br i32 1, label %a, label %a\na:", Some((2, TypeMismatch))),
    ("%x = load i32, i64 5", Some((2, TypeMismatch))),
    ("store i32 1, i64 5", Some((2, TypeMismatch))),
    (
        "%x = getelementptr i8, i64 5, i64 1",
        Some((2, TypeMismatch)),
    ),
    ("%x = alloca i32, ptr null", Some((2, TypeMismatch))),
    (
        "br label %a\na:\n%p = phi i32 [ null, %0 ]",
        Some((4, TypeMismatch)),
    ),
    (
        "switch i1 true, label %a [\ni1 false, label %a\n]\na:",
        None,
    ),
    (
        "br label %a\na:\n%p = phi i32 [ @g, %0 ]",
        Some((4, TypeMismatch)),
    ),
    (
        "%x = add i64 1, 2\nbr label %a\na:\n%p = phi i32 [ %x, %0 ]",
        Some((5, TypeMismatch)),
    ),
    // Indices.
    (
        "%x = getelementptr %pair, ptr @t, i64 5, i32 zeroinitializer",
        None,
    ),
    (
        "%x = getelementptr %pair, ptr @t, i64 0, i32 2",
        Some((2, TypeMismatch)),
    ),
    (
        "%x = getelementptr %pair, ptr @t, i64 0, i32 -1",
        Some((2, TypeMismatch)),
    ),
    (
        "%n = add i32 0, 1\n%x = getelementptr %pair, ptr @t, i64 0, i32 %n",
        Some((3, TypeMismatch)),
    ),
    (
        "%n = add i32 0, 1\n%x = getelementptr [2 x i8], ptr @t, i32 %n, i32 %n",
        None,
    ),
    (
        "%x = getelementptr i32, ptr @g, i64 0, i64 0",
        Some((2, TypeMismatch)),
    ),
    (
        "%x = getelementptr { ptr }, ptr @t, i64 0, i32 0, i64 0",
        Some((2, TypeMismatch)),
    ),
    (
        "%x = getelementptr i8, ptr @g, ptr null",
        Some((2, TypeMismatch)),
    ),
    (
        "store ptr getelementptr (%pair, ptr @t, i64 0, i32 2), ptr @t",
        Some((2, TypeMismatch)),
    ),
    (
        "%x = getelementptr %pair, ptr @t, i64 0, i32 null",
        Some((2, TypeMismatch)),
    ),
    (
        "%x = load i32, ptr getelementptr (i8, ptr @g, i32 true)",
        Some((2, TypeMismatch)),
    ),
    // Sizes beyond all memory, and none.
    (
        "%x = alloca [2097152 x i8]\n%y = alloca [4294967296 x [4294967296 x i8]]\n%z = alloca {}",
        None,
    ),
    (
        "%x = getelementptr [4294967296 x [4294967296 x i8]], ptr @g, i64 1, i64 5\n%y = alloca [0 x %pair]",
        None,
    ),
];

#[test]
fn operands_have_their_first_faults(rt: HostRuntime) -> Result<(), Fail> {
    for (lines, wanted) in LINES {
        let body = format!(in rt.alloc(); "{lines}\nret i32 0")?;
        let main = with_main(rt.alloc(), "", body.as_str())?;
        let text = format!(in rt.alloc(); "{main}{BEHIND}")?;
        assert_eq!(rt; fault_in(rt.alloc(), text.as_str())?, wanted, "{text}");
    }
    Ok(())
}
