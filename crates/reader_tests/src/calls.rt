//! Calls with the first fault of theirs, worked out by hand: of functions that a module defines, and of the C library by the
//! types of the Linux manual pages.

use crate::bodies::BEHIND;
use crate::modules::fault_in;
use crate::texts::with_main;
use module_fault::Cause;
use module_fault::Cause::{TypeMismatch, UnknownName, Unsupported};
use std::test::Fail;

/// What stands before `ret i32 0`, from line 2 on.
static LINES: [(&str, Option<(u32, Cause)>); 59] = [
    // Calls of functions that the module defines.
    (
        "%x = call i32 @inc(i32 1)\ncall i32 (i32) @inc(i32 %x)\ncall void () @none()",
        None,
    ),
    ("%x = call i64 @inc(i32 1)", Some((2, TypeMismatch))),
    ("call void @inc(i32 1)", Some((2, TypeMismatch))),
    ("call i32 @none()", Some((2, TypeMismatch))),
    ("%x = call void @none()", Some((2, TypeMismatch))),
    ("call i32 @inc()", Some((2, TypeMismatch))),
    ("call i32 @inc(i64 1)", Some((2, TypeMismatch))),
    ("call i32 @inc(i32 1, i32 2)", Some((2, TypeMismatch))),
    ("call i32 @inc(i32 null)", Some((2, TypeMismatch))),
    ("call i32 () @inc(i32 1)", Some((2, TypeMismatch))),
    ("call i32 (i64) @inc(i32 1)", Some((2, TypeMismatch))),
    ("call i32 (i32, ...) @inc(i32 1)", Some((2, TypeMismatch))),
    // Calls of the C library.
    (
        "call i32 @putchar(i32 65)\n%x = call i32 (i32) @putchar(i32 65)\ncall void @free(ptr null)",
        None,
    ),
    ("call i32 @putchar(i8 65)", Some((2, TypeMismatch))),
    ("call i64 @putchar(i32 65)", Some((2, TypeMismatch))),
    ("call i32 @putchar()", Some((2, TypeMismatch))),
    (
        "call i32 (i32, ...) @putchar(i32 65)",
        Some((2, TypeMismatch)),
    ),
    ("%x = call void @free(ptr null)", Some((2, TypeMismatch))),
    (
        "call i32 @pthread_create(ptr @t, ptr null, ptr @run, ptr null)",
        None,
    ),
    (
        "%f = alloca ptr\ncall i32 @pthread_create(ptr @t, ptr null, ptr %f, ptr null)",
        Some((3, TypeMismatch)),
    ),
    (
        "call i32 @pthread_create(ptr @t, ptr null, ptr null, ptr null)",
        Some((2, TypeMismatch)),
    ),
    (
        "call i32 @pthread_create(ptr @t, ptr null, ptr @main, ptr null)",
        Some((2, TypeMismatch)),
    ),
    (
        "call i32 @pthread_create(ptr @t, ptr null, ptr @none, ptr null)",
        Some((2, TypeMismatch)),
    ),
    (
        "call i32 @pthread_create(ptr @t, ptr null, ptr @free, ptr null)",
        Some((2, TypeMismatch)),
    ),
    (
        "call i32 @pthread_create(ptr @t, ptr null, ptr @g, ptr null)",
        Some((2, TypeMismatch)),
    ),
    (
        "call i32 @pthread_create(ptr @t, ptr null, ptr @run)",
        Some((2, TypeMismatch)),
    ),
    (
        "call i32 @pthread_create(ptr @t, ptr null, ptr @run, i64 0)",
        Some((2, TypeMismatch)),
    ),
    (
        "call i32 @pthread_create(ptr @t, ptr null, ptr inttoptr (i64 1 to ptr), ptr null)",
        Some((2, TypeMismatch)),
    ),
    (
        "call i32 @pthread_create(ptr @t, ptr null, ptr getelementptr (i8, ptr @run, i64 0), ptr null)",
        Some((2, UnknownName)),
    ),
    (
        "call i32 @pthread_create(ptr @t, ptr null)",
        Some((2, TypeMismatch)),
    ),
    // Calls that are not known, whatever their types.
    ("call i64 @getchar(i8 1)", Some((2, Unsupported))),
    (
        "%x = call ptr @getchar(ptr null, i64 1)",
        Some((2, Unsupported)),
    ),
    // The result of a call that prints.
    (
        "%x = call i32 @putchar(i32 65)\n%y = add i32 1, %x",
        Some((3, Unsupported)),
    ),
    (
        "%x = call i32 @putchar(i32 65)\nbr label %a\na:\n%p = phi i32 [ %x, %0 ]",
        Some((5, Unsupported)),
    ),
    (
        "%x = call i32 @printf(ptr @d, i32 1)\ncall i32 @inc(i32 %x)",
        Some((3, Unsupported)),
    ),
    (
        "%x = call i32 @putchar(i32 65)\nstore i64 %x, ptr @g",
        Some((3, TypeMismatch)),
    ),
    (
        "%x = call i32 @putchar(i32 65)\n%y = getelementptr i8, ptr @g, i32 %x",
        Some((3, Unsupported)),
    ),
    (
        "%x = call i32 @putchar(i32 65)\nswitch i32 %x, label %a [\n]\na:",
        Some((3, Unsupported)),
    ),
    // Formats of `printf`.
    (
        "call i32 @printf(ptr @d, i32 1)\ncall i32 (ptr, ...) @printf(ptr @text, i64 1, ptr @d)",
        None,
    ),
    ("call i32 @printf(ptr @d)", Some((2, TypeMismatch))),
    ("call i32 @printf(ptr @d, i64 1)", Some((2, TypeMismatch))),
    (
        "call i32 @printf(ptr @d, i32 1, i32 2)",
        Some((2, TypeMismatch)),
    ),
    (
        "call i32 @printf(ptr @text, ptr @d, i64 1)",
        Some((2, TypeMismatch)),
    ),
    ("call i64 @printf(ptr @d, i32 1)", Some((2, TypeMismatch))),
    (
        "call i32 (ptr) @printf(ptr @d, i32 1)",
        Some((2, TypeMismatch)),
    ),
    (
        "call i32 (ptr, i32) @printf(ptr @d, i32 1)",
        Some((2, TypeMismatch)),
    ),
    ("call i32 @printf()", Some((2, TypeMismatch))),
    ("call i32 @printf(ptr @g)", Some((2, Unsupported))),
    ("call i32 @printf(ptr null)", Some((2, Unsupported))),
    (
        "call i32 @printf(ptr getelementptr (i8, ptr @d, i64 0), i32 1)",
        Some((2, Unsupported)),
    ),
    (
        "%f = alloca ptr\ncall i32 @printf(ptr %f)",
        Some((3, Unsupported)),
    ),
    ("call i32 @printf(ptr @none)", Some((2, UnknownName))),
    // Slots of inputs.
    (
        "call i32 @rc_input_i32(i32 0)\ncall i32 @rc_input_i32(i32 -1)\ncall i32 @rc_input_i32(i32 zeroinitializer)",
        None,
    ),
    (
        "%n = add i32 0, 1\ncall i32 @rc_input_i32(i32 %n)",
        Some((3, Unsupported)),
    ),
    ("call i32 @rc_input_i32(i64 0)", Some((2, TypeMismatch))),
    ("call i32 @rc_input_i32(i32 true)", Some((2, TypeMismatch))),
    ("call i32 @rc_input_i32()", Some((2, TypeMismatch))),
    (
        "call i32 @rc_input_i32(i32 1, i32 2)",
        Some((2, TypeMismatch)),
    ),
    (
        "%n = add i64 0, 1\ncall i32 @rc_input_i32(i32 %n)",
        Some((3, TypeMismatch)),
    ),
];

/// Results, names and arguments of all calls that are known.
static KNOWN: [(&str, &str, &str); 37] = [
    (
        "i32",
        "pthread_create",
        "ptr null, ptr null, ptr @run, ptr null",
    ),
    ("i32", "pthread_join", "i64 0, ptr null"),
    ("void", "pthread_exit", "ptr null"),
    ("i64", "pthread_self", ""),
    ("i32", "pthread_mutex_init", "ptr null, ptr null"),
    ("i32", "pthread_mutex_destroy", "ptr null"),
    ("i32", "pthread_mutex_lock", "ptr null"),
    ("i32", "pthread_mutex_trylock", "ptr null"),
    ("i32", "pthread_mutex_unlock", "ptr null"),
    ("i32", "pthread_cond_init", "ptr null, ptr null"),
    ("i32", "pthread_cond_destroy", "ptr null"),
    ("i32", "pthread_cond_wait", "ptr null, ptr null"),
    ("i32", "pthread_cond_signal", "ptr null"),
    ("i32", "pthread_cond_broadcast", "ptr null"),
    ("i32", "sched_yield", ""),
    ("i32", "usleep", "i32 1"),
    ("i32", "sleep", "i32 1"),
    ("ptr", "malloc", "i64 1"),
    ("ptr", "calloc", "i64 1, i64 1"),
    ("void", "free", "ptr null"),
    ("ptr", "memcpy", "ptr null, ptr null, i64 0"),
    ("ptr", "memmove", "ptr null, ptr null, i64 0"),
    ("ptr", "memset", "ptr null, i32 0, i64 0"),
    ("i64", "strlen", "ptr null"),
    (
        "void",
        "llvm.memcpy.p0.p0.i64",
        "ptr null, ptr null, i64 0, i1 false",
    ),
    (
        "void",
        "llvm.memmove.p0.p0.i64",
        "ptr null, ptr null, i64 0, i1 false",
    ),
    (
        "void",
        "llvm.memset.p0.i64",
        "ptr null, i8 0, i64 0, i1 false",
    ),
    ("i32", "putchar", "i32 65"),
    ("i32", "puts", "ptr null"),
    ("i32", "printf", "ptr @d, i32 1"),
    ("void", "exit", "i32 0"),
    ("void", "abort", ""),
    (
        "void",
        "__assert_fail",
        "ptr null, ptr null, i32 1, ptr null",
    ),
    ("i8", "rc_input_i8", "i32 0"),
    ("i16", "rc_input_i16", "i32 0"),
    ("i32", "rc_input_i32", "i32 0"),
    ("i64", "rc_input_i64", "i32 0"),
];

#[test]
fn calls_have_their_first_faults(rt: HostRuntime) -> Result<(), Fail> {
    for (lines, wanted) in LINES {
        let body = format!(in rt.alloc(); "{lines}\nret i32 0")?;
        let main = with_main(rt.alloc(), "", body.as_str())?;
        let text = format!(in rt.alloc(); "{main}{BEHIND}")?;
        assert_eq!(rt; fault_in(rt.alloc(), text.as_str())?, wanted, "{text}");
    }
    Ok(())
}

/// The result of a call is used above it.
#[test]
fn printed_results_are_not_used(rt: HostRuntime) -> Result<(), Fail> {
    let lines = "br label %b\na:\nret i32 %x\nb:\n%x = call i32 @putchar(i32 65)\nbr label %a";
    let main = with_main(rt.alloc(), "", lines)?;
    let text = format!(in rt.alloc(); "{main}{BEHIND}")?;
    assert_eq!(rt;
        fault_in(rt.alloc(), text.as_str())?,
        Some((4, Unsupported))
    );
    Ok(())
}

/// With one argument more each is refused.
#[test]
fn known_calls_have_their_types(rt: HostRuntime) -> Result<(), Fail> {
    let alloc = rt.alloc();
    let before = "@d = constant [3 x i8] c\"%d\\00\"\ndefine ptr @run(ptr %q) {\nret ptr %q\n}\n";
    for (result, name, arguments) in KNOWN {
        let items = format!(in alloc; "{before}declare void @{name}()\n")?;
        let body = format!(in alloc; "call {result} @{name}({arguments})\nret i32 0")?;
        let text = with_main(alloc, items.as_str(), body.as_str())?;
        assert_eq!(rt; fault_in(rt.alloc(), text.as_str())?, None, "{text}");
        let comma = if arguments.len() > 0 { ", " } else { "" };
        let body = format!(in alloc;
            "call {result} @{name}({arguments}{comma}i1 true)\nret i32 0"
        )?;
        let text = with_main(alloc, items.as_str(), body.as_str())?;
        assert_eq!(rt;
            fault_in(rt.alloc(), text.as_str())?,
            Some((7, TypeMismatch)),
            "{text}"
        );
    }
    Ok(())
}
