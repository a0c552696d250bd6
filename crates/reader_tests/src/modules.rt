//! Texts of modules that are read, with the first fault that their check finds, worked out by hand.

use ir_lex::MOST_BYTES;
use ir_read::{ModuleError, read_module};
use module_build::check_module;
use module_fault::Cause;
use module_fault::Cause::{BadShape, Duplicate, TypeMismatch, UnknownName, Unsupported};
use rc_base::Failure;
use std::alloc::Global;
use std::test::Fail;

/// The line and the cause of what is first found wrong with a text that is read, or None where it is accepted.
pub fn fault_in(alloc: Global, text: &str) -> Result<Option<(u32, Cause)>, Fail> {
    if text.len() > MOST_BYTES {
        return Err(Fail::new("a text is too long"));
    }
    let Ok(raw) = read_module(alloc, text.as_bytes()) else {
        return Err(Fail::new("a text isn't read"));
    };
    match check_module(alloc, &raw) {
        Ok(_) => Ok(None),
        Err(Failure::Refused(error)) => Ok(Some(cause_of(error)?)),
        Err(Failure::NoMemory) => Err(Fail::new("out of memory")),
    }
}

fn cause_of(error: ModuleError) -> Result<(u32, Cause), Fail> {
    match error {
        ModuleError::UnknownName { line } => Ok((line, UnknownName)),
        ModuleError::Duplicate { line } => Ok((line, Duplicate)),
        ModuleError::TypeMismatch { line } => Ok((line, TypeMismatch)),
        ModuleError::Unsupported { line } => Ok((line, Unsupported)),
        ModuleError::BadShape { line } => Ok((line, BadShape)),
        ModuleError::Lexical { .. } | ModuleError::Syntax { .. } => Err(Fail::new(
            "the check refuses tokens",
        )),
    }
}

/// Whole texts, and the line and cause of their first fault.
static WHOLE: [(&str, Option<(u32, Cause)>); 57] = [
    // `main`.
    ("", Some((0, BadShape))),
    ("declare i32 @main()", Some((0, BadShape))),
    ("@g = global i32 null", Some((1, TypeMismatch))),
    ("define i32 @main() {\nret i32 0\n}", None),
    ("define i32 @main(i32, ptr) {\nret i32 %0\n}", None),
    ("\ndefine void @main() {\nret void\n}", Some((2, BadShape))),
    (
        "define i32 @main(ptr, i32) {\nret i32 0\n}",
        Some((1, BadShape)),
    ),
    // Structs.
    (
        "%a = type { %b }\ndefine i32 @main() {\nret i32 0\n}",
        Some((1, UnknownName)),
    ),
    (
        "%a = type { %b, %a }\ndefine i32 @main() {\nret i32 0\n}",
        Some((1, UnknownName)),
    ),
    (
        "%a = type { ptr, [0 x %a] }\ndefine i32 @main() {\nret i32 0\n}",
        Some((1, BadShape)),
    ),
    (
        "@g = global %b zeroinitializer\n%b = type { i8, [0 x %a] }\n%a = type { %b }\ndefine i32 @main() {\nret i32 0\n}",
        Some((2, BadShape)),
    ),
    (
        "%a = type { i8 }\ndefine i32 @main() {\nret i32 0\n}\n%a = type { i16 }",
        Some((5, Duplicate)),
    ),
    (
        "%g = type { i8 }\n@g = global %g { i8 1 }\ndefine i32 @main() {\nret i32 0\n}",
        None,
    ),
    (
        "%a = type {\ni8,\n%b\n}\ndefine i32 @main() {\nret i32 0\n}",
        Some((1, UnknownName)),
    ),
    (
        "@g = global %a { %a zeroinitializer }\n%a = type { %a }\ndefine i32 @main() {\nret i32 0\n}",
        Some((2, BadShape)),
    ),
    (
        "define i32 @main() {\n%x = getelementptr %a, ptr null, i64 0, i32 1\nret i32 0\n}\n%a = type { i8, %b }",
        Some((5, UnknownName)),
    ),
    // Items in any order.
    (
        "define i32 @main() {\nret i32 0\n}\n@g = global %b { %a { i8 1 } }\n%b = type { %a }\n%a = type { i8 }",
        None,
    ),
    (
        "define i32 @main() {\n%x = call i32 @f(ptr @g)\nret i32 %x\n}\ndefine i32 @f(ptr %p) {\nret i32 0\n}\n@g = global i8 0",
        None,
    ),
    // Globals, functions and declarations share names.
    (
        "@f = global i32 0\ndefine i32 @main() {\nret i32 0\n}\ndefine void @f() {\nret void\n}",
        Some((5, Duplicate)),
    ),
    (
        "declare void @f()\n@f = global i32 0\ndefine i32 @main() {\nret i32 0\n}",
        Some((2, Duplicate)),
    ),
    (
        "@g = global ptr @g\n@g = global ptr @f\ndefine i32 @main() {\nret i32 0\n}\ndeclare void @f()",
        Some((2, UnknownName)),
    ),
    (
        "@g = global i8 1\n@g = global [2 x i8] c\"a\"\ndefine i32 @main() {\nret i32 0\n}",
        Some((2, Duplicate)),
    ),
    (
        "define i32 @main() {\ncall void @f()\nret i32 0\n}\ndefine void @f() {\nret void\n}\ndefine i32 @f(i32 %n) {\nret i32 0\n}",
        Some((8, Duplicate)),
    ),
    (
        "define i32 @main() {\ncall i32 @f(i32 1)\nret i32 0\n}\ndefine void @f() {\nret void\n}\ndefine i32 @f(i32 %n) {\nret i32 0\n}",
        Some((2, TypeMismatch)),
    ),
    // Functions have names of their own within.
    (
        "define i32 @f(i32 %n) {\nret i32 %n\n}\ndefine i32 @main() {\nret i32 %n\n}",
        Some((5, UnknownName)),
    ),
    (
        "define i32 @f(i32 %n) {\nret i32 %n\n}\ndefine i32 @main(i32 %n, ptr %p) {\nret i32 %n\n}",
        None,
    ),
    (
        "define ptr @f(ptr) {\n%2 = load ptr, ptr %0\nret ptr %2\n}\ndefine i32 @main() {\n%1 = call ptr @f(ptr null)\nret i32 0\n}",
        None,
    ),
    (
        "define void @f() {\nret i32 0\n}\ndefine i32 @main() {\nret i32 0\n}",
        Some((2, TypeMismatch)),
    ),
    (
        "define void @f() {\n}\ndefine i32 @main() {\nret i32 0\n}",
        Some((1, BadShape)),
    ),
    // A declaration is looked at where it is called, and a function that is defined is called by its own types.
    (
        "declare i64 @putchar(i8, ptr, ...)\ndeclare void @rc_input_i32()\ndeclare ptr @other(i1)\ndefine i32 @main() {\nret i32 0\n}",
        None,
    ),
    (
        "declare i64 @putchar(i8, ptr, ...)\ndefine i32 @main() {\ncall i32 @putchar(i32 65)\nret i32 0\n}",
        None,
    ),
    (
        "define i64 @putchar(i8 %c) {\nret i64 0\n}\ndefine i32 @main() {\n%x = call i64 @putchar(i8 65)\n%y = add i64 %x, 1\nret i32 0\n}",
        None,
    ),
    (
        "define i64 @putchar(i8 %c) {\nret i64 0\n}\ndefine i32 @main() {\n%x = call i32 @putchar(i32 65)\nret i32 0\n}",
        Some((5, TypeMismatch)),
    ),
    (
        "define void @printf(ptr %p) {\nret void\n}\ndefine i32 @main() {\ncall void @printf(ptr null)\nret i32 0\n}",
        None,
    ),
    (
        "define i32 @main() {\n%x = call i32 @putchar(i32 65)\nret i32 0\n}",
        Some((2, UnknownName)),
    ),
    // Where a thread starts.
    (
        "declare i32 @pthread_create(ptr, ptr, ptr, ptr)\ndefine void @f(ptr %p) {\nret void\n}\ndefine i32 @main() {\ncall i32 @pthread_create(ptr null, ptr null, ptr @f, ptr null)\nret i32 0\n}",
        Some((6, TypeMismatch)),
    ),
    (
        "declare i32 @pthread_create(ptr, ptr, ptr, ptr)\ndefine ptr @f(ptr %p, ptr %q) {\nret ptr %p\n}\ndefine i32 @main() {\ncall i32 @pthread_create(ptr null, ptr null, ptr @f, ptr null)\nret i32 0\n}",
        Some((6, TypeMismatch)),
    ),
    // Formats are strings of constants, with a zero byte.
    (
        "@f = constant [2 x i8] c\"a\\00\"\ndeclare i32 @printf(ptr)\ndefine i32 @main() {\ncall i32 @printf(ptr @f)\nret i32 0\n}",
        None,
    ),
    (
        "@f = global [2 x i8] c\"a\\00\"\ndeclare i32 @printf(ptr)\ndefine i32 @main() {\ncall i32 @printf(ptr @f)\nret i32 0\n}",
        Some((4, Unsupported)),
    ),
    (
        "@f = constant [1 x i8] c\"a\"\ndeclare i32 @printf(ptr)\ndefine i32 @main() {\ncall i32 @printf(ptr @f)\nret i32 0\n}",
        Some((4, Unsupported)),
    ),
    (
        "@f = constant [2 x i8] zeroinitializer\ndeclare i32 @printf(ptr)\ndefine i32 @main() {\ncall i32 @printf(ptr @f)\nret i32 0\n}",
        Some((4, Unsupported)),
    ),
    (
        "@f = constant [2 x i8] [i8 97, i8 0]\ndeclare i32 @printf(ptr)\ndefine i32 @main() {\ncall i32 @printf(ptr @f)\nret i32 0\n}",
        Some((4, Unsupported)),
    ),
    (
        "@f = constant { [2 x i8] } { [2 x i8] c\"a\\00\" }\ndeclare i32 @printf(ptr)\ndefine i32 @main() {\ncall i32 @printf(ptr @f)\nret i32 0\n}",
        Some((4, Unsupported)),
    ),
    (
        "@f = constant [3 x i8] c\"a\\00\"\ndeclare i32 @printf(ptr)\ndefine i32 @main() {\ncall i32 @printf(ptr @f)\nret i32 0\n}",
        Some((1, TypeMismatch)),
    ),
    // More than 1 MiB.
    (
        "@g = global [1048576 x i8] zeroinitializer\n@h = global {} zeroinitializer\ndefine i32 @main() {\nret i32 0\n}",
        None,
    ),
    (
        "@g = global [1048577 x i8] zeroinitializer\ndefine i32 @main() {\nret i32 0\n}",
        Some((1, BadShape)),
    ),
    (
        "@g = global [1048575 x i8] zeroinitializer\n@h = global i8 0\ndefine i32 @main() {\nret i32 0\n}",
        None,
    ),
    (
        "@g = global [1048575 x i8] zeroinitializer\n@h = global i8 0\n@i = global i8 0\n@j = global i8 0\ndefine i32 @main() {\nret i32 0\n}",
        Some((3, BadShape)),
    ),
    (
        "@g = global [4294967296 x [4294967296 x i8]] zeroinitializer\ndefine i32 @main() {\nret i32 0\n}",
        Some((1, BadShape)),
    ),
    (
        "@g = global [0 x [4294967296 x [4294967296 x i8]]] zeroinitializer\ndefine i32 @main() {\nret i32 0\n}",
        None,
    ),
    (
        "@g = global [1048577 x i8] null\ndefine i32 @main() {\nret i32 0\n}",
        Some((1, TypeMismatch)),
    ),
    (
        "@g = global [1048577 x i8] zeroinitializer\n@h = global i8 null\ndefine i32 @main() {\nret i32 0\n}",
        Some((1, BadShape)),
    ),
    (
        "%a = type { [4294967296 x i8] }\n%b = type { [4294967296 x %a] }\n@g = global %b zeroinitializer\ndefine i32 @main() {\nret i32 0\n}",
        Some((3, BadShape)),
    ),
    (
        "@g = global { [18446744073709551615 x i8], i64 } zeroinitializer\ndefine i32 @main() {\nret i32 0\n}",
        Some((1, BadShape)),
    ),
    // The line is that of the first token.
    (
        "@g = global\n[1 x i8] [\ni8 5\n]\n@h = global [1 x i8] [\ni8 null\n]\ndefine i32 @main() {\nret i32 0\n}",
        Some((5, TypeMismatch)),
    ),
    (
        "define i32 @main() {\n%x =\nadd i32 1,\nnull\nret i32 0\n}",
        Some((2, TypeMismatch)),
    ),
    // The lack of `main` comes last.
    (
        "define void @f() {\nunreachable\n}\n@g = global i32 true",
        Some((4, TypeMismatch)),
    ),
];

#[test]
fn modules_have_their_first_faults(rt: HostRuntime) -> Result<(), Fail> {
    for (text, wanted) in WHOLE {
        assert_eq!(rt; fault_in(rt.alloc(), text)?, wanted, "{text}");
    }
    Ok(())
}
