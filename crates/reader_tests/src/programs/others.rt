//! Programs with a main of another form, and one as clang writes it.

use crate::programs::{HEAD, ROOM, START, STORE, thread};
use crate::texts::with_main;
use ir_lex::MOST_BYTES;
use ir_read::read_module;
use std::alloc::{AllocError, Global};
use std::test::Fail;

/// The second thread joins the first one, and main returns before they end.
fn thread_joins_thread(alloc: Global) -> Result<String, AllocError> {
    let a = thread(alloc, "a", STORE)?;
    let b = thread(
        alloc,
        "b",
        "  %j = call i32 @pthread_join(i64 1, ptr null)
  %r = load i32, ptr @g
  ret ptr null
",
    )?;
    let items = format!(in alloc; "{HEAD}{a}{b}")?;
    let lines = format!(in alloc; "{ROOM}{START}  ret i32 0")?;
    with_main(alloc, &items, &lines)
}

/// Main stores too, while the one thread runs.
fn main_stores_too(alloc: Global) -> Result<String, AllocError> {
    let a = thread(alloc, "a", STORE)?;
    let items = format!(in alloc; "{HEAD}{a}")?;
    with_main(
        alloc,
        &items,
        "  %x = alloca i64
  %c = call i32 @pthread_create(ptr %x, ptr null, ptr @a, ptr null)
  store i32 1, ptr @g
  %s = load i64, ptr %x
  %e = call i32 @pthread_join(i64 %s, ptr null)
  %v = load i32, ptr @g
  %p = call i32 (ptr, ...) @printf(ptr @.str, i32 %v)
  ret i32 0",
    )
}

/// The sum is printed as a byte.
fn sum_is_a_byte(alloc: Global) -> Result<String, AllocError> {
    let a = thread(
        alloc,
        "a",
        "  %l = load i32, ptr @g
  %m = add i32 %l, 1
  store i32 %m, ptr @g
  ret ptr null
",
    )?;
    let items = format!(in alloc;
        "@g = global i32 64
@t = global i64 0
declare i32 @pthread_create(ptr, ptr, ptr, ptr)
declare i32 @pthread_join(i64, ptr)
declare i32 @putchar(i32)
{a}"
    )?;
    with_main(
        alloc,
        &items,
        "  %c = call i32 @pthread_create(ptr @t, ptr null, ptr @a, ptr null)
  %s = load i64, ptr @t
  %j = call i32 @pthread_join(i64 %s, ptr null)
  %v = load i32, ptr @g
  %p = call i32 @putchar(i32 %v)
  ret i32 0",
    )
}

/// A thread's function as clang writes it.
fn compiled_thread(alloc: Global, name: &str) -> Result<String, AllocError> {
    format!(in alloc;
        "
; Function Attrs: noinline nounwind optnone uwtable
define dso_local ptr @{name}(ptr noundef %0) #0 {{
  %2 = alloca ptr, align 8
  store ptr %0, ptr %2, align 8
  store i32 1, ptr @g, align 4
  ret ptr null
}}
"
    )
}

/// What stands above the functions in a text that clang writes.
const COMPILED_FRONT: &str = "; ModuleID = 'same.c'
source_filename = \"same.c\"
target triple = \"x86_64-unknown-linux-gnu\"

@g = dso_local global i32 0, align 4
@.str = private unnamed_addr constant [4 x i8] c\"%d\\0A\\00\", align 1
";

const COMPILED_MAIN: &str = "
define dso_local i32 @main() #0 {
  %1 = alloca i32, align 4
  %2 = alloca i64, align 8
  %3 = alloca i64, align 8
  store i32 0, ptr %1, align 4
  %4 = call i32 @pthread_create(ptr noundef %2, ptr noundef null, ptr noundef @a, ptr noundef null) #3
  %5 = call i32 @pthread_create(ptr noundef %3, ptr noundef null, ptr noundef @b, ptr noundef null) #3
  %6 = load i64, ptr %2, align 8
  %7 = call i32 @pthread_join(i64 noundef %6, ptr noundef null)
  %8 = load i64, ptr %3, align 8
  %9 = call i32 @pthread_join(i64 noundef %8, ptr noundef null)
  %10 = load i32, ptr @g, align 4
  %11 = call i32 (ptr, ...) @printf(ptr noundef @.str, i32 noundef %10)
  ret i32 0
}
";

const COMPILED_END: &str = "
declare !callback !1 i32 @pthread_create(ptr noundef, ptr noundef, ptr noundef, ptr noundef) #1
declare i32 @pthread_join(i64 noundef, ptr noundef) #2
declare i32 @printf(ptr noundef, ...) #2

attributes #0 = { noinline nounwind optnone uwtable }
!llvm.module.flags = !{!0}
!0 = !{i32 1, !\"wchar_size\", i32 4}
!1 = !{!2}
!2 = !{i64 2, i64 3, i1 false}
";

/// Both threads store the same, as clang writes it.
fn compiled_stores(alloc: Global) -> Result<String, AllocError> {
    let a = compiled_thread(alloc, "a")?;
    let b = compiled_thread(alloc, "b")?;
    format!(in alloc; "{COMPILED_FRONT}{a}{b}{COMPILED_MAIN}{COMPILED_END}")
}

#[test]
fn programs_with_another_main_are_read(rt: HostRuntime) -> Result<(), Fail> {
    let alloc = rt.alloc();
    for (text, nodes) in [
        (thread_joins_thread(alloc)?, 131),
        (main_stores_too(alloc)?, 126),
        (sum_is_a_byte(alloc)?, 118),
        (compiled_stores(alloc)?, 201),
    ] {
        assert!(rt; text.len() <= MOST_BYTES);
        let found = read_module(alloc, text.as_bytes()).map(|found| found.nodes.len());
        assert_eq!(rt; found, Ok(nodes), "{text}");
    }
    Ok(())
}
