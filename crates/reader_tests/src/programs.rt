//! Programs of two threads, put together from parts that most of them share, each with the number of its nodes.

mod others;
mod usual;

use std::alloc::{AllocError, Global};

/// The items that all have.
const HEAD: &str = "@g = global i32 0
@.str = constant [4 x i8] c\"%d\\0A\\00\"
declare i32 @pthread_create(ptr, ptr, ptr, ptr)
declare i32 @pthread_join(i64, ptr)
declare i32 @printf(ptr, ...)
";

/// Main makes room for the numbers of two threads, and starts them.
const ROOM: &str = "  %x = alloca i64
  %y = alloca i64
";

const START: &str = "  %c = call i32 @pthread_create(ptr %x, ptr null, ptr @a, ptr null)
  %d = call i32 @pthread_create(ptr %y, ptr null, ptr @b, ptr null)
";

const STORE: &str = "  store i32 1, ptr @g
  ret ptr null
";

fn thread(alloc: Global, name: &str, lines: &str) -> Result<String, AllocError> {
    format!(in alloc; "define ptr @{name}(ptr %q) {{\n{lines}}}\n")
}
