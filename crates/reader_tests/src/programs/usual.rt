//! Programs whose main starts two threads, joins them, and prints a number.

use crate::programs::{HEAD, ROOM, START, STORE, thread};
use crate::texts::with_main;
use ir_lex::MOST_BYTES;
use ir_read::read_module;
use std::alloc::{AllocError, Global};
use std::test::Fail;

const JOIN: &str = "  %s = load i64, ptr %x
  %e = call i32 @pthread_join(i64 %s, ptr null)
  %t = load i64, ptr %y
  %f = call i32 @pthread_join(i64 %t, ptr null)
  %v = load i32, ptr @g
";

/// What is added to the usual main, and the number that it prints.
struct Main {
    first: &'static str,
    behind_room: &'static str,
    behind_join: &'static str,
    printed: &'static str,
}

const USUAL: Main = Main {
    first: "",
    behind_room: "",
    behind_join: "",
    printed: "%v",
};

/// What is added to the items, the instructions of the two threads, main, and the number of nodes.
struct Program {
    name: &'static str,
    items: &'static str,
    a: &'static str,
    b: &'static str,
    main: Main,
    nodes: usize,
}

const INPUT: &str = "declare i32 @rc_input_i32(i32)\n";

const INPUT_AND_GLOBAL: &str = "@k = global i32 0
declare i32 @rc_input_i32(i32)
";

const ADD: &str = "  %l = load i32, ptr @g
  %m = add nsw i32 %l, 1
  store i32 %m, ptr @g
  ret ptr null
";

const DIVIDE: &str = "  %r = load i32, ptr @g
  %k = load i32, ptr @k
  %u = sub i32 1, %k
  %d = add i32 %r, %u
  %e = sdiv i32 8, %d
  ret ptr null
";

static PROGRAMS: [Program; 12] = [
    Program {
        name: "both threads add",
        items: "",
        a: ADD,
        b: ADD,
        main: USUAL,
        nodes: 198,
    },
    Program {
        name: "an input is added to the sum",
        items: INPUT,
        a: ADD,
        b: ADD,
        main: Main {
            first: "",
            behind_room: "",
            behind_join: "  %i = call i32 @rc_input_i32(i32 0)
  %w = add i32 %v, %i
",
            printed: "%w",
        },
        nodes: 219,
    },
    Program {
        name: "a pointer is stored and used",
        items: "@h = global ptr null\n",
        a: "  store ptr @g, ptr @h
  ret ptr null
",
        b: "  %r = load ptr, ptr @h
  store i32 7, ptr %r
  ret ptr null
",
        main: USUAL,
        nodes: 185,
    },
    Program {
        name: "two locks are taken in either order",
        items: "@m = global [40 x i8] zeroinitializer
@n = global [40 x i8] zeroinitializer
declare i32 @pthread_mutex_lock(ptr)
declare i32 @pthread_mutex_unlock(ptr)
",
        a: "  store i32 1, ptr @g
  call i32 @pthread_mutex_lock(ptr @m)
  call i32 @pthread_mutex_lock(ptr @n)
  call i32 @pthread_mutex_unlock(ptr @n)
  call i32 @pthread_mutex_unlock(ptr @m)
  ret ptr null
",
        b: "  %l = load i32, ptr @g
  %z = icmp eq i32 %l, 1
  br i1 %z, label %mn, label %nm
mn:
  call i32 @pthread_mutex_lock(ptr @m)
  call i32 @pthread_mutex_lock(ptr @n)
  call i32 @pthread_mutex_unlock(ptr @n)
  call i32 @pthread_mutex_unlock(ptr @m)
  ret ptr null
nm:
  call i32 @pthread_mutex_lock(ptr @n)
  call i32 @pthread_mutex_lock(ptr @m)
  call i32 @pthread_mutex_unlock(ptr @m)
  call i32 @pthread_mutex_unlock(ptr @n)
  ret ptr null
",
        main: USUAL,
        nodes: 308,
    },
    Program {
        name: "a thread waits for a flag",
        items: "@f = global i32 0\n",
        a: "  store i32 1, ptr @g
  store i32 1, ptr @f
  ret ptr null
",
        b: "  br label %spin
spin:
  %l = load i32, ptr @f
  %z = icmp eq i32 %l, 0
  br i1 %z, label %spin, label %go
go:
  %r = load i32, ptr @g
  ret ptr null
",
        main: USUAL,
        nodes: 210,
    },
    Program {
        name: "a lock is held",
        items: "@m = global [40 x i8] zeroinitializer
declare i32 @pthread_mutex_lock(ptr)
declare i32 @pthread_mutex_unlock(ptr)
",
        a: "  call i32 @pthread_mutex_lock(ptr @m)
  store i32 1, ptr @g
  call i32 @pthread_mutex_unlock(ptr @m)
  ret ptr null
",
        b: "  call i32 @pthread_mutex_lock(ptr @m)
  %r = load i32, ptr @g
  call i32 @pthread_mutex_unlock(ptr @m)
  ret ptr null
",
        main: USUAL,
        nodes: 224,
    },
    Program {
        name: "a loop counts",
        items: "",
        a: STORE,
        b: "top:
  %l = load i32, ptr @g
  %z = icmp eq i32 %l, 0
  br i1 %z, label %loop, label %out
loop:
  %i = phi i32 [ 0, %top ], [ %n, %loop ]
  %n = add i32 %i, 1
  %w = icmp ult i32 %n, 100
  br i1 %w, label %loop, label %out
out:
  ret ptr null
",
        main: USUAL,
        nodes: 224,
    },
    Program {
        name: "a large input makes the divisor 0",
        items: INPUT_AND_GLOBAL,
        a: STORE,
        b: DIVIDE,
        main: Main {
            first: "",
            behind_room: "  %i = call i32 @rc_input_i32(i32 0)
  %z = icmp ugt i32 %i, 9
  br i1 %z, label %big, label %run
big:
  store i32 1, ptr @k
  br label %run
run:
",
            behind_join: "",
            printed: "%v",
        },
        nodes: 243,
    },
    Program {
        name: "a large input branches again",
        items: INPUT_AND_GLOBAL,
        a: STORE,
        b: DIVIDE,
        main: Main {
            first: "",
            behind_room: "  %i = call i32 @rc_input_i32(i32 0)
  %z = icmp ugt i32 %i, 9
  br i1 %z, label %big, label %run
big:
  store i32 1, ptr @k
  %o = icmp ugt i32 %i, 19
  br i1 %o, label %more, label %run
more:
  br label %run
run:
",
            behind_join: "",
            printed: "%v",
        },
        nodes: 258,
    },
    Program {
        name: "an input divides",
        items: INPUT,
        a: STORE,
        b: STORE,
        main: Main {
            first: "",
            behind_room: "",
            behind_join: "  %i = call i32 @rc_input_i32(i32 0)
  %m = or i32 %i, 1
  %n = sdiv i32 -2147483648, %m
",
            printed: "%v",
        },
        nodes: 201,
    },
    Program {
        name: "an input shifts",
        items: INPUT,
        a: STORE,
        b: STORE,
        main: Main {
            first: "",
            behind_room: "",
            behind_join: "  %i = call i32 @rc_input_i32(i32 0)
  %n = shl i32 1, %i
",
            printed: "%v",
        },
        nodes: 195,
    },
    Program {
        name: "an input is an address",
        items: "declare i64 @rc_input_i64(i32)\n",
        a: STORE,
        b: STORE,
        main: Main {
            first: "  %i = call i64 @rc_input_i64(i32 0)
  %h = inttoptr i64 %i to ptr
  %u = load i32, ptr %h
",
            behind_room: "",
            behind_join: "",
            printed: "%v",
        },
        nodes: 202,
    },
];

/// The lines of the usual main, with what is added.
fn main_lines(alloc: Global, main: &Main) -> Result<String, AllocError> {
    let front = format!(in alloc;
        "{}{ROOM}{}{START}{JOIN}{}",
        main.first, main.behind_room, main.behind_join
    )?;
    format!(in alloc;
        "{front}  %p = call i32 (ptr, ...) @printf(ptr @.str, i32 {})\n  ret i32 0",
        main.printed
    )
}

fn text_of(alloc: Global, program: &Program) -> Result<String, AllocError> {
    let a = thread(alloc, "a", program.a)?;
    let b = thread(alloc, "b", program.b)?;
    let items = format!(in alloc; "{HEAD}{}{a}{b}", program.items)?;
    with_main(alloc, &items, &main_lines(alloc, &program.main)?)
}

#[test]
fn programs_with_the_usual_main_are_read(rt: HostRuntime) -> Result<(), Fail> {
    for program in &PROGRAMS {
        let text = text_of(rt.alloc(), program)?;
        assert!(rt; text.len() <= MOST_BYTES);
        let found = read_module(rt.alloc(), text.as_bytes()).map(|found| found.nodes.len());
        assert_eq!(rt; found, Ok(program.nodes), "{}", program.name);
    }
    Ok(())
}
