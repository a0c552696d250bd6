//! The worked example, and what the program answers over shelves and sinks in memory.

use race_top::run;
use rc_base::{MemShelf, MemSink, NoMemory, OpenGate, Shelf, Sink, Words};
use std::alloc::Global;
use std::thread::Threads;

/// Thread 1 stores 65 and thread 2 stores 66 to the global that main prints.
pub static MODULE: &[u8] = b"@g = global i32 0
@t = global i64 0
@u = global i64 0
declare i32 @pthread_create(ptr, ptr, ptr, ptr)
declare i32 @pthread_join(i64, ptr)
declare i32 @putchar(i32)
define ptr @a(ptr %q) {
  store i32 65, ptr @g
  ret ptr null
}
define ptr @b(ptr %q) {
  store i32 66, ptr @g
  ret ptr null
}
define i32 @main() {
  %c = call i32 @pthread_create(ptr @t, ptr null, ptr @a, ptr null)
  %d = call i32 @pthread_create(ptr @u, ptr null, ptr @b, ptr null)
  %s = load i64, ptr @t
  %e = call i32 @pthread_join(i64 %s, ptr null)
  %w = load i64, ptr @u
  %f = call i32 @pthread_join(i64 %w, ptr null)
  %v = load i32, ptr @g
  %p = call i32 @putchar(i32 %v)
  ret i32 0
}
";

pub static CASE: &[u8] = b"portend-case 1
seed 7
steps 1000
visits 1
paths 1
schedules 1
watch a 0
watch b 0
turn 0*3 1 2 1 2 1 2 0*4
race 6 7
end
";

/// The commands, with the texts that they write. The texts have 68 and 145 bytes.
pub static COMMANDS: [(&[&str], &[u8]); 2] = [
    (
        &["replay", "m", "c"],
        b"portend-replay 1
turns 0*3 1 2 1 2 1 2 0*4
output b42 s0
exit 0
end
",
    ),
    (
        &["classify", "m", "c", "p", "1"],
        b"portend-report 1
race 1 6 7 OUTPUT-DIFFERS
job 0 1
input -
primary 0*3 1 2 1 2 1 2 0*4
prints b42 s0
turns 0*3 1 2*2 1*2 2 0*4
output b41 s0
end
",
    ),
];

/// A shelf with the module `m` and the case `c`.
pub fn example_shelf(alloc: Global) -> Result<MemShelf, NoMemory> {
    let mut shelf = MemShelf::new(alloc);
    shelf.add("m", MODULE)?;
    shelf.add("c", CASE)?;
    Ok(shelf)
}

/// Runs the command that the words spell. Proofs go to a sink that takes none.
pub fn answer<R: Threads + Sync, F: Shelf, O: Sink>(
    rt: &R,
    alloc: Global,
    line: &[&str],
    shelf: &mut F,
    out: &mut O,
) -> Result<u8, NoMemory> {
    let mut words = Words::new(alloc);
    for word in line {
        words.push(word)?;
    }
    let mut proofs = MemSink::new(alloc, 1, 0)?;
    Ok(run(rt, alloc, &words, shelf, out, &mut proofs, &OpenGate::new()))
}
