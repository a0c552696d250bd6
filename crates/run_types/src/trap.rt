//! Why an instruction can't be done.

/// Why an instruction traps. The LLVM Language Reference calls most of these cases undefined behaviour, and
/// POSIX.1 threads the misuses of locks and joins.
#[derive(Clone, Copy, Debug, PartialEq, Eq)]
pub enum Trap {
    DivZero,
    DivOverflow,
    Overshift,
    BadAddress,
    ReadOnly,
    BadFree,
    NotOwner,
    BadLock,
    BadJoin,
    Unreachable,
    Abort,
    Assert,
    FrameLimit,
    MemoryLimit,
}
