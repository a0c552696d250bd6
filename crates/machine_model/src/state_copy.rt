//! Equal states, threads and objects.

ghost use Rattle.std.specs.Prelude.{◌≡◌};

use crate::state::{Condition, Frame, Object, Operation, State, Thread};
use std::alloc::AllocError;

impl Clone for Frame {
    ghost is_clone = { λ frame copy. copy ≡ frame };

    fn clone(&self) -> Result<Self, AllocError> {
        Ok(Frame {
            function: self.function,
            block: self.block,
            place: self.place,
            registers: self.registers.clone()?,
            stack: self.stack.clone()?,
        })
    }
}

impl Clone for Operation {
    ghost is_clone = { λ operation copy. copy ≡ operation };

    fn clone(&self) -> Result<Self, AllocError> {
        Ok(match self {
            Operation::Start => Operation::Start,
            Operation::At { site, decided } => Operation::At {
                site: *site,
                decided: decided.clone()?,
            },
            Operation::CondReturn { site, decided } => Operation::CondReturn {
                site: *site,
                decided: decided.clone()?,
            },
            Operation::Nothing => Operation::Nothing,
        })
    }
}

impl Clone for Thread {
    ghost is_clone = { λ thread copy. copy ≡ thread };

    fn clone(&self) -> Result<Self, AllocError> {
        Ok(Thread {
            frames: self.frames.clone()?,
            pending: self.pending.clone()?,
            ended: self.ended,
            joined: self.joined,
        })
    }
}

impl Clone for Object {
    ghost is_clone = { λ object copy. copy ≡ object };

    fn clone(&self) -> Result<Self, AllocError> {
        Ok(Object {
            base: self.base,
            size: self.size,
            maker: self.maker,
            kind: self.kind,
            live: self.live,
            bytes: self.bytes.clone()?,
        })
    }
}

impl Clone for Condition {
    ghost is_clone = { λ condition copy. copy ≡ condition };

    fn clone(&self) -> Result<Self, AllocError> {
        Ok(Condition {
            at: self.at,
            waiters: self.waiters.clone()?,
        })
    }
}

impl Clone for State {
    ghost is_clone = { λ state copy. copy ≡ state };

    fn clone(&self) -> Result<Self, AllocError> {
        Ok(State {
            threads: self.threads.clone()?,
            objects: self.objects.clone()?,
            locks: self.locks.clone()?,
            conditions: self.conditions.clone()?,
            output: self.output.clone()?,
        })
    }
}
