//! Which instructions wait for a turn of their own.

ghost use Rattle.std.specs.Prelude.{◌≡◌};
ghost use Rattle.machine_model.specs.Operation.{is_visible, is_visible_call, is_watched};

use ir_types::{Extern, Inst, Site};
use machine_model::Thread;

/// Whether it is a call by which threads meet or wait, or that prints or ends the process.
#[tactic(auto, unfolding(machine_model::specs::Operation::is_visible_call))]
fn is_visible_call(which: &Extern) -> bool
    ensures { result ≡ is_visible_call which.now }
{
    matches!(
        which,
        Extern::Create { .. }
            | Extern::Join
            | Extern::ThreadExit
            | Extern::MutexInit
            | Extern::MutexDestroy
            | Extern::Lock
            | Extern::TryLock
            | Extern::Unlock
            | Extern::CondInit
            | Extern::CondDestroy
            | Extern::CondWait
            | Extern::CondReturn
            | Extern::Signal
            | Extern::Broadcast
            | Extern::Yield
            | Extern::Usleep
            | Extern::Sleep
            | Extern::Putchar
            | Extern::Puts
            | Extern::Printf { .. }
            | Extern::Exit
    )
}

fn is_watched(watch: &[Site], site: Site) -> bool
    ensures { result ≡ is_watched watch.now site }
{
    watch.iter().any(|other| other.function == site.function && other.inst == site.inst)
}

/// Whether an instruction is the end of its thread, a visible call or an access at a watched site.
#[tactic(auto, unfolding(machine_model::specs::Operation::is_visible))]
pub fn is_visible(watch: &[Site], thread: &Thread, site: Site, inst: &Inst) -> bool
    ensures { result ≡ is_visible watch.now thread.now site inst.now }
{
    match inst {
        Inst::External { which, .. } => is_visible_call(which),
        Inst::Ret { .. } => thread.frames.items.len() == 1,
        Inst::Load { .. } | Inst::Store { .. } => is_watched(watch, site),
        _ => false,
    }
}
