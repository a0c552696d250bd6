//! The calls, by their names.

ghost use Rattle.std.specs.Prelude.{◌≡◌};
ghost use Rattle.external_calls.specs.Prototype as spec;

/// A function outside of the module that a module may call: of the C library, of POSIX threads, an intrinsic
/// function of LLVM, or an input.
#[derive(Clone, Copy, Debug, PartialEq, Eq)]
pub enum ExternalCall {
    Create,
    Join,
    ThreadExit,
    SelfNumber,
    MutexInit,
    MutexDestroy,
    Lock,
    TryLock,
    Unlock,
    CondInit,
    CondDestroy,
    CondWait,
    Signal,
    Broadcast,
    Yield,
    Usleep,
    Sleep,
    Malloc,
    Calloc,
    Free,
    Memcpy,
    Memmove,
    Memset,
    Strlen,
    LlvmMemcpy,
    LlvmMemmove,
    LlvmMemset,
    Putchar,
    Puts,
    Printf,
    Exit,
    Abort,
    AssertFail,
    Input8,
    Input16,
    Input32,
    Input64,
}

impl ExternalCall {
    /// The call of this name, where there is one.
    #[tactic(auto, unfolding(crate::specs::Prototype::by_name))]
    pub fn by_name(name: &[u8]) -> Option<ExternalCall>
        ensures { result ≡ spec.by_name name.now }
    {
        find(&ALL, name)
    }

    /// The name that is declared.
    #[tactic(auto, unfolding(crate::specs::Prototype::name_of))]
    pub fn name(self) -> &'static str
        ensures { result.now ≡ spec.name_of self }
    {
        match self {
            ExternalCall::Create => "pthread_create",
            ExternalCall::Join => "pthread_join",
            ExternalCall::ThreadExit => "pthread_exit",
            ExternalCall::SelfNumber => "pthread_self",
            ExternalCall::MutexInit => "pthread_mutex_init",
            ExternalCall::MutexDestroy => "pthread_mutex_destroy",
            ExternalCall::Lock => "pthread_mutex_lock",
            ExternalCall::TryLock => "pthread_mutex_trylock",
            ExternalCall::Unlock => "pthread_mutex_unlock",
            ExternalCall::CondInit => "pthread_cond_init",
            ExternalCall::CondDestroy => "pthread_cond_destroy",
            ExternalCall::CondWait => "pthread_cond_wait",
            ExternalCall::Signal => "pthread_cond_signal",
            ExternalCall::Broadcast => "pthread_cond_broadcast",
            ExternalCall::Yield => "sched_yield",
            ExternalCall::Usleep => "usleep",
            ExternalCall::Sleep => "sleep",
            ExternalCall::Malloc => "malloc",
            ExternalCall::Calloc => "calloc",
            ExternalCall::Free => "free",
            ExternalCall::Memcpy => "memcpy",
            ExternalCall::Memmove => "memmove",
            ExternalCall::Memset => "memset",
            ExternalCall::Strlen => "strlen",
            ExternalCall::LlvmMemcpy => "llvm.memcpy.p0.p0.i64",
            ExternalCall::LlvmMemmove => "llvm.memmove.p0.p0.i64",
            ExternalCall::LlvmMemset => "llvm.memset.p0.i64",
            ExternalCall::Putchar => "putchar",
            ExternalCall::Puts => "puts",
            ExternalCall::Printf => "printf",
            ExternalCall::Exit => "exit",
            ExternalCall::Abort => "abort",
            ExternalCall::AssertFail => "__assert_fail",
            ExternalCall::Input8 => "rc_input_i8",
            ExternalCall::Input16 => "rc_input_i16",
            ExternalCall::Input32 => "rc_input_i32",
            ExternalCall::Input64 => "rc_input_i64",
        }
    }
}

const ALL: [ExternalCall; 37] = [
    ExternalCall::Create,
    ExternalCall::Join,
    ExternalCall::ThreadExit,
    ExternalCall::SelfNumber,
    ExternalCall::MutexInit,
    ExternalCall::MutexDestroy,
    ExternalCall::Lock,
    ExternalCall::TryLock,
    ExternalCall::Unlock,
    ExternalCall::CondInit,
    ExternalCall::CondDestroy,
    ExternalCall::CondWait,
    ExternalCall::Signal,
    ExternalCall::Broadcast,
    ExternalCall::Yield,
    ExternalCall::Usleep,
    ExternalCall::Sleep,
    ExternalCall::Malloc,
    ExternalCall::Calloc,
    ExternalCall::Free,
    ExternalCall::Memcpy,
    ExternalCall::Memmove,
    ExternalCall::Memset,
    ExternalCall::Strlen,
    ExternalCall::LlvmMemcpy,
    ExternalCall::LlvmMemmove,
    ExternalCall::LlvmMemset,
    ExternalCall::Putchar,
    ExternalCall::Puts,
    ExternalCall::Printf,
    ExternalCall::Exit,
    ExternalCall::Abort,
    ExternalCall::AssertFail,
    ExternalCall::Input8,
    ExternalCall::Input16,
    ExternalCall::Input32,
    ExternalCall::Input64,
];

/// The first of the calls that has the name.
fn find(calls: &[ExternalCall], name: &[u8]) -> Option<ExternalCall>
    ensures { result ≡ spec.find calls.now name.now }
{
    for call in calls {
        if name == call.name().as_bytes() {
            return Some(*call);
        }
    }
    None
}
