//! What each call takes and gives.

ghost use Rattle.std.specs.Prelude.{◌≡◌};
ghost use Rattle.external_calls.specs.Prototype as spec;

use crate::call::ExternalCall;
use ir_types::{Extern, Kind, Width};

/// What a call takes as an argument.
#[derive(Clone, Copy, Debug, PartialEq, Eq)]
pub enum Parameter {
    /// A value of the kind, which the call's instruction keeps as an operand.
    Value(Kind),
    /// The function that a thread starts: the name of one that is defined, of type `ptr (ptr)`.
    StartRoutine,
    /// The name of a constant that holds the format.
    Format,
    /// The number of an input slot, as a literal.
    Slot,
}

impl Parameter {
    /// The kind that is written before the argument.
    pub fn kind(self) -> Kind
        ensures { result ≡ spec.kind_of self }
    {
        match self {
            Parameter::Value(kind) => kind,
            Parameter::StartRoutine | Parameter::Format => Kind::Ptr,
            Parameter::Slot => Kind::Int(Width::W32),
        }
    }
}

const PTR: Parameter = Parameter::Value(Kind::Ptr);

const I1: Parameter = Parameter::Value(Kind::Int(Width::W1));

const I8: Parameter = Parameter::Value(Kind::Int(Width::W8));

const I32: Parameter = Parameter::Value(Kind::Int(Width::W32));

const I64: Parameter = Parameter::Value(Kind::Int(Width::W64));

impl ExternalCall {
    /// The kind of the result; none for `void`.
    #[tactic(auto, unfolding(crate::specs::Prototype::result_of))]
    pub fn result(self) -> Option<Kind>
        ensures { result ≡ spec.result_of self }
    {
        match self {
            ExternalCall::ThreadExit
            | ExternalCall::Free
            | ExternalCall::LlvmMemcpy
            | ExternalCall::LlvmMemmove
            | ExternalCall::LlvmMemset
            | ExternalCall::Exit
            | ExternalCall::Abort
            | ExternalCall::AssertFail => None,
            ExternalCall::Malloc
            | ExternalCall::Calloc
            | ExternalCall::Memcpy
            | ExternalCall::Memmove
            | ExternalCall::Memset => Some(Kind::Ptr),
            ExternalCall::SelfNumber | ExternalCall::Strlen | ExternalCall::Input64 => Some(
                Kind::Int(Width::W64),
            ),
            ExternalCall::Input16 => Some(Kind::Int(Width::W16)),
            ExternalCall::Input8 => Some(Kind::Int(Width::W8)),
            _ => Some(Kind::Int(Width::W32)),
        }
    }

    /// The arguments that each call of it has, in order.
    #[tactic(auto, unfolding(crate::specs::Prototype::parameters_of))]
    pub fn parameters(self) -> &'static [Parameter]
        ensures { result.now ≡ spec.parameters_of self }
    {
        match self {
            ExternalCall::Create => &[PTR, PTR, Parameter::StartRoutine, PTR],
            ExternalCall::Join => &[I64, PTR],
            ExternalCall::MutexInit | ExternalCall::CondInit | ExternalCall::CondWait => &[
                PTR, PTR,
            ],
            ExternalCall::ThreadExit
            | ExternalCall::MutexDestroy
            | ExternalCall::Lock
            | ExternalCall::TryLock
            | ExternalCall::Unlock
            | ExternalCall::CondDestroy
            | ExternalCall::Signal
            | ExternalCall::Broadcast
            | ExternalCall::Free
            | ExternalCall::Strlen
            | ExternalCall::Puts => &[PTR],
            ExternalCall::SelfNumber | ExternalCall::Yield | ExternalCall::Abort => &[],
            ExternalCall::Usleep
            | ExternalCall::Sleep
            | ExternalCall::Putchar
            | ExternalCall::Exit => &[I32],
            ExternalCall::Malloc => &[I64],
            ExternalCall::Calloc => &[I64, I64],
            ExternalCall::Memcpy | ExternalCall::Memmove => &[PTR, PTR, I64],
            ExternalCall::Memset => &[PTR, I32, I64],
            ExternalCall::LlvmMemcpy | ExternalCall::LlvmMemmove => &[PTR, PTR, I64, I1],
            ExternalCall::LlvmMemset => &[PTR, I8, I64, I1],
            ExternalCall::Printf => &[Parameter::Format],
            ExternalCall::AssertFail => &[PTR, PTR, I32, PTR],
            ExternalCall::Input8
            | ExternalCall::Input16
            | ExternalCall::Input32
            | ExternalCall::Input64 => &[Parameter::Slot],
        }
    }

    /// Whether further arguments may follow, as in a prototype that ends with `...`.
    #[tactic(auto, unfolding(crate::specs::Prototype::is_variadic))]
    pub fn is_variadic(self) -> bool
        ensures { result ≡ spec.is_variadic self }
    {
        matches!(self, ExternalCall::Printf)
    }

    /// Whether it writes to standard output. No module may use the result of such a call.
    #[tactic(auto, unfolding(crate::specs::Prototype::is_output))]
    pub fn is_output(self) -> bool
        ensures { result ≡ spec.is_output self }
    {
        matches!(
            self,
            ExternalCall::Putchar | ExternalCall::Puts | ExternalCall::Printf
        )
    }

    /// The width of the input that it gives, where it gives one.
    #[tactic(auto, unfolding(crate::specs::Prototype::input_width))]
    pub fn input_width(self) -> Option<Width>
        ensures { result ≡ spec.input_width self }
    {
        match self {
            ExternalCall::Input8 => Some(Width::W8),
            ExternalCall::Input16 => Some(Width::W16),
            ExternalCall::Input32 => Some(Width::W32),
            ExternalCall::Input64 => Some(Width::W64),
            _ => None,
        }
    }

    /// The call as an instruction has it. There is none where the instruction also has the function that a thread
    /// starts, a format or a slot.
    #[tactic(auto, unfolding(crate::specs::Prototype::extern_of))]
    pub fn to_extern(self) -> Option<Extern>
        ensures { result ≡ spec.extern_of self }
    {
        match self {
            ExternalCall::Join => Some(Extern::Join),
            ExternalCall::ThreadExit => Some(Extern::ThreadExit),
            ExternalCall::SelfNumber => Some(Extern::SelfNumber),
            ExternalCall::MutexInit => Some(Extern::MutexInit),
            ExternalCall::MutexDestroy => Some(Extern::MutexDestroy),
            ExternalCall::Lock => Some(Extern::Lock),
            ExternalCall::TryLock => Some(Extern::TryLock),
            ExternalCall::Unlock => Some(Extern::Unlock),
            ExternalCall::CondInit => Some(Extern::CondInit),
            ExternalCall::CondDestroy => Some(Extern::CondDestroy),
            ExternalCall::CondWait => Some(Extern::CondWait),
            ExternalCall::Signal => Some(Extern::Signal),
            ExternalCall::Broadcast => Some(Extern::Broadcast),
            ExternalCall::Yield => Some(Extern::Yield),
            ExternalCall::Usleep => Some(Extern::Usleep),
            ExternalCall::Sleep => Some(Extern::Sleep),
            ExternalCall::Malloc => Some(Extern::Malloc),
            ExternalCall::Calloc => Some(Extern::Calloc),
            ExternalCall::Free => Some(Extern::Free),
            ExternalCall::Memcpy => Some(Extern::Memcpy),
            ExternalCall::Memmove => Some(Extern::Memmove),
            ExternalCall::Memset => Some(Extern::Memset),
            ExternalCall::Strlen => Some(Extern::Strlen),
            ExternalCall::LlvmMemcpy => Some(Extern::LlvmMemcpy),
            ExternalCall::LlvmMemmove => Some(Extern::LlvmMemmove),
            ExternalCall::LlvmMemset => Some(Extern::LlvmMemset),
            ExternalCall::Putchar => Some(Extern::Putchar),
            ExternalCall::Puts => Some(Extern::Puts),
            ExternalCall::Exit => Some(Extern::Exit),
            ExternalCall::Abort => Some(Extern::Abort),
            ExternalCall::AssertFail => Some(Extern::AssertFail),
            ExternalCall::Create
            | ExternalCall::Printf
            | ExternalCall::Input8
            | ExternalCall::Input16
            | ExternalCall::Input32
            | ExternalCall::Input64 => None,
        }
    }
}
