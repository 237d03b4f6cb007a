ghost use Rattle.std.specs.Prelude.{◌≡◌};
ghost use Rattle.vs_proto.specs.Answers.{place_of, refusal_at, stop_of};

use std::alloc::{AllocError, AllocFailed};
use thiserror::Error;
use vs_wire::WireRefusal;

/// What is wrong with a field, without its place.
#[derive(Debug, Clone, Copy, PartialEq, Eq)]
pub enum Fault {
    /// Its bytes are no message, or no packed list.
    Wire(WireRefusal),
    /// It is a string, and its bytes aren't UTF-8.
    NotUtf8,
}

/// Why some bytes aren't read as a message. `at` is where the tag of the outermost field begins;
/// the place in `why` is counted from the front of the innermost message or packed list.
#[derive(Debug, Drop, Clone, Copy, PartialEq, Eq, Error)]
pub enum ProtoRefusal {
    #[error("bad message at {at}: {why}")]
    BadMessage { at: usize, why: WireRefusal },
    #[error("not UTF-8 at {at}")]
    NotUtf8 { at: usize },
    #[error("out of memory")]
    Memory,
}

/// Why a value isn't taken into its field.
#[derive(Debug, Drop, Clone, Copy, PartialEq, Eq)]
pub enum Stop {
    Memory,
    Bad(Fault),
}

impl Stop {
    /// The refusal of a message whose field at this place has the fault.
    pub(crate) fn refusal_at(self, at: usize) -> ProtoRefusal
        ensures { result ≡ refusal_at at self }
    {
        match self {
            Stop::Memory => ProtoRefusal::Memory,
            Stop::Bad(Fault::Wire(why)) => ProtoRefusal::BadMessage { at, why },
            Stop::Bad(Fault::NotUtf8) => ProtoRefusal::NotUtf8 { at },
        }
    }
}

impl ProtoRefusal {
    /// The same without its place.
    pub(crate) fn stop(self) -> Stop
        ensures { result ≡ stop_of self }
    {
        match self {
            ProtoRefusal::Memory => Stop::Memory,
            ProtoRefusal::BadMessage { at: _, why } => Stop::Bad(Fault::Wire(why)),
            ProtoRefusal::NotUtf8 { at: _ } => Stop::Bad(Fault::NotUtf8),
        }
    }
}

/// The refusal of a message at what is no field.
pub(crate) fn at_no_field(why: WireRefusal) -> ProtoRefusal
    ensures { result ≡ ProtoRefusal.BadMessage (place_of why) why }
{
    let at = match why {
        WireRefusal::Cut { at } => at,
        WireRefusal::LongVarint { at } => at,
        WireRefusal::BadWireType { at, kind: _ } => at,
        WireRefusal::ZeroField { at } => at,
    };
    ProtoRefusal::BadMessage { at, why }
}

impl From<AllocError> for Stop {
    ghost use Rattle.std.specs.Prelude.{◌≡◌};
    ghost use Rattle.vs_proto.specs.declared.refusal.Stop.TheVariants.{Memory};

    ghost from_gives = { λ _ e. e ≡ Memory };

    fn from(_error: AllocError) -> Stop {
        Stop::Memory
    }
}

impl<T: Drop> From<AllocFailed<T>> for Stop {
    ghost use Rattle.std.specs.Prelude.{◌≡◌};
    ghost use Rattle.vs_proto.specs.declared.refusal.Stop.TheVariants.{Memory};

    ghost from_gives = { λ _ e. e ≡ Memory };

    fn from(_failed: AllocFailed<T>) -> Stop {
        Stop::Memory
    }
}

impl From<AllocError> for ProtoRefusal {
    ghost use Rattle.std.specs.Prelude.{◌≡◌};
    ghost use Rattle.vs_proto.specs.declared.refusal.ProtoRefusal.TheVariants.{Memory};

    ghost from_gives = { λ _ e. e ≡ Memory };

    fn from(_error: AllocError) -> ProtoRefusal {
        ProtoRefusal::Memory
    }
}
