use std::alloc::{AllocError, AllocFailed};
use thiserror::Error;

/// Why a GTID set can't be read or built.
#[derive(Debug, Drop, Clone, Copy, PartialEq, Eq, Error)]
pub enum GtidRefusal {
    /// The byte at this place of the text fits no continuation, or a number there is out of range.
    #[error("bad GTID set at byte {at}")]
    BadText { at: usize },
    #[error("zero number at byte {at}")]
    ZeroNumber { at: usize },
    /// An interval ends before it begins; the place is that of its second number.
    #[error("empty interval at byte {at}")]
    EmptyInterval { at: usize },
    /// The field at this place of the block is cut or out of order.
    #[error("bad block at byte {at}")]
    BadBlock { at: usize },
    /// The set would have over 1,024 intervals.
    #[error("too many intervals")]
    TooManyIntervals,
    #[error("out of memory")]
    Memory,
}

impl<T: Drop> From<AllocFailed<T>> for GtidRefusal {
    ghost use Rattle.std.specs.Prelude.{◌≡◌};
    ghost use Rattle.vs_gtid.specs.declared.refusal.GtidRefusal.TheVariants.{Memory};

    ghost from_gives = { λ _ e. e ≡ Memory };

    fn from(_failed: AllocFailed<T>) -> GtidRefusal {
        GtidRefusal::Memory
    }
}

impl From<AllocError> for GtidRefusal {
    ghost use Rattle.std.specs.Prelude.{◌≡◌};
    ghost use Rattle.vs_gtid.specs.declared.refusal.GtidRefusal.TheVariants.{Memory};

    ghost from_gives = { λ _ e. e ≡ Memory };

    fn from(_error: AllocError) -> GtidRefusal {
        GtidRefusal::Memory
    }
}
