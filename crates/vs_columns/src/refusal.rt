use std::alloc::AllocError;
use thiserror::Error;

/// Why a column's value can't be told.
#[derive(Debug, Drop, Clone, Copy, PartialEq, Eq, Error)]
pub enum ValueRefusal {
    /// The bytes end before the value does.
    #[error("short value")]
    ShortValue,
    /// The bytes are no value of the kind, or the metadata isn't that of the kind.
    #[error("bad value")]
    BadValue,
    #[error("out of memory")]
    Memory,
}

impl From<AllocError> for ValueRefusal {
    ghost use Rattle.std.specs.Prelude.{◌≡◌};
    ghost use Rattle.vs_columns.specs.declared.refusal.ValueRefusal.TheVariants.{Memory};

    ghost from_gives = { λ _ e. e ≡ Memory };

    fn from(_error: AllocError) -> ValueRefusal {
        ValueRefusal::Memory
    }
}
