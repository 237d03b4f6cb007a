ghost use Rattle.std.specs.Prelude.{◌≡◌};

use std::alloc::AllocError;
use thiserror::Error;
use vs_base::Text;

/// Why there is no copy.
#[derive(Debug, Drop, Error)]
pub enum CopyRefusal {
    /// The first picked table without a key, or of whose key a column isn't taken.
    #[error("no key")]
    NoKey { table: Text },
    /// The last key is none of a copied table.
    #[error("bad last key")]
    BadLastKey,
    #[error("out of memory")]
    Memory,
}

impl From<AllocError> for CopyRefusal {
    ghost use Rattle.vs_copy.specs.declared.refusal.CopyRefusal.TheVariants.{Memory};

    ghost from_gives = { λ _ e. e ≡ Memory };

    fn from(_refused: AllocError) -> CopyRefusal {
        CopyRefusal::Memory
    }
}
