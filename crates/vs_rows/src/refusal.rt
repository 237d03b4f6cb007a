use std::alloc::{AllocError, AllocFailed};
use thiserror::Error;
use vs_base::Text;

/// Why a table map or a rows event is refused.
#[derive(Debug, Drop, PartialEq, Eq, Error)]
pub enum RowRefusal {
    /// The body is against its layout; that of a rows event before its rows.
    #[error("bad body")]
    BadBody,
    /// No table map has told this number.
    #[error("unknown table id")]
    UnknownTableId { id: u64 },
    /// A table of the keyspace is neither listed nor skipped by the schema text.
    #[error("unknown table")]
    UnknownTable { table: Text },
    /// The columns of the table map aren't those of the schema text.
    #[error("table disagrees")]
    Disagrees { table: Text },
    /// An image lacks a column.
    #[error("table not full")]
    NotFullImage { table: Text },
    /// The number of columns isn't the table's, or the rows are cut, or a value is none of its column.
    #[error("bad row")]
    BadRow { table: Text },
    #[error("out of memory")]
    Memory,
}

impl From<AllocError> for RowRefusal {
    ghost use Rattle.std.specs.Prelude.{◌≡◌};
    ghost use Rattle.vs_rows.specs.declared.refusal.RowRefusal.TheVariants.{Memory};

    ghost from_gives = { λ _ e. e ≡ Memory };

    fn from(_error: AllocError) -> RowRefusal {
        RowRefusal::Memory
    }
}

impl<T: Drop> From<AllocFailed<T>> for RowRefusal {
    ghost use Rattle.std.specs.Prelude.{◌≡◌};
    ghost use Rattle.vs_rows.specs.declared.refusal.RowRefusal.TheVariants.{Memory};

    ghost from_gives = { λ _ e. e ≡ Memory };

    fn from(_failed: AllocFailed<T>) -> RowRefusal {
        RowRefusal::Memory
    }
}
