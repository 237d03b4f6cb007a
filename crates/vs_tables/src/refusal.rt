ghost use Rattle.std.specs.Prelude.{◌≡◌, IfOk};

use std::alloc::{AllocError, Global};
use thiserror::Error;
use vs_base::{OutOfMemory, Text};

/// Why a change doesn't stand on the rows before it.
#[derive(Debug, Drop, Error)]
pub enum TableRefusal {
    /// No row has the key of its before image.
    #[error("missing row")]
    MissingRow { table: Text },
    /// A row other than that of its before image has the key of its after image.
    #[error("double row")]
    DoubleRow { table: Text },
    /// The key of an image has over 4,096 cells, or over 3,072 bytes.
    #[error("key too long")]
    KeyTooLong { table: Text },
    #[error("out of memory")]
    Memory,
}

impl From<AllocError> for TableRefusal {
    ghost use Rattle.vs_tables.specs.declared.refusal.TableRefusal.TheVariants.{Memory};

    ghost from_gives = { λ _ e. e ≡ Memory };

    fn from(_refused: AllocError) -> TableRefusal {
        TableRefusal::Memory
    }
}

impl TableRefusal {
    pub fn copy(&self, alloc: Global) -> Result<TableRefusal, OutOfMemory>
        ensures { IfOk result (λ copy. copy ≡ self.now) }
    {
        match self {
            TableRefusal::MissingRow { table } => Ok(TableRefusal::MissingRow {
                table: table.copy(alloc)?,
            }),
            TableRefusal::DoubleRow { table } => Ok(TableRefusal::DoubleRow {
                table: table.copy(alloc)?,
            }),
            TableRefusal::KeyTooLong { table } => Ok(TableRefusal::KeyTooLong {
                table: table.copy(alloc)?,
            }),
            TableRefusal::Memory => Ok(TableRefusal::Memory),
        }
    }
}
