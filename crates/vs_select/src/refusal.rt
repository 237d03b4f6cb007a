ghost use Rattle.std.specs.Prelude.{◌≡◌};

use thiserror::Error;
use vs_base::{OutOfMemory, Text};

/// Why a text is no select, or why a select doesn't stand on a table.
#[derive(Debug, Drop, Error)]
pub enum SelectRefusal {
    /// The first byte of the part with which no select goes on; the length of the text at its end.
    #[error("bad select at {at}")]
    BadSelect { at: usize },
    #[error("unknown column")]
    UnknownColumn { name: Text },
    #[error("wrong literal")]
    WrongLiteral { name: Text },
    #[error("out of memory")]
    Memory,
}

impl From<OutOfMemory> for SelectRefusal {
    ghost use Rattle.vs_select.specs.declared.refusal.SelectRefusal.TheVariants.{Memory};

    ghost from_gives = { λ _ e. e ≡ Memory };

    fn from(_refused: OutOfMemory) -> SelectRefusal {
        SelectRefusal::Memory
    }
}
