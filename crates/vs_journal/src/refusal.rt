ghost use Rattle.std.specs.Prelude.{◌≡◌};

use std::alloc::AllocFailed;
use thiserror::Error;
use vs_base::OutOfMemory;

/// Why a text is no journal.
#[derive(Debug, Drop, Error)]
pub enum JournalRefusal {
    /// The first byte of the token with which no journal text goes on. The text's length where the
    /// text ends too early, and where it lacks names, or one of its names or positions is unlawful.
    #[error("bad journal at {at}")]
    BadJournal { at: usize },
    #[error("repeated participant")]
    RepeatedParticipant,
    #[error("repeated successor")]
    RepeatedSuccessor,
    /// There are over 64 participants, or over 64 successors.
    #[error("too many names")]
    TooManyNames,
    #[error("out of memory")]
    Memory,
}

impl From<OutOfMemory> for JournalRefusal {
    ghost use Rattle.vs_journal.specs.declared.refusal.JournalRefusal.TheVariants.{Memory};

    ghost from_gives = { λ _ e. e ≡ Memory };

    fn from(_refused: OutOfMemory) -> JournalRefusal {
        JournalRefusal::Memory
    }
}

impl<T: Drop> From<AllocFailed<T>> for JournalRefusal {
    ghost use Rattle.vs_journal.specs.declared.refusal.JournalRefusal.TheVariants.{Memory};

    ghost from_gives = { λ _ e. e ≡ Memory };

    fn from(_failed: AllocFailed<T>) -> JournalRefusal {
        JournalRefusal::Memory
    }
}
