use thiserror::Error;
use vs_base::Why;
use vs_journal::Entry;

/// What a reader gives.
#[derive(Debug, Drop)]
pub enum Took {
    /// the next entry, with the place of its GTID event in the log, and the place behind its last event
    Entry { entry: Entry, at: u64, end: u64 },
    /// No entry is whole: the rest begins one, or is nothing.
    More,
}

/// Why a reader gives no entry.
#[derive(Debug, Drop, PartialEq, Eq, Error)]
pub enum LogRefusal {
    /// The event at this byte of the log is at fault.
    #[error("bad log")]
    BadLog { offset: u64, why: Why },
    #[error("out of memory")]
    Memory,
}

impl LogRefusal {
    ghost use Rattle.std.specs.Prelude.{◌≡◌};
    ghost use Rattle.vs_base.specs.declared.Why.TheVariants.{BadMagic};
    ghost use Rattle.vs_entries.specs.declared.took.LogRefusal.TheVariants.{BadLog};

    /// A byte of the magic differs.
    pub(crate) fn of_magic() -> LogRefusal
        ensures { result ≡ BadLog 0 BadMagic }
    {
        LogRefusal::BadLog {
            offset: 0,
            why: Why::BadMagic,
        }
    }
}
