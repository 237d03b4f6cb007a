ghost use Rattle.std.specs.Prelude.{◌≡◌, IfOk};

use crate::{JournalValue, OutOfMemory};
use std::alloc::Global;
use vs_base::{Change, Copied, Gtid, List, Text};

/// What a transaction of a log did.
#[derive(Debug, Drop)]
pub enum Work {
    /// It changed these rows, in this order.
    Rows(List<Change>),
    /// It is a statement that changes the schema of the keyspace.
    Ddl(Text),
    /// It is another statement.
    Other,
    /// It wrote a reshard journal.
    Journal(JournalValue),
}

impl Work {
    pub fn copy(&self, alloc: Global) -> Result<Work, OutOfMemory>
        ensures { IfOk result (λ w. w ≡ self.now) }
    {
        Ok(match self {
            Work::Rows(changes) => Work::Rows(changes.copy(alloc)?),
            Work::Ddl(statement) => Work::Ddl(statement.copy(alloc)?),
            Work::Other => Work::Other,
            Work::Journal(journal) => Work::Journal(journal.copy(alloc)?),
        })
    }
}

/// A transaction of a log: its GTID, and the time of its last event, in seconds since 1970.
#[derive(Debug, Drop)]
pub struct Entry {
    pub gtid: Gtid,
    pub time: u32,
    pub work: Work,
}

impl Entry {
    pub fn copy(&self, alloc: Global) -> Result<Entry, OutOfMemory>
        ensures { IfOk result (λ e. e ≡ self.now) }
    {
        let gtid = self.gtid;
        Ok(Entry {
            gtid,
            time: self.time,
            work: self.work.copy(alloc)?,
        })
    }
}

impl Copied for Entry {
    fn copy(&self, alloc: Global) -> Result<Entry, OutOfMemory> {
        self.copy(alloc)
    }
}
