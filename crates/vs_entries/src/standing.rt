use vs_base::{Gtid, Why};

/// Where the events of a log stand, between two of them.
#[derive(Debug, Clone, Copy)]
pub enum Standing {
    /// before the format description
    Front,
    /// behind the format description or an entry; whether no event stood since the former
    Between { first: bool },
    /// behind the GTID event of an entry, of so many bytes
    Named { gtid: Gtid, bytes: u32 },
    /// behind the BEGIN of a transaction, of so many bytes so far
    Inside { gtid: Gtid, bytes: u32 },
}

impl Standing {
    ghost use Rattle.std.specs.Prelude.{◌≡◌};
    ghost use Rattle.vs_entries.specs.Reading.{is_early, is_refused};
    ghost use Rattle.vs_entries.specs.Walks.{begun_after};

    /// Whether no event stood yet that tells whether the log has a base.
    pub fn is_early(&self) -> bool
        ensures { result ≡ is_early self.now }
    {
        match self {
            Standing::Front => true,
            Standing::Between { first } => *first,
            Standing::Named { .. } => false,
            Standing::Inside { .. } => false,
        }
    }

    /// The place of the GTID event of the entry that is open behind the event at a place; or that
    /// place, where none is open before.
    pub fn begun_after(&self, at: usize, begun: usize) -> usize
        ensures { result ≡ begun_after self.now at begun }
    {
        match self {
            Standing::Front => at,
            Standing::Between { .. } => at,
            Standing::Named { .. } => begun,
            Standing::Inside { .. } => begun,
        }
    }

    /// Whether something is wrong with the event here, and it isn't the format description.
    pub fn is_refused(&self, why: &Option<Why>) -> bool
        ensures { result ≡ is_refused self.now why.now }
    {
        match self {
            Standing::Front => false,
            _ => why.is_some(),
        }
    }
}
