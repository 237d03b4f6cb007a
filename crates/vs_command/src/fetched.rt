use vs_base::{List, Why};
use vs_filter::Bound;
use vs_gtid::GtidSet;
use vs_journal::Entry;

/// An entry of a log, and the place of its GTID event.
#[derive(Debug, Drop)]
pub struct Placed {
    pub entry: Entry,
    pub at: u64,
}

/// What is wrong with a log, and the place of the event that is at fault.
#[derive(Debug, Drop)]
pub struct LogFault {
    pub offset: u64,
    pub why: Why,
}

/// A shard's log, read to its end or to its first fault.
#[derive(Debug, Drop)]
pub struct Fetched {
    pub base: GtidSet,
    pub entries: List<Placed>,
    pub fault: Option<LogFault>,
    /// how many entries were whole at the feed's first wait behind the log's base
    pub mark: Option<usize>,
}

/// The log of a shard, and the filter bound to the shard's schema.
#[derive(Debug, Drop)]
pub struct FetchedShard {
    pub log: Fetched,
    pub bound: Bound,
}
