use vs_base::{LastKey, List, RuleText, Text};
use vs_gtid::GtidSet;

/// Where a shard is to start.
#[derive(Debug, Drop)]
pub enum StartAt {
    /// With a copy of its tables.
    Fresh,
    /// At the end of its log.
    Current,
    /// Behind these GTIDs.
    At(GtidSet),
}

/// What is asked of a shard. An empty shard stands for all shards of the keyspace.
#[derive(Debug, Drop)]
pub struct Wanted {
    pub keyspace: Text,
    pub shard: Text,
    pub start: StartAt,
    /// The last row that was sent of a copy that goes on.
    pub last_key: Option<LastKey>,
}

/// How the stream is to run; the times are seconds, and 0 is none.
#[derive(Debug, Clone, Copy, PartialEq, Eq)]
pub struct Flags {
    pub max_skew: u64,
    pub heartbeat_interval: u64,
    pub stop_on_reshard: bool,
    pub include_journals: bool,
}

/// What a client asks for, lawful in its form. Whether its names are there is for the session.
#[derive(Debug, Drop)]
pub struct Request {
    pub entries: List<Wanted>,
    pub rules: List<RuleText>,
    pub flags: Flags,
}
