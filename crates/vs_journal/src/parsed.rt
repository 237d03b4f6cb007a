use vs_base::{List, Text};

/// A participant or a successor as a text says it. A participant has no GTIDs.
#[derive(Debug, Drop)]
pub struct Member {
    pub keyspace: Text,
    pub shard: Text,
    pub gtid: Text,
}

/// What a journal text says, before its names and positions are judged.
#[derive(Debug, Drop)]
pub struct ParsedJournal {
    pub id: i64,
    pub shards: bool,
    pub participants: List<Member>,
    pub successors: List<Member>,
}
