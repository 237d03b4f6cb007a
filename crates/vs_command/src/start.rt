use vs_gtid::GtidSet;

/// From where a shard is asked for.
#[derive(Debug, Drop)]
pub enum Start {
    /// behind these transactions
    At(GtidSet),
    /// at the log's end, as it stands when it is read
    Current,
}
