/// The greatest number of bytes of an event, and of the events of an entry together.
pub const LIMIT: u64 = 67_108_864;

/// What an event is to a log, by its kind and its flags.
#[derive(Debug, Clone, Copy, PartialEq, Eq)]
pub enum Sort {
    /// It begins a transaction that has no GTID.
    AnonymousEvent,
    /// It says nothing that counts, or may be ignored by its flags.
    PassedOver,
    FormatEvent,
    PreviousEvent,
    GtidEvent,
    QueryEvent,
    XidEvent,
    MapEvent,
    RowsEvent,
    ForeignEvent,
}
