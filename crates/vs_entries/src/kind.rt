/// What a statement is to a log, without the text that it may have.
#[derive(Debug, Clone, Copy, PartialEq, Eq)]
pub enum StatementKind {
    Begin,
    Commit,
    Savepoint,
    Xa,
    /// a change of the keyspace's schema
    Ddl,
    Other,
}
