use vs_gtid::Work;

/// What a query says, as far as the order of a log depends on it.
#[derive(Debug, Drop)]
pub enum Statement {
    Begin,
    Commit,
    Savepoint,
    Xa,
    Single(Work),
}
