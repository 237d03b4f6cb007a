use vs_base::{Change, List};

/// What a rows event tells.
#[derive(Debug, Drop)]
pub enum RowsOf {
    /// The changes of a table of the keyspace, in order.
    Changes(List<Change>),
    /// Those of the table of journals: each image has the cells of id, db_name and val.
    Journal(List<Change>),
    /// The rows of the table are passed over.
    Passed,
}
