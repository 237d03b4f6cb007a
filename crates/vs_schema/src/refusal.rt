use thiserror::Error;

/// Why a text is no schema.
#[derive(Debug, Drop, Clone, Copy, PartialEq, Eq, Error)]
pub enum SchemaRefusal {
    /// The first line, from 1, with which no schema text goes on; or the one behind the last, where the
    /// last table has no column.
    #[error("bad schema in line {line}")]
    BadSchema { line: usize },
    #[error("out of memory")]
    Memory,
}
