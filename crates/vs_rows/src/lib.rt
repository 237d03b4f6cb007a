//! Table maps and rows events of a MySQL binlog: the changes of rows that they tell.
#![tactic(auto)]

mod bits;
mod columns;
mod fault;
mod image;
mod keyspace;
mod kind;
mod laws;
mod layout;
mod maps;
mod meta;
mod outcome;
mod refusal;
mod table;
#[cfg(test)]
mod tests;

pub use keyspace::is_schema_of;
pub use laws::{law_columns, law_layouts, law_rows, law_tables};
pub use maps::Maps;
pub use outcome::RowsOf;
pub use refusal::RowRefusal;
