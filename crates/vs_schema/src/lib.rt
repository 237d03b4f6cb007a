//! Schema texts: which tables the log of a shard has, with their columns and keys, and which of them are
//! skipped. The form is this project's own.
#![tactic(auto)]

mod builder;
mod columns;
mod cut;
mod fault;
mod key;
mod kind;
#[cfg(test)]
mod kind_tests;
mod laws;
mod number;
mod refusal;
mod schema;
mod skipped_names;
mod tables_by_name;
#[cfg(test)]
mod tests;

pub use laws::{law_faults, law_lawful};
pub use refusal::SchemaRefusal;
pub use schema::{Listed, Schema};
