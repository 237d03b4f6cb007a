//! The rows of tables by their keys, after the changes that were applied.
#![tactic(auto)]

mod key;
mod keyed;
mod packed;
mod refusal;
mod row_key;
mod tables;
#[cfg(test)]
mod tests;

pub use key::{KeyPart, compare_keys, key_kinds};
pub use keyed::KeyedRows;
pub use packed::PackedRow;
pub use refusal::TableRefusal;
pub use row_key::RowKey;
pub use tables::Tables;
