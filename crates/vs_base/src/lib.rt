//! Names, texts, rows and tables of a change stream, seen by contracts as lists and records.
#![tactic(auto)]

mod cell;
mod change;
mod copied;
mod gtid;
mod list;
mod numbers;
mod rule_text;
mod shard_name;
mod table;
#[cfg(test)]
mod tests;
mod text;
mod why;

pub use cell::{Cell, Image};
pub use change::{Change, LastKey};
pub use copied::Copied;
pub use gtid::Gtid;
pub use list::List;
pub use numbers::{are_digits, digits_value, is_digit, is_whole, number_of};
pub use rule_text::RuleText;
pub use shard_name::ShardName;
pub use table::{Column, ColumnKind, Table};
pub use text::Text;
pub use why::Why;

/// The one fault of a call that only takes memory.
pub type OutOfMemory = std::alloc::AllocError;
