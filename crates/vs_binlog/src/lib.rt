//! The events of a MySQL binlog: their heads, and the bodies of format descriptions, GTID events and
//! queries; the first word of a statement; packed numbers. The format is version 4.
#![tactic(auto)]

mod event;
mod format;
mod gtid;
mod laws;
mod packed;
mod query;
#[cfg(test)]
mod tests;
mod word;

pub use event::{HEAD, Head, Step, next_event, read_head};
pub use format::{FormatRefusal, read_format};
pub use gtid::read_gtid;
pub use laws::law_first_word;
pub use packed::read_packed;
pub use query::{Query, read_query};
pub use word::{first_word, is_same_word};
