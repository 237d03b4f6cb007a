//! Reads the bytes of a shard's log, however they come: its base, its transactions, and what is wrong
//! with it.
//!
//! A log is a binlog file of MySQL, version 4. A row that is inserted into Vitess' table of journals makes
//! its transaction a journal.
#![tactic(auto)]

mod body;
mod event;
#[cfg(test)]
mod events_for_tests;
mod fault;
mod front;
mod kind;
mod laws;
mod magic;
mod out;
mod progress;
mod query;
mod reader;
mod refusal;
mod row;
mod standing;
#[cfg(test)]
mod tests;
mod took;
mod walk;
mod window;

pub use laws::law_part;
pub use reader::Reader;
pub use took::{LogRefusal, Took};
