//! The entries of a shard's log, the journals among them, and the texts of journals.
//!
//! `JournalValue` and `Successor` stand in `vs_gtid`: a journal names positions.
#![tactic(auto)]

mod brackets;
mod escape;
mod judge;
mod laws;
mod parsed;
mod read;
mod refusal;
mod scan;
mod state;
mod step;
#[cfg(test)]
mod tests;
mod token;
mod write;

pub use laws::{
    law_few_names, law_journal_texts, law_judgements, law_names, law_values, law_written,
};
pub use read::read_text;
pub use refusal::JournalRefusal;
pub use vs_gtid::{Entry, JournalValue, Successor, Work};
pub use write::write_text;
