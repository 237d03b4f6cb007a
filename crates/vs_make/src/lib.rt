//! Logs for trials, written as MySQL writes its binlogs, entry by entry.
#![tactic(auto)]

mod base;
mod bodies;
mod event;
mod journal;
mod laws;
mod rows;
mod same;
#[cfg(test)]
mod tests;
mod value;
mod writer;

pub use laws::{law_bases, law_journals, law_statements, law_transactions};
pub use writer::LogWriter;
