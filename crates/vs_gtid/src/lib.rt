//! GTID sets, and what entries of a log and journals are made of.
#![tactic(auto)]

mod add;
mod block;
mod compare;
mod entry;
mod interval;
mod journal;
mod kept;
mod laws;
mod merge;
mod parse;
mod part;
mod refusal;
mod same;
mod scan;
mod search;
mod set;
mod span;
mod text;
mod union;

pub use entry::{Entry, Work};
pub use interval::Interval;
pub use journal::{JournalValue, Successor};
pub use kept::KeptPosition;
pub use laws::{law_added, law_equal_sets, law_printed, law_readings, law_united};
pub use refusal::GtidRefusal;
pub use set::GtidSet;
pub use vs_base::OutOfMemory;

#[cfg(test)]
mod tests;
