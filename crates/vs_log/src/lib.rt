//! What the bytes of a binlog mean: by productions over whole texts, and by a table of its events.
//! What the bodies of some events mean is a parameter. The format is MySQL's binlog, version 4.
#![tactic(auto)]

mod event;
mod laws;
mod statement;
#[cfg(test)]
mod tests;

pub use event::{LIMIT, Sort};
pub use laws::{
    law_base, law_beginnings, law_changes, law_distinct, law_entries, law_growth, law_longest,
    law_meaning, law_places, law_steps,
};
pub use statement::Statement;
