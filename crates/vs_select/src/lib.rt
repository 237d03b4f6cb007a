//! Select texts: which rows of a table are streamed, and which of their columns.
#![tactic(auto)]

mod bind;
mod bound;
mod cut;
mod laws;
mod part;
mod refusal;
mod select;
mod state;
mod step;
#[cfg(test)]
mod tests;

pub use bound::{BoundSelect, BoundTest, Check};
pub use laws::law_selects;
pub use refusal::SelectRefusal;
pub use select::{Comparison, Condition, Literal, Select, Test};
