//! The rules of a filter, bound to a schema: which tables, which rows of them, which columns.
#![tactic(auto)]

mod binding;
mod bound;
mod filter;
mod laws;
mod rule;
mod rule_match;
#[cfg(test)]
mod tests;

pub use bound::{Bound, Picked};
pub use filter::{Filter, FilterRefusal};
pub use laws::{law_changes, law_keys};
pub use rule::{Rule, Take};
pub use rule_match::{Fitting, RuleMatch};
