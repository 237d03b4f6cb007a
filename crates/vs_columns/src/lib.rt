//! The values of columns in the rows of a MySQL binlog, as text.
#![tactic(auto)]

mod calendar;
mod decimal;
mod digits;
mod kind;
mod laws;
mod refusal;
mod stored;
#[cfg(test)]
mod tests;

pub use kind::{agrees, meta_length};
pub use laws::{law_digits, law_value};
pub use refusal::ValueRefusal;
pub use stored::{put_value, value, value_by};
