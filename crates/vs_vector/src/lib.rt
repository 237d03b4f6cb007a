//! The vector of a stream: how far each shard has come.
#![tactic(auto)]

mod entries;
mod message;
mod place;
mod refusal;
mod replace;
#[cfg(test)]
mod tests;
mod vector;

pub use place::{Place, ShardAt};
pub use refusal::VectorRefusal;
pub use replace::is_among;
pub use vector::Vector;
pub use vs_base::OutOfMemory;
