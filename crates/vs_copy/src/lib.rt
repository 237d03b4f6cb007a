//! A copy of the picked tables of a shard: the rows in chunks, and of later changes what the copy has passed.
#![tactic(auto)]

mod chunk;
mod copied;
mod copier;
mod keys;
mod laws;
mod refusal;
#[cfg(test)]
mod tests;

pub use chunk::ChunkRows;
pub use copied::CopiedTable;
pub use copier::Copier;
pub use laws::{law_bound, law_client};
pub use refusal::CopyRefusal;
