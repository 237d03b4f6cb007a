//! From a request to opened shards: which shards its entries ask for, and the log of a shard with the
//! filter bound to its schema.
#![tactic(auto)]

mod laws;
mod named;
mod names;
mod open;
mod repeated;
#[cfg(test)]
mod tests;

pub use laws::law_asked;
pub use named::Named;
pub use names::{NamesEnd, names_of};
pub use open::{OpenEnd, Ready, open_shard};
pub use vs_base::OutOfMemory;
