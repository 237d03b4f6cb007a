//! The request of a client: where each shard starts, the rules of the filter, and the flags.
#![tactic(auto)]

mod entry;
mod key;
mod laws;
mod read;
mod refusal;
mod request;
mod start;
#[cfg(test)]
mod tests;

pub use laws::{law_keys, law_requests};
pub use read::read_request;
pub use refusal::RequestRefusal;
pub use request::{Flags, Request, StartAt, Wanted};
pub use vs_base::{OutOfMemory, RuleText};
