//! Which shard goes next, and when the stream is to show that it lives.
#![tactic(auto)]

mod beat;
mod head;
mod laws;
#[cfg(test)]
mod tests;

pub use beat::Beat;
pub use head::{Head, choose};
pub use laws::law_choice;
