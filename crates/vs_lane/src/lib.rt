//! One shard's reader: the pieces that a shard's log gives, from its feed on.
#![tactic(auto)]

mod course;
mod ending;
mod entries;
mod lane;
mod laws;
mod piece;
mod seek;

pub use lane::Lane;
pub use laws::{law_leads, law_posted, law_spelled, law_step};

/// The one fault of a call that only takes memory.
pub type OutOfMemory = std::alloc::AllocError;
