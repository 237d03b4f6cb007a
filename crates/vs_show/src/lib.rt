//! A recorded stream as lines that a person reads: one for each event, behind the number of its frame.
#![tactic(auto)]

mod cell;
mod event;
mod frames;
mod kind;
mod laws;
mod recording;
mod shown;
#[cfg(test)]
mod tests;
mod vector;

pub use laws::law_recordings;
pub use recording::{ShowEnd, show};

/// The one fault of a call that only takes memory.
type OutOfMemory = std::alloc::AllocError;
