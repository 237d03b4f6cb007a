//! The core of a stream: it takes the pieces of lanes, and handles one a turn.
#![tactic(auto)]

mod arriving;
mod choosing;
mod ending;
mod frames;
mod gate;
mod handled;
mod handling;
mod lane;
mod laws;
mod machine;
mod moving;
mod permits;
mod refusal;
mod rest;
mod scans;
mod spelled;
#[cfg(test)]
mod tests;
mod turn;
mod turning;

pub use frames::put_beat;
pub use lane::LaneState;
pub use laws::{law_bytes, law_next, law_runs};
pub use machine::Core;
pub use refusal::CoreRefusal;
pub use rest::Rest;
pub use turn::Turn;
pub use vs_model::{law_copies, law_final, law_resume};

/// The one fault of a call that only takes memory.
pub type OutOfMemory = std::alloc::AllocError;
