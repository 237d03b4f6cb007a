//! Frames: a message behind four bytes of its length, the highest first, of at most 16 MiB.
#![tactic(auto)]

mod codec;
mod framer;
mod front;
mod laws;
mod put;
mod refusal;
#[cfg(test)]
mod tests;

pub use framer::Framer;
pub use laws::{law_frames, law_front};
pub use put::put_frame;
pub use refusal::{FrameRefusal, FrameWhy};

/// The one fault of a call that only takes memory.
pub type OutOfMemory = std::alloc::AllocError;

/// The most bytes that a message may have.
pub const LIMIT: u32 = 16_777_216;

/// The bytes of a message's length in front of it.
pub const HEADER: usize = 4;
