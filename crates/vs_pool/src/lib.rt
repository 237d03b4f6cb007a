//! Buffers that are made before they are needed, lent, and taken back.
#![tactic(auto)]

mod buf;
mod pool;
#[cfg(test)]
mod tests;

pub use buf::Buf;
pub use pool::Pool;

/// The one fault of a call that only takes memory.
pub type OutOfMemory = std::alloc::AllocError;
