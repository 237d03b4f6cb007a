use std::alloc::AllocError;
use thiserror::Error;

/// Why no frame is given.
#[derive(Debug, Drop, Clone, Copy, PartialEq, Eq, Error)]
pub enum FrameRefusal {
    /// The length of the next frame is over 16,777,216.
    #[error("frame of {length} bytes")]
    FrameTooLong { length: u32 },
    #[error("out of memory")]
    Memory,
}

/// What is wrong with a frame of a recorded stream.
#[derive(Debug, Drop, Clone, Copy, PartialEq, Eq, Error)]
pub enum FrameWhy {
    /// The stream ends inside it.
    #[error("cut")]
    Cut,
    /// Its length is over 16,777,216.
    #[error("too long")]
    TooLong,
    /// Its bytes are no message.
    #[error("message")]
    Message,
}

impl From<AllocError> for FrameRefusal {
    ghost use Rattle.std.specs.Prelude.{◌≡◌};
    ghost use Rattle.vs_frame.specs.declared.refusal.FrameRefusal.TheVariants.{Memory};

    ghost from_gives = { λ _ e. e ≡ Memory };

    fn from(_error: AllocError) -> FrameRefusal {
        FrameRefusal::Memory
    }
}
