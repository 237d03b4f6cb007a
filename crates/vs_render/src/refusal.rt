use std::alloc::AllocError;
use thiserror::Error;

/// Why there is no body.
#[derive(Debug, Clone, Copy, PartialEq, Eq, Error)]
pub enum RenderRefusal {
    /// A message would have so many bytes, with the closing event and without the vector.
    #[error("a message of {bytes} bytes")]
    TooLarge { bytes: u64 },
    #[error("out of memory")]
    Memory,
}

impl From<AllocError> for RenderRefusal {
    ghost use Rattle.std.specs.Prelude.{◌≡◌};
    ghost use Rattle.vs_render.specs.declared.refusal.RenderRefusal.TheVariants.{Memory};

    ghost from_gives = { λ _ e. e ≡ Memory };

    fn from(_error: AllocError) -> RenderRefusal {
        RenderRefusal::Memory
    }
}
