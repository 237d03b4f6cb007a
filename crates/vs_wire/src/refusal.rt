ghost use Rattle.std.specs.Prelude.{◌≡◌};
ghost use Rattle.vs_wire.specs.Seen.{refusal};

use thiserror::Error;

/// What is wrong with a number or a field, without its place.
#[derive(Debug, Clone, Copy, PartialEq, Eq)]
pub enum Flaw {
    /// The bytes end inside it.
    Cut,
    /// A number has no end in its first ten bytes, or a tag is 2^32 or more.
    Long,
    /// The wire type isn't 0, 1, 2 or 5.
    BadKind(u8),
    /// The field's number is 0.
    ZeroField,
}

/// Why some bytes are no message. `at` is where the tag of the bad field begins or, for a number
/// that is read by itself, where the number begins.
#[derive(Debug, Clone, Copy, PartialEq, Eq, Error)]
pub enum WireRefusal {
    /// The bytes end inside the field or the number.
    #[error("cut off at {at}")]
    Cut { at: usize },
    /// A number has no end in its first ten bytes, or a tag is 2^32 or more.
    #[error("number too long at {at}")]
    LongVarint { at: usize },
    /// The wire type isn't 0, 1, 2 or 5.
    #[error("bad wire type {kind} at {at}")]
    BadWireType { at: usize, kind: u8 },
    /// The field's number is 0.
    #[error("field number 0 at {at}")]
    ZeroField { at: usize },
}

impl WireRefusal {
    pub(crate) fn new(at: usize, flaw: Flaw) -> WireRefusal
        ensures { result ≡ refusal at flaw }
    {
        match flaw {
            Flaw::Cut => WireRefusal::Cut { at },
            Flaw::Long => WireRefusal::LongVarint { at },
            Flaw::BadKind(kind) => WireRefusal::BadWireType { at, kind },
            Flaw::ZeroField => WireRefusal::ZeroField { at },
        }
    }
}
