ghost use Rattle.vs_frame.specs.Codec.{IsFront};

use crate::LIMIT;

/// What stands at the front of some bytes.
pub(crate) enum Front {
    /// Less than a frame.
    Part,
    /// A whole frame.
    Whole,
    /// A length over the limit.
    TooLong(u32),
}

pub(crate) fn front_of(bytes: &[u8]) -> Front
    ensures { IsFront bytes.now result }
{
    match bytes.split_first_chunk::<4>() {
        None => Front::Part,
        Some((head, rest)) => {
            let length = u32::from_be_bytes(*head);
            if length > LIMIT {
                Front::TooLong(length)
            } else if rest.len() < length as usize {
                Front::Part
            } else {
                Front::Whole
            }
        }
    }
}
