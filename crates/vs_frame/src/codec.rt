ghost use Rattle.std.specs.Prelude.{IfOk, OnOk};
ghost use Rattle.vs_frame.specs.Codec.{Waits};
ghost use Rattle.vs_frame.specs.Frames.{BeginsWithFrame, HasFrame};

use crate::{LIMIT, OutOfMemory};
use bytes::BytesMut;
use std::alloc::AllocError;
use tokio_util::codec::{Decoder, LengthDelimitedCodec};

/// A codec for frames within the limit.
pub(crate) fn new_codec() -> LengthDelimitedCodec
    ensures { Waits result }
{
    LengthDelimitedCodec::builder()
        .max_frame_length(LIMIT as usize)
        .new_codec()
}

/// Takes the message of the whole frame with which the buffer begins.
pub(crate) fn take_message(
    codec: &mut LengthDelimitedCodec,
    buffer: &mut BytesMut,
) -> Result<BytesMut, OutOfMemory>
    requires waits { Waits codec.old }
    requires whole { HasFrame buffer.old.items }
    ensures frame { IfOk result (λ m. BeginsWithFrame buffer.old.items m.items buffer.new.items) }
    ensures waits { OnOk result (Waits codec.new) }
{
    match codec.decode(buffer) {
        Ok(Some(message)) => Ok(message),
        Ok(None) => unreachable!(),
        Err(_) => Err(AllocError),
    }
}
