ghost use Rattle.std.specs.Prelude.{◌≡◌, IfOk, OnErr, OnOk, [], length};
ghost use Rattle.vs_frame.specs.Frames.{BeginsWithFrame, GivesFrame, HasFrame, holding, with_more};
ghost use Rattle.vs_frame.specs.Codec.{Waits};

use crate::codec::{new_codec, take_message};
use crate::front::{Front, front_of};
use crate::{FrameRefusal, OutOfMemory};
use bytes::BytesMut;
use std::alloc::Global;
use std::marker::Model;
use tokio_util::codec::LengthDelimitedCodec;
use vs_base::Text;

/// Gives the messages of frames whose bytes are fed in pieces.
#[derive(Drop)]
pub struct Framer {
    alloc: Global,
    codec: LengthDelimitedCodec,
    buffer: BytesMut,
    refused: Option<FrameRefusal>,
}

impl Model for Framer {
    ghost use Rattle.std.specs.Prelude.{◌≡◌, None};
    ghost use Rattle.vs_frame.specs.Frames.{Held};
    ghost use Rattle.vs_frame.specs.Codec.{Waits};

    ghost Value = { Held };

    ghost view = { λ f. record { bytes = f.buffer.items; refused = f.refused } };

    ghost invariant = { λ f. f.refused ≡ None → Waits f.codec };
}

impl Framer {
    /// A framer that holds nothing.
    pub fn new(alloc: Global) -> Result<Framer, OutOfMemory>
        ensures { IfOk result (λ f. f ≡ holding []) }
    {
        Ok(Framer {
            alloc,
            codec: new_codec(),
            buffer: BytesMut::new(alloc),
            refused: None,
        })
    }

    /// Takes the next bytes of the frames.
    pub fn feed(&mut self, piece: &[u8]) -> Result<(), OutOfMemory>
        ensures ok { OnOk result (self.new ≡ with_more self.old piece.now) }
        ensures err { OnErr result (self.new ≡ self.old) }
    {
        self.buffer.extend_from_slice(piece)
    }

    /// How many bytes were fed and not yet given.
    pub fn held(&self) -> usize
        ensures { result ≡ length self.now.bytes }
    {
        self.buffer.len()
    }

    /// The message of the next frame, or `None` where less than a frame is held. After a refusal
    /// it answers that one.
    pub fn next_frame(&mut self) -> Result<Option<Text>, FrameRefusal>
        ensures { GivesFrame self.old result self.new }
    {
        if let Some(refusal) = self.refused {
            return Err(refusal);
        }
        match front_of(self.buffer.as_slice()) {
            Front::Part => Ok(None),
            Front::TooLong(length) => {
                let refusal = FrameRefusal::FrameTooLong { length };
                self.refused = Some(refusal);
                Err(refusal)
            }
            Front::Whole => match take_text(self.alloc, &mut self.codec, &mut self.buffer) {
                Ok(message) => Ok(Some(message)),
                Err(_) => {
                    self.refused = Some(FrameRefusal::Memory);
                    Err(FrameRefusal::Memory)
                }
            },
        }
    }
}

/// Takes the message of the whole frame with which the buffer begins.
fn take_text(
    alloc: Global,
    codec: &mut LengthDelimitedCodec,
    buffer: &mut BytesMut,
) -> Result<Text, OutOfMemory>
    requires waits { Waits codec.old }
    requires whole { HasFrame buffer.old.items }
    ensures frame { IfOk result (λ m. BeginsWithFrame buffer.old.items m buffer.new.items) }
    ensures waits { OnOk result (Waits codec.new) }
{
    let message = take_message(codec, buffer)?;
    Text::from_bytes(alloc, message.as_slice())
}
