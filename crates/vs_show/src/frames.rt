ghost use Rattle.std.specs.Prelude.{◌≡◌, ◌<◌, ◌≤◌, ◌+◌, ◌^◌, IfOk, None, OnOk, length, true};
ghost use Rattle.vs_show.specs.Pieces.{PutsFrames, PutsMessage, PutsNext};

use crate::event::put_response;
use std::alloc::Global;
use vs_frame::{FrameRefusal, FrameWhy, Framer};
use vs_proto::{ProtoRefusal, read_response};

/// Why no more lines are put.
#[derive(Debug, Clone, Copy, PartialEq, Eq)]
pub(crate) enum Stop {
    Memory,
    /// The frame with this number is none that can be read.
    Bad { number: u64, why: FrameWhy },
}

/// Appends the lines of the frame with this number and message.
fn put_message(alloc: Global, number: u64, message: &[u8], text: &mut Vec<u8>) -> Result<(), Stop>
    ensures { PutsMessage number message.now text.old.items result text.new.items }
{
    let response = match read_response(alloc, message) {
        Ok(response) => response,
        Err(ProtoRefusal::Memory) => return Err(Stop::Memory),
        Err(_) => {
            return Err(Stop::Bad {
                number,
                why: FrameWhy::Message,
            });
        }
    };
    match put_response(number, &response, text) {
        Ok(()) => Ok(()),
        Err(_) => Err(Stop::Memory),
    }
}

/// Appends the lines of the next frame, which has this number, and says whether a whole one was held.
fn put_next(
    alloc: Global,
    framer: &mut Framer,
    number: u64,
    text: &mut Vec<u8>,
) -> Result<bool, Stop>
    requires { framer.old.refused ≡ None }
    ensures puts { PutsNext number framer.old.bytes text.old.items result framer.new.bytes text.new.items }
    ensures fresh { OnOk result (framer.new.refused ≡ None) }
    ensures less { IfOk result (λ more. more ≡ true → length framer.new.bytes < length framer.old.bytes) }
{
    match framer.next_frame() {
        Ok(Some(message)) => {
            put_message(alloc, number, message.as_bytes(), text)?;
            Ok(true)
        }
        Ok(None) => Ok(false),
        Err(FrameRefusal::FrameTooLong { length: _ }) => Err(Stop::Bad {
            number,
            why: FrameWhy::TooLong,
        }),
        Err(FrameRefusal::Memory) => Err(Stop::Memory),
    }
}

/// Appends the lines of all whole frames that are held, of which the first has this number, and
/// gives the number of the next one.
pub(crate) fn put_frames(
    alloc: Global,
    framer: &mut Framer,
    first: u64,
    text: &mut Vec<u8>,
) -> Result<u64, Stop>
    requires fresh { framer.old.refused ≡ None }
    requires room { first + length framer.old.bytes < 2 ^ 64 }
    ensures puts { PutsFrames first framer.old.bytes text.old.items result framer.new.bytes text.new.items }
    ensures fresh { OnOk result (framer.new.refused ≡ None) }
    ensures room { IfOk result (λ number. number + length framer.new.bytes ≤ first + length framer.old.bytes) }
{
    let mut number = first;
    while put_next(alloc, framer, number, text)? {
        number += 1;
    }
    Ok(number)
}
