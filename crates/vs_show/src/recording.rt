ghost use Rattle.std.specs.Prelude.{
  ◌≡◌,
  ◌⊎◌,
  ◌<◌,
  ◌≤◌,
  ◌+◌,
  ◌^◌,
  ◌++◌,
  Err,
  IfOk,
  IfSome,
  None,
  OnOk,
  length,
};
ghost use Rattle.vs_outside.specs.Counts.{Rose};
ghost use Rattle.vs_outside.specs.Told.{Takes, Writes};
ghost use Rattle.vs_show.specs.Answers.{HasFailed, WritesLines, answer_of, rest_answer};
ghost use Rattle.vs_show.specs.Pieces.{ShowsPiece};
ghost use Rattle.vs_show.specs.Recordings.{bad_frame, lines};

use crate::frames::{Stop, put_frames};
use std::alloc::Global;
use vs_frame::{FrameWhy, Framer};
use vs_outside::{Failed, Sink, Source, write_all};

/// How the printing of a recording ended.
#[derive(Debug, Clone, Copy, PartialEq, Eq)]
pub enum ShowEnd {
    /// The recording is whole frames to its end, and all their lines were written.
    Whole,
    /// The frame with this number, from 1 on, is the first that is cut, too long or unreadable. All
    /// lines of the frames before it were written.
    BadFrame { number: u64, why: FrameWhy },
    /// A write of the output failed.
    LinkFault,
    /// A read of the input failed, or 2^62 bytes were read.
    InputFault,
    Memory,
}

/// How many bytes a read asks for.
const READ_SIZE: usize = 65536;

/// How many bytes are read before the input is given up.
const MOST_BYTES: u64 = 4_611_686_018_427_387_904;

/// Writes the lines of the frames that end in the next piece of the input, of which the first has
/// this number, and gives the number of the next frame.
fn show_piece<O: Sink>(
    alloc: Global,
    framer: &mut Framer,
    number: u64,
    piece: &[u8],
    output: &mut O,
) -> Result<u64, ShowEnd>
    requires fresh { framer.old.refused ≡ None }
    requires room { number + (length framer.old.bytes + length piece.now) < 2 ^ 64 }
    ensures shows { ShowsPiece number (framer.old.bytes ++ piece.now) result framer.new.bytes (O.sent output.old) (O.sent output.new) }
    ensures fresh { OnOk result (framer.new.refused ≡ None) }
    ensures room { IfOk result (λ next. next + length framer.new.bytes ≤ number + (length framer.old.bytes + length piece.now)) }
    ensures later { O.faults output.old ≤ O.faults output.new }
    ensures failed { result ≡ Err ShowEnd.LinkFault → Rose (O.faults output.old) (O.faults output.new) }
{
    let Ok(()) = framer.feed(piece) else {
        return Err(ShowEnd::Memory);
    };
    let mut text = Vec::new(alloc);
    match put_frames(alloc, framer, number, &mut text) {
        Ok(next) => match write_all(output, &text) {
            Ok(()) => Ok(next),
            Err(Failed) => Err(ShowEnd::LinkFault),
        },
        Err(Stop::Bad { number, why }) => match write_all(output, &text) {
            Ok(()) => Err(ShowEnd::BadFrame { number, why }),
            Err(Failed) => Err(ShowEnd::LinkFault),
        },
        Err(Stop::Memory) => Err(ShowEnd::Memory),
    }
}

/// The answer at the end of the input, where so many bytes of the frame with this number are held.
fn answer_at_end(held: usize, number: u64) -> ShowEnd
    ensures { result ≡ rest_answer held number }
{
    if held == 0 {
        return ShowEnd::Whole;
    }
    ShowEnd::BadFrame {
        number,
        why: FrameWhy::Cut,
    }
}

/// Reads a recording of frames to its end or to the first frame that is none, and writes a line for
/// each event behind the number of its frame. What is held is at most one frame that is not whole yet,
/// the frames that end in one read, and their lines.
pub fn show<I: Source, O: Sink>(alloc: Global, input: &mut I, output: &mut O) -> ShowEnd
    // What is written begins the lines of the input. With `Whole` and `BadFrame` it is all of them.
    ensures wrote { IfSome (I.left input.old) (λ bytes. Writes (O.sent output.old) (O.sent output.new) (WritesLines (lines bytes) result)) }
    // Where nothing failed the answer is that of the first frame that is none, or `Whole`.
    ensures answer { IfSome (I.left input.old) (λ bytes. (result ≡ answer_of (bad_frame bytes)) ⊎ HasFailed result) }
    ensures input_later { I.faults input.old ≤ I.faults input.new }
    ensures output_later { O.faults output.old ≤ O.faults output.new }
    ensures link { result ≡ ShowEnd.LinkFault → Rose (O.faults output.old) (O.faults output.new) }
    ensures input { result ≡ ShowEnd.InputFault → Rose (I.faults input.old) (I.faults input.new) ⊎ Takes (I.left input.old) (I.left input.new) (λ taken. 2 ^ 62 ≤ length taken) }
{
    let Ok(mut framer) = Framer::new(alloc) else {
        return ShowEnd::Memory;
    };
    let mut buf = [0u8; READ_SIZE];
    let mut number = 1;
    let mut taken = 0;
    while taken < MOST_BYTES {
        let n = match input.read(&mut buf) {
            Ok(0) => return answer_at_end(framer.held(), number),
            Ok(n) => n,
            Err(Failed) => return ShowEnd::InputFault,
        };
        number = match show_piece(alloc, &mut framer, number, &buf[..n], output) {
            Ok(next) => next,
            Err(end) => return end,
        };
        taken += n as u64;
    }
    ShowEnd::InputFault
}
