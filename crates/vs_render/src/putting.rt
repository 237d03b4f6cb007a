//! Frames from bodies.
ghost use Rattle.std.specs.Prelude.{
  ◌≡◌,
  ◌++◌,
  ◌+◌,
  ◌<◌,
  ◌≤◌,
  ◌^◌,
  [],
  ◌∷◌,
  IfOk,
  OnErr,
  OnOk,
  drop,
  length,
  take,
};
ghost use Rattle.std.specs.List.{flat_map};
ghost use Rattle.vs_base.specs.Frames.{framed};
ghost use Rattle.vs_proto.specs.Frames.{events_bytes};
ghost use Rattle.vs_gtid.specs.Vectors.{Vector};
ghost use Rattle.vs_render.specs.Groups.{at_last};
ghost use Rattle.vs_render.specs.Bodies.{frame_with, pieces, total_length};
ghost use Rattle.vs_render.specs.Events.{head_of, vector_event};
ghost use Rattle.vs_vector.specs.Messages.{vgtid_of};

use crate::room::Room;
use crate::spelling::put_vector;
use crate::{Body, OutOfMemory};
use std::alloc::{AllocError, Global};
use vs_base::ShardName;
use vs_proto::VGtid;

/// The most bytes that a message may have.
const LIMIT: usize = 16_777_216;

/// Appends the frame of a body, with the vector put in. A message over the limit of a frame finds no
/// memory; only a vector of over 8 MiB makes one.
pub fn put_frame_with(
    alloc: Global,
    out: &mut Vec<u8>,
    name: &ShardName,
    time: u32,
    vgtid: &VGtid,
    body: &Body,
) -> Result<(), OutOfMemory>
    ensures ok { (v : Vector) → vgtid.now ≡ vgtid_of v → OnOk result (out.new.items ≡ out.old.items ++ frame_with (head_of name.now time) v body.now.body) }
    ensures err { OnErr result (out.new.items ≡ out.old.items) }
{
    let start = out.len();
    match push_frame_with(alloc, out, name, time, vgtid, body) {
        Ok(()) => Ok(()),
        Err(e) => {
            out.truncate(start);
            Err(e)
        }
    }
}

/// The same, but where memory runs out a part of it may stand there.
#[tactic(auto, using(crate::proofs::RoomLemmas::kept_front))]
fn push_frame_with(
    alloc: Global,
    out: &mut Vec<u8>,
    name: &ShardName,
    time: u32,
    vgtid: &VGtid,
    body: &Body,
) -> Result<(), OutOfMemory>
    ensures ok { OnOk result (out.new.items ≡ out.old.items ++ flat_map framed (at_last (events_bytes (vector_event (head_of name.now time) vgtid.now ∷ []) ++ body.now.body.closing) body.now.body.fronts)) }
    ensures err { OnErr result (take (length out.old.items) out.new.items ≡ out.old.items) }
{
    let mut vector = Vec::new(alloc);
    put_vector(alloc, &mut vector, name, time, vgtid)?;
    let place = push_earlier(out, &body.room, body.earlier.as_slice())?;
    push_last(out, &body.room, place, body.last, vector.as_slice())?;
    Ok(())
}

/// Appends the messages but the last, each behind its length. The answer is the place behind them.
#[tactic(auto, using(crate::proofs::RoomLemmas::kept_front, crate::proofs::RoomLemmas::kept_through))]
fn push_earlier(out: &mut Vec<u8>, room: &Room, lengths: &[usize]) -> Result<usize, OutOfMemory>
    requires within { total_length lengths.now ≤ length (room.now.buf.bytes ++ room.now.rest.items) }
    ensures place { IfOk result (λ p. p ≡ total_length lengths.now) }
    ensures ok { OnOk result (out.new.items ≡ out.old.items ++ flat_map framed (pieces lengths.now (room.now.buf.bytes ++ room.now.rest.items))) }
    ensures err { OnErr result (take (length out.old.items) out.new.items ≡ out.old.items) }
{
    let mut place: usize = 0;
    for n in lengths {
        if *n > LIMIT {
            return Err(AllocError);
        }
        out.extend_from_slice(&(*n as u32).to_be_bytes())?;
        room.put(out, place, *n)?;
        let Some(next) = place.checked_add(*n) else {
            return Err(AllocError);
        };
        place = next;
    }
    Ok(place)
}

/// Appends the last message: its events, the vector, and what stands behind the events.
#[tactic(auto, using(crate::proofs::RoomLemmas::kept_front))]
fn push_last(
    out: &mut Vec<u8>,
    room: &Room,
    place: usize,
    last: usize,
    vector: &[u8],
) -> Result<(), OutOfMemory>
    requires within { place + last ≤ length (room.now.buf.bytes ++ room.now.rest.items) }
    ensures ok { OnOk result (out.new.items ≡ out.old.items ++ framed (take last (drop place (room.now.buf.bytes ++ room.now.rest.items)) ++ (vector.now ++ drop (place + last) (room.now.buf.bytes ++ room.now.rest.items)))) }
    ensures err { OnErr result (take (length out.old.items) out.new.items ≡ out.old.items) }
{
    let behind = room.len() - (place + last);
    let size = last.saturating_add(vector.len()).saturating_add(behind);
    if size > LIMIT {
        return Err(AllocError);
    }
    out.extend_from_slice(&(size as u32).to_be_bytes())?;
    room.put(out, place, last)?;
    out.extend_from_slice(vector)?;
    room.put(out, place + last, behind)?;
    Ok(())
}
