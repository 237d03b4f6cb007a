ghost use Rattle.std.specs.Prelude.{◌≡◌, ◌≤◌, ◌<◌, ◌++◌, ℕ, IfOk, OnOk, Err, length};
ghost use Rattle.vs_gtid.specs.Joins.{added};
ghost use Rattle.vs_log.specs.Laws.{FitAlong};
ghost use Rattle.vs_outside.specs.Counts.{Rose};
ghost use Rattle.vs_outside.specs.Told.{Writes};
ghost use Rattle.vs_render.specs.Bodies.{entry_body, frame_with};
ghost use Rattle.vs_render.specs.Events.{head_of};
ghost use Rattle.vs_vector.specs.Messages.{vgtid_of};
ghost use Rattle.vs_command.specs.Fetched.{IsPlaced, entries_of};
ghost use Rattle.vs_command.specs.Sending.{
  AreSent,
  IsSentAs,
  IsTooLargeAlong,
  StopsAtOversized,
  lacking,
  vector_at,
};
ghost use Rattle.vs_command.specs.Sizes.{AreSendable, IsOversized, IsSendable, sendable_front};

use crate::fetched::Placed;
use std::alloc::{AllocError, Global};
use vs_base::{List, OutOfMemory, ShardName, Text};
use vs_filter::Bound;
use vs_gtid::{GtidRefusal, GtidSet};
use vs_journal::Entry;
use vs_outside::{Failed, Sink, write_all};
use vs_pool::Pool;
use vs_proto::{ShardGtid, VGtid};
use vs_render::{Body, RenderRefusal, Room, put_frame_with, render};

/// Why not all entries were sent.
#[derive(Debug, Clone, Copy, PartialEq, Eq)]
pub enum SendEnd {
    Memory,
    /// The output failed; a beginning of the frame was written.
    LinkFault,
    /// The position with the next GTID has over 1,024 intervals.
    PositionTooLarge,
    /// A message of the next entry's frame has so many bytes, over the limit. Its GTID event stands at
    /// this byte.
    TooLarge { offset: u64, bytes: u64 },
}

/// Room for the text of a position of one interval, so that it need not grow.
const SHORT_POSITION: usize = 96;

/// How many bytes of a body lie in its buffer.
const BUFFER_SIZE: usize = 65536;

/// The vector of the one shard.
fn vgtid_of(alloc: Global, name: &ShardName, position: &GtidSet) -> Result<VGtid, OutOfMemory>
    ensures { IfOk result (λ m. m ≡ vgtid_of (vector_at name.now position.now)) }
{
    let mut gtid = Vec::with_capacity(alloc, SHORT_POSITION)?;
    gtid.extend_from_slice(b"MySQL56/")?;
    position.put_text(alloc, &mut gtid)?;
    let shard = ShardGtid {
        keyspace: name.keyspace.copy(alloc)?,
        shard: name.shard.copy(alloc)?,
        gtid: Text::from_vec(gtid),
        table_p_ks: List::new(alloc),
    };
    let mut shards = Vec::new(alloc);
    shards.push(shard)?;
    Ok(VGtid {
        shard_gtids: List::from_vec(shards),
    })
}

/// Where bodies are written, one after the other.
fn new_room(alloc: Global) -> Result<Room, OutOfMemory> {
    let mut pool = Pool::new(alloc, 1, BUFFER_SIZE)?;
    match pool.take() {
        Some(buf) => Ok(Room {
            buf,
            rest: Vec::new(alloc),
        }),
        None => Err(AllocError),
    }
}

/// The body of an entry.
#[tactic(auto, using(crate::proofs::SizeLemmas::sendable_within, crate::proofs::SizeLemmas::oversized_said))]
fn body_of(
    alloc: Global,
    room: Room,
    bound: &Bound,
    name: &ShardName,
    placed: &Placed,
) -> Result<Body, SendEnd>
    ensures body { IfOk result (λ b. b.body ≡ entry_body bound.now.tables name.now placed.now.entry) }
    ensures sendable { OnOk result (IsSendable bound.now.tables name.now placed.now.entry) }
    ensures oversized { (at bytes : ℕ) → result ≡ Err (SendEnd.TooLarge at bytes) → (at ≡ placed.now.at) × IsOversized bound.now.tables name.now placed.now.entry bytes }
    ensures no_link { result ≡ Err SendEnd.LinkFault → ⊥ }
    ensures no_position { result ≡ Err SendEnd.PositionTooLarge → ⊥ }
{
    match render(alloc, &placed.entry, name, bound, room) {
        Ok(body) => Ok(body),
        Err(refused) => {
            let (_room, refusal) = refused;
            match refusal {
                RenderRefusal::TooLarge { bytes } => Err(SendEnd::TooLarge {
                    offset: placed.at,
                    bytes,
                }),
                RenderRefusal::Memory => Err(SendEnd::Memory),
            }
        }
    }
}

/// Appends the frame of an entry's body, with the vector behind the entry.
fn put_frame_of(
    alloc: Global,
    out: &mut Vec<u8>,
    name: &ShardName,
    entry: &Entry,
    position: &GtidSet,
    body: &Body,
) -> Result<(), OutOfMemory>
    ensures { OnOk result (out.new.items ≡ out.old.items ++ frame_with (head_of name.now entry.now.time) (vector_at name.now position.now) body.now.body) }
{
    let vgtid = vgtid_of(alloc, name, position)?;
    put_frame_with(alloc, out, name, entry.time, &vgtid, body)
}

/// Sends the frame of an entry's body, and moves the position. The frame is made in a buffer that is
/// used again.
fn send_body<O: Sink>(
    alloc: Global,
    output: &mut O,
    name: &ShardName,
    entry: &Entry,
    body: &Body,
    frame: &mut Vec<u8>,
    position: &mut GtidSet,
) -> Result<(), SendEnd>
    ensures wrote { Writes (O.sent output.old) (O.sent output.new) (λ w. IsSentAs (frame_with (head_of name.now entry.now.time) (vector_at name.now (added position.old entry.now.gtid)) body.now.body) position.old entry.now.gtid result w) }
    ensures position { OnOk result (position.new ≡ added position.old entry.now.gtid) }
    ensures fits { OnOk result (length (added position.old entry.now.gtid) ≤ 1024) }
    ensures large { result ≡ Err SendEnd.PositionTooLarge → 1024 < length (added position.old entry.now.gtid) }
    ensures sized { (at bytes : ℕ) → result ≡ Err (SendEnd.TooLarge at bytes) → ⊥ }
    ensures later { O.faults output.old ≤ O.faults output.new }
    ensures failed { result ≡ Err SendEnd.LinkFault → Rose (O.faults output.old) (O.faults output.new) }
{
    match position.add(entry.gtid) {
        Ok(()) => {}
        Err(GtidRefusal::TooManyIntervals) => return Err(SendEnd::PositionTooLarge),
        Err(_) => return Err(SendEnd::Memory),
    }
    frame.clear();
    match put_frame_of(alloc, frame, name, entry, position, body) {
        Ok(()) => {}
        Err(_) => return Err(SendEnd::Memory),
    }
    match write_all(output, frame.as_slice()) {
        Ok(()) => Ok(()),
        Err(Failed) => Err(SendEnd::LinkFault),
    }
}

/// Sends the frames of the entries that the start lacks, in order, up to one that is too large. After a
/// refusal the frames of the first of them were written whole; where the output failed, a beginning of
/// one more.
pub fn send_entries<O: Sink>(
    alloc: Global,
    output: &mut O,
    name: &ShardName,
    entries: &[Placed],
    bound: &Bound,
    start: &GtidSet,
) -> Result<(), SendEnd>
    ensures wrote { Writes (O.sent output.old) (O.sent output.new) (λ w. AreSent (IsPlaced entries.now) bound.now.tables name.now start.now (lacking start.now (entries_of entries.now)) result w) }
    ensures sendable { OnOk result (AreSendable bound.now.tables name.now (lacking start.now (entries_of entries.now))) }
    ensures fits { OnOk result (FitAlong start.now (lacking start.now (entries_of entries.now))) }
    ensures large { result ≡ Err SendEnd.PositionTooLarge → IsTooLargeAlong start.now (sendable_front bound.now.tables name.now (lacking start.now (entries_of entries.now))) }
    ensures oversized { (at bytes : ℕ) → result ≡ Err (SendEnd.TooLarge at bytes) → StopsAtOversized (IsPlaced entries.now) bound.now.tables name.now start.now (lacking start.now (entries_of entries.now)) at bytes }
    ensures later { O.faults output.old ≤ O.faults output.new }
    ensures failed { result ≡ Err SendEnd.LinkFault → Rose (O.faults output.old) (O.faults output.new) }
{
    let Ok(mut position) = start.copy(alloc) else {
        return Err(SendEnd::Memory);
    };
    let Ok(mut room) = new_room(alloc) else {
        return Err(SendEnd::Memory);
    };
    let mut frame = Vec::new(alloc);
    for placed in entries {
        if start.contains(&placed.entry.gtid) {
            continue;
        }
        let body = body_of(alloc, room, bound, name, placed)?;
        send_body(
            alloc,
            output,
            name,
            &placed.entry,
            &body,
            &mut frame,
            &mut position,
        )?;
        room = body.room();
    }
    Ok(())
}
