//! Pieces that move their shard's entry in the vector.
ghost use Rattle.std.specs.Prelude.{◌≡◌, ◌++◌, ◌⊎◌, ◌∷◌, [], IfErr, IfOk, IsTrue, OnErr, OnOk, Err, Ok, slice_get};
ghost use Rattle.vs_core.specs.Machine.{handled_of};
ghost use Rattle.vs_core.specs.Tells.{IsHandled};
ghost use Rattle.vs_gtid.specs.Vectors.{moved, stands};
ghost use Rattle.vs_gtid.specs.Vectors.Place.{Copying, Streaming};
ghost use Rattle.vs_proto.specs.Frames.{message_bytes};
ghost use Rattle.vs_proto.specs.declared.event_kind.TheConstants.{COPY_COMPLETED};
ghost use Rattle.vs_render.specs.Bodies.{frame_with};
ghost use Rattle.vs_render.specs.Events.{head_of, plain_event, vector_event};
ghost use Rattle.vs_render.specs.declared.piece.Piece.TheVariants as piece;
ghost use Rattle.vs_render.specs.declared.room.Room.{Room};
ghost use Rattle.vs_vector.specs.Changes.{advanced_place, set_to};
ghost use Rattle.vs_vector.specs.Messages.{shard_gtid_of, vgtid_of};
ghost use Rattle.vs_vector.specs.Places.{entry_place};

use crate::frames::put_copied;
use crate::gate::Gate;
use crate::handled::Handled;
use crate::scans::some_copies;
use crate::spelled::{SpelledEntry, SpelledVector, streaming_part};
use crate::{CoreRefusal, OutOfMemory};
use std::alloc::{AllocError, Global};
use vs_base::{Gtid, LastKey, ShardName};
use vs_gtid::{GtidSet, JournalValue};
use vs_render::{Body, put_frame_with};
use vs_vector::{Place, ShardAt, Vector, VectorRefusal};

impl Gate {
    /// A transaction.
    pub(crate) fn tx(
        &mut self,
        alloc: Global,
        out: &mut Vec<u8>,
        lane: usize,
        gtid: Gtid,
        time: u32,
        body: &Body,
    ) -> Result<Handled, CoreRefusal>
        ensures { IsHandled lane (handled_of self.old lane (slice_get self.old.names lane) (piece.Tx gtid time body.now)) self.old self.new out.old.items out.new.items result }
    {
        match self.names.get(lane) {
            Some(name) => {
                let at = advanced_entry(alloc, self.vector.as_vector(), name, gtid)?;
                send_moved(alloc, out, &mut self.vector, name, at, time, body)?;
                Ok(Handled::Frame)
            }
            None => Err(CoreRefusal::Memory),
        }
    }

    /// A transaction that wrote a journal in which its shard takes no part.
    pub(crate) fn foreign(
        &mut self,
        alloc: Global,
        out: &mut Vec<u8>,
        lane: usize,
        gtid: Gtid,
        time: u32,
        journal: &JournalValue,
        body: &Body,
    ) -> Result<Handled, CoreRefusal>
        ensures { IsHandled lane (handled_of self.old lane (slice_get self.old.names lane) (piece.Foreign gtid time journal.now body.now)) self.old self.new out.old.items out.new.items result }
    {
        match self.names.get(lane) {
            Some(name) => {
                if self.gather.foreign(self.vector.as_vector(), name, journal) {
                    return Err(CoreRefusal::Stranger {
                        id: journal.id,
                        shard: name.copy(alloc)?,
                    });
                }
                let at = advanced_entry(alloc, self.vector.as_vector(), name, gtid)?;
                send_moved(alloc, out, &mut self.vector, name, at, time, body)?;
                Ok(Handled::Frame)
            }
            None => Err(CoreRefusal::Memory),
        }
    }

    /// Rows of a copy.
    pub(crate) fn chunk(
        &mut self,
        alloc: Global,
        out: &mut Vec<u8>,
        lane: usize,
        position: &GtidSet,
        last_key: &LastKey,
        time: u32,
        body: &Body,
    ) -> Result<Handled, CoreRefusal>
        ensures { IsHandled lane (handled_of self.old lane (slice_get self.old.names lane) (piece.Chunk position.now last_key.now time body.now)) self.old self.new out.old.items out.new.items result }
    {
        match self.names.get(lane) {
            Some(name) => {
                let at = copying_entry(alloc, self.vector.as_vector(), name, position, last_key)?;
                send_moved(alloc, out, &mut self.vector, name, at, time, body)?;
                Ok(Handled::Frame)
            }
            None => Err(CoreRefusal::Memory),
        }
    }

    /// The copy of the shard has ended.
    pub(crate) fn copy_done(
        &mut self,
        alloc: Global,
        out: &mut Vec<u8>,
        lane: usize,
        position: &GtidSet,
        time: u32,
    ) -> Result<Handled, CoreRefusal>
        ensures { (room : Room) → IsHandled lane (handled_of self.old lane (slice_get self.old.names lane) (piece.CopyDone position.now time room)) self.old self.new out.old.items out.new.items result }
    {
        match self.names.get(lane) {
            Some(name) => {
                if !self.vector.as_vector().stands(name) {
                    return Err(CoreRefusal::Memory);
                }
                let at = streaming_entry(alloc, position)?;
                send_copied(alloc, out, &mut self.vector, name, at, time)?;
                self.all_copied = !some_copies(self.vector.as_vector());
                Ok(Handled::Frame)
            }
            None => Err(CoreRefusal::Memory),
        }
    }
}

/// The entry of the shard with the GTID too.
fn advanced_entry(
    alloc: Global,
    vector: &Vector,
    name: &ShardName,
    gtid: Gtid,
) -> Result<ShardAt, CoreRefusal>
    ensures ok { IfOk result (λ at. advanced_place vector.now name.now gtid ≡ Ok (entry_place at)) }
    ensures err { IfErr result (λ e. (e ≡ CoreRefusal.Memory) ⊎ ((advanced_place vector.now name.now gtid ≡ Err VectorRefusal.TooManyIntervals) × (e ≡ CoreRefusal.PositionTooLarge name.now))) }
{
    match vector.entry_with(name, gtid) {
        Ok(at) => Ok(at),
        Err(VectorRefusal::TooManyIntervals) => Err(CoreRefusal::PositionTooLarge {
            name: name.copy(alloc)?,
        }),
        Err(_) => Err(CoreRefusal::Memory),
    }
}

/// The entry of a shard of the vector that copies, and has come to the last key.
fn copying_entry(
    alloc: Global,
    vector: &Vector,
    name: &ShardName,
    position: &GtidSet,
    last_key: &LastKey,
) -> Result<ShardAt, OutOfMemory>
    ensures stands { OnOk result (IsTrue (stands vector.now name.now)) }
    ensures ok { IfOk result (λ at. set_to vector.now name.now (Copying position.now last_key.now) ≡ Ok (moved vector.now name.now (entry_place at))) }
{
    if !vector.stands(name) {
        return Err(AllocError);
    }
    Ok(ShardAt {
        start: Place::At(position.copy(alloc)?),
        last_key: Some(last_key.copy(alloc)?),
    })
}

/// The entry of a shard that streams from the position.
fn streaming_entry(alloc: Global, position: &GtidSet) -> Result<ShardAt, OutOfMemory>
    ensures { IfOk result (λ at. entry_place at ≡ Streaming position.now) }
{
    Ok(ShardAt {
        start: Place::At(position.copy(alloc)?),
        last_key: None,
    })
}

/// Writes the frame of a body, with the vector in which the shard has another entry, and gives it
/// that entry.
fn send_moved(
    alloc: Global,
    out: &mut Vec<u8>,
    vector: &mut SpelledVector,
    name: &ShardName,
    at: ShardAt,
    time: u32,
    body: &Body,
) -> Result<(), OutOfMemory>
    requires { IsTrue (stands vector.old name.now) }
    ensures moves { OnOk result (vector.new ≡ moved vector.old name.now (entry_place at)) }
    ensures sends { OnOk result (out.new.items ≡ out.old.items ++ frame_with (head_of name.now time) (moved vector.old name.now (entry_place at)) body.now.body) }
    ensures unchanged { OnErr result ((vector.new ≡ vector.old) × (out.new.items ≡ out.old.items)) }
{
    match &at {
        ShardAt {
            start: Place::At(position),
            last_key: None,
        } => {
            let part = streaming_part(alloc, name, position)?;
            send_exchanged(
                alloc,
                out,
                vector,
                name,
                SpelledEntry { at, part },
                time,
                body,
            )
        }
        _ => {
            let message = vector.as_vector().message_with(alloc, name, &at)?;
            put_frame_with(alloc, out, name, time, &message, body)?;
            vector.exchange_all(name, at, message);
            Ok(())
        }
    }
}

/// The same of an entry whose part of the message is spelled.
fn send_exchanged(
    alloc: Global,
    out: &mut Vec<u8>,
    vector: &mut SpelledVector,
    name: &ShardName,
    entry: SpelledEntry,
    time: u32,
    body: &Body,
) -> Result<(), OutOfMemory>
    requires there { IsTrue (stands vector.old name.now) }
    requires spelled { entry.part ≡ shard_gtid_of name.now (entry_place entry.at) }
    ensures moves { OnOk result (vector.new ≡ moved vector.old name.now (entry_place entry.at)) }
    ensures sends { OnOk result (out.new.items ≡ out.old.items ++ frame_with (head_of name.now time) (moved vector.old name.now (entry_place entry.at)) body.now.body) }
    ensures unchanged { OnErr result ((vector.new ≡ vector.old) × (out.new.items ≡ out.old.items)) }
{
    let old = vector.exchange(alloc, name, entry);
    match put_frame_with(alloc, out, name, time, vector.message(), body) {
        Ok(()) => Ok(()),
        Err(e) => {
            vector.exchange(alloc, name, old);
            Err(e)
        }
    }
}

/// Writes the frame of the end of a copy, with the vector in which the shard has another entry, and
/// gives it that entry.
fn send_copied(
    alloc: Global,
    out: &mut Vec<u8>,
    vector: &mut SpelledVector,
    name: &ShardName,
    at: ShardAt,
    time: u32,
) -> Result<(), OutOfMemory>
    requires { IsTrue (stands vector.old name.now) }
    ensures moves { OnOk result (vector.new ≡ moved vector.old name.now (entry_place at)) }
    ensures sends { OnOk result (out.new.items ≡ out.old.items ++ message_bytes (vector_event (head_of name.now time) (vgtid_of (moved vector.old name.now (entry_place at))) ∷ (plain_event (head_of name.now time) COPY_COMPLETED ∷ []))) }
    ensures unchanged { OnErr result ((vector.new ≡ vector.old) × (out.new.items ≡ out.old.items)) }
{
    let message = vector.as_vector().message_with(alloc, name, &at)?;
    let sent = vector.as_vector().message_with(alloc, name, &at)?;
    put_copied(alloc, out, name, time, sent)?;
    vector.exchange_all(name, at, message);
    Ok(())
}
