//! Frames that have no body.
ghost use Rattle.std.specs.Prelude.{◌≡◌, ◌++◌, ◌∷◌, Bool, IfOk, OnErr, OnOk, Some, [], if◌then◌else◌, map, pos};
ghost use Rattle.vs_gtid.specs.Vectors.{successors_of};
ghost use Rattle.vs_proto.specs.Frames.{message_bytes};
ghost use Rattle.vs_proto.specs.declared.event_kind.TheConstants.{COPY_COMPLETED, JOURNAL, VGTID};
ghost use Rattle.vs_render.specs.Events.{head_of, no_head, plain_event, vector_event};
ghost use Rattle.vs_render.specs.Journals.{journal_of};
ghost use Rattle.vs_core.specs.Framing.{journal_events, keyspace_shards};
ghost use Rattle.vs_core.specs.Machine.Sent.{SentBeat};
ghost use Rattle.vs_core.specs.Spelling.{sent_bytes};
ghost use Rattle.vs_vector.specs.Messages.{shard_gtids_of};

use crate::OutOfMemory;
use std::alloc::{AllocError, Global};
use vs_base::{List, ShardName, Text};
use vs_frame::{LIMIT, put_frame};
use vs_gtid::{JournalValue, Successor};
use vs_proto::{
    Journal, KeyspaceShard, ShardGtid, VEvent, VGtid, VStreamResponse, event_kind, write_response,
};
use vs_vector::Vector;

/// An event without a shard that says no more than its kind.
fn plain_event(alloc: Global, kind: i32) -> VEvent
    ensures { result ≡ plain_event no_head kind }
{
    VEvent {
        kind,
        timestamp: 0,
        gtid: Text::new(alloc),
        statement: Text::new(alloc),
        row_event: None,
        field_event: None,
        vgtid: None,
        journal: None,
        current_time: 0,
        keyspace: Text::new(alloc),
        shard: Text::new(alloc),
    }
}

/// An event of the shard that says no more than its kind.
fn shard_event(alloc: Global, name: &ShardName, time: u32, kind: i32) -> Result<VEvent, OutOfMemory>
    ensures { IfOk result (λ e. e ≡ plain_event (head_of name.now time) kind) }
{
    let keyspace = name.keyspace.copy(alloc)?;
    let shard = name.shard.copy(alloc)?;
    let event = plain_event(alloc, kind);
    Ok(VEvent {
        timestamp: i64::from(time),
        keyspace,
        shard,
        ..event
    })
}

/// Appends the message of the events, behind its length. One over the limit of a frame finds no
/// memory.
fn put_events(alloc: Global, out: &mut Vec<u8>, events: Vec<VEvent>) -> Result<(), OutOfMemory>
    ensures ok { OnOk result (out.new.items ≡ out.old.items ++ message_bytes events.items) }
    ensures err { OnErr result (out.new.items ≡ out.old.items) }
{
    let events = List::from_vec(events);
    let mut message = Vec::new(alloc);
    write_response(alloc, &mut message, &VStreamResponse { events })?;
    if message.len() > LIMIT as usize {
        return Err(AllocError);
    }
    put_frame(alloc, out, &message)
}

/// Appends the frame that says that all copies have ended.
pub(crate) fn put_all_copied(alloc: Global, out: &mut Vec<u8>) -> Result<(), OutOfMemory>
    ensures ok { OnOk result (out.new.items ≡ out.old.items ++ message_bytes (plain_event no_head COPY_COMPLETED ∷ [])) }
    ensures err { OnErr result (out.new.items ≡ out.old.items) }
{
    let mut events = Vec::new(alloc);
    events.push(plain_event(alloc, event_kind::COPY_COMPLETED))?;
    put_events(alloc, out, events)
}

/// Appends the frame of a heartbeat at this second. At want of memory nothing is appended.
pub fn put_beat(alloc: Global, out: &mut Vec<u8>, now: u64) -> Result<(), OutOfMemory>
    ensures ok { OnOk result ((journals : Bool) → out.new.items ≡ out.old.items ++ sent_bytes journals (SentBeat now)) }
    ensures err { OnErr result (out.new.items ≡ out.old.items) }
{
    let mut events = Vec::new(alloc);
    events.push(VEvent {
        current_time: now.cast_signed(),
        ..plain_event(alloc, event_kind::HEARTBEAT)
    })?;
    put_events(alloc, out, events)
}

/// Appends the frame that says that the shard's copy has ended.
pub(crate) fn put_copied(
    alloc: Global,
    out: &mut Vec<u8>,
    name: &ShardName,
    time: u32,
    vgtid: VGtid,
) -> Result<(), OutOfMemory>
    ensures ok { OnOk result (out.new.items ≡ out.old.items ++ message_bytes (vector_event (head_of name.now time) vgtid ∷ (plain_event (head_of name.now time) COPY_COMPLETED ∷ []))) }
    ensures err { OnErr result (out.new.items ≡ out.old.items) }
{
    let event = shard_event(alloc, name, time, event_kind::VGTID)?;
    let vector = VEvent {
        vgtid: Some(vgtid),
        ..event
    };
    let mut events = Vec::new(alloc);
    events.push(vector)?;
    events.push(shard_event(alloc, name, time, event_kind::COPY_COMPLETED)?)?;
    put_events(alloc, out, events)
}

/// The shards by their names.
fn keyspace_shards(alloc: Global, names: &[ShardName]) -> Result<Vec<KeyspaceShard>, OutOfMemory>
    ensures { IfOk result (λ s. s.items ≡ keyspace_shards names.now) }
{
    let mut shards = Vec::with_capacity(alloc, names.len())?;
    for name in names {
        shards.push(KeyspaceShard {
            keyspace: name.keyspace.copy(alloc)?,
            shard: name.shard.copy(alloc)?,
        })?;
    }
    Ok(shards)
}

/// The successors of a journal, each with its position.
fn successor_shards(alloc: Global, journal: &JournalValue) -> Result<List<ShardGtid>, OutOfMemory>
    ensures { IfOk result (λ s. s ≡ shard_gtids_of (successors_of journal.now)) }
{
    match Vector::new(alloc).replaced(&[], journal.successors.as_slice()) {
        Ok(begun) => {
            let VGtid { shard_gtids } = begun.message(alloc)?;
            Ok(shard_gtids)
        }
        Err(_) => Err(AllocError),
    }
}

/// The number of a journal's kind.
fn migration_type(shards: bool) -> i32
    ensures { result ≡ (if shards then pos 1 else pos 0) }
{
    if shards { 1 } else { 0 }
}

/// A journal as a message.
fn journal_message(alloc: Global, journal: &JournalValue) -> Result<Journal, OutOfMemory>
    ensures { IfOk result (λ m. m ≡ journal_of journal.now) }
{
    let participants = keyspace_shards(alloc, journal.participants.as_slice())?;
    Ok(Journal {
        id: journal.id,
        migration_type: migration_type(journal.shards),
        tables: List::new(alloc),
        local_position: Text::new(alloc),
        shard_gtids: successor_shards(alloc, journal)?,
        participants: List::from_vec(participants),
    })
}

/// Appends the frame of a journal, which is told or not, with the vector.
pub(crate) fn put_journal(
    alloc: Global,
    out: &mut Vec<u8>,
    told: bool,
    journal: &JournalValue,
    vgtid: VGtid,
) -> Result<(), OutOfMemory>
    ensures ok { OnOk result (out.new.items ≡ out.old.items ++ message_bytes (journal_events told journal.now ++ vector_event no_head vgtid ∷ [])) }
    ensures err { OnErr result (out.new.items ≡ out.old.items) }
{
    let mut events = journal_event(alloc, told, journal)?;
    events.push(VEvent {
        vgtid: Some(vgtid),
        ..plain_event(alloc, event_kind::VGTID)
    })?;
    put_events(alloc, out, events)
}

/// The event of a journal, if it is told.
fn journal_event(
    alloc: Global,
    told: bool,
    journal: &JournalValue,
) -> Result<Vec<VEvent>, OutOfMemory>
    ensures { IfOk result (λ events. events.items ≡ journal_events told journal.now) }
{
    let mut events = Vec::new(alloc);
    if told {
        events.push(VEvent {
            journal: Some(journal_message(alloc, journal)?),
            ..plain_event(alloc, event_kind::JOURNAL)
        })?;
    }
    Ok(events)
}
