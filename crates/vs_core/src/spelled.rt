//! A vector that keeps its message.
ghost use Rattle.std.specs.List.{position};
ghost use Rattle.std.specs.Prelude.{◌≡◌, IfOk, IsTrue, Some};
ghost use Rattle.vs_core.specs.Parts.{is_part_of};
ghost use Rattle.vs_gtid.specs.Text.{position_text};
ghost use Rattle.vs_gtid.specs.Vectors.{Place, Vector, moved, place_of, stands};
ghost use Rattle.vs_gtid.specs.Vectors.Place.{Streaming};
ghost use Rattle.vs_vector.specs.Messages.{shard_gtid_of, shard_gtids_of, vgtid_of};
ghost use Rattle.vs_vector.specs.Places.{entry_place};

use crate::OutOfMemory;
use std::alloc::Global;
use std::marker::Model;
use std::mem::replace;
use vs_base::{List, ShardName, Text};
use vs_gtid::GtidSet;
use vs_proto::{ShardGtid, VGtid};
use vs_vector::{ShardAt, Vector};

/// Room for the text of a position of one interval, so that it need not grow.
const SHORT_POSITION: usize = 96;

/// A vector and its message. Where one shard moves, only its part of the message is spelled anew. It is
/// seen as the vector.
#[derive(Drop)]
pub(crate) struct SpelledVector {
    vector: Vector,
    message: VGtid,
}

impl Model for SpelledVector {
    ghost use Rattle.std.specs.Prelude.{◌≡◌};
    ghost use Rattle.vs_gtid.specs.Vectors.{Vector};
    ghost use Rattle.vs_vector.specs.Messages.{vgtid_of};

    ghost Value = { Vector };

    ghost view = { λ s. s.vector };

    ghost invariant = { λ s. s.message ≡ vgtid_of s.vector };
}

/// The entry of a shard, and its part of the vector's message.
#[derive(Drop)]
pub(crate) struct SpelledEntry {
    pub at: ShardAt,
    pub part: ShardGtid,
}

impl SpelledVector {
    pub(crate) fn new(alloc: Global, vector: Vector) -> Result<SpelledVector, OutOfMemory>
        ensures { IfOk result (λ s. s ≡ vector) }
    {
        let message = vector.message(alloc)?;
        Ok(SpelledVector { vector, message })
    }

    pub(crate) fn as_vector(&self) -> &Vector
        ensures { result.now ≡ self.now }
    {
        &self.vector
    }

    pub(crate) fn message(&self) -> &VGtid
        ensures { result.now ≡ vgtid_of self.now }
    {
        &self.message
    }

    /// Puts another entry in the place of a shard's, and hands out the old one. It takes no memory.
    pub(crate) fn exchange(
        &mut self,
        alloc: Global,
        name: &ShardName,
        entry: SpelledEntry,
    ) -> SpelledEntry
        requires there { IsTrue (stands self.old name.now) }
        requires spelled { entry.part ≡ shard_gtid_of name.now (entry_place entry.at) }
        ensures new { self.new ≡ moved self.old name.now (entry_place entry.at) }
        ensures old { place_of self.old name.now ≡ Some (entry_place result.at) }
        ensures old_part { result.part ≡ shard_gtid_of name.now (entry_place result.at) }
    {
        let SpelledEntry { at, part } = entry;
        let mut parts = replace(&mut self.message.shard_gtids, List::new(alloc)).into_vec();
        let part = exchange_part(&mut parts, name, part);
        self.message.shard_gtids = List::from_vec(parts);
        let at = self.vector.exchange(name, at);
        SpelledEntry { at, part }
    }

    /// The same, with the message of the vector that this makes.
    pub(crate) fn exchange_all(&mut self, name: &ShardName, at: ShardAt, message: VGtid)
        requires there { IsTrue (stands self.old name.now) }
        requires spelled { message ≡ vgtid_of (moved self.old name.now (entry_place at)) }
        ensures { self.new ≡ moved self.old name.now (entry_place at) }
    {
        self.vector.exchange(name, at);
        self.message = message;
    }
}

/// Whether the part of a message is the shard's.
fn is_part_of(part: &ShardGtid, name: &ShardName) -> bool
    ensures { result ≡ is_part_of name.now part.now }
{
    part.keyspace == name.keyspace && part.shard == name.shard
}

/// The place of the shard's part.
fn place_of_part(parts: &[ShardGtid], name: &ShardName) -> Option<usize>
    ensures { result ≡ position (is_part_of name.now) parts.now }
{
    parts.iter().position(|part| is_part_of(part, name))
}

/// Puts another part in the place of the shard's, and hands out the old one.
fn exchange_part(parts: &mut Vec<ShardGtid>, name: &ShardName, part: ShardGtid) -> ShardGtid
    ensures new { (v : Vector) (p : Place) → IsTrue (stands v name.now) → parts.old.items ≡ shard_gtids_of v → part ≡ shard_gtid_of name.now p → parts.new.items ≡ shard_gtids_of (moved v name.now p) }
    ensures old { (v : Vector) (p : Place) → place_of v name.now ≡ Some p → parts.old.items ≡ shard_gtids_of v → result ≡ shard_gtid_of name.now p }
{
    match place_of_part(parts.as_slice(), name) {
        Some(i) => replace(&mut parts[i], part),
        None => part,
    }
}

/// The printed position.
fn position_text(alloc: Global, position: &GtidSet) -> Result<Text, OutOfMemory>
    ensures { IfOk result (λ t. t ≡ position_text position.now) }
{
    let mut text = Vec::with_capacity(alloc, SHORT_POSITION)?;
    text.extend_from_slice(b"MySQL56/")?;
    position.put_text(alloc, &mut text)?;
    Ok(Text::from_vec(text))
}

/// The part of a shard that streams from the position.
pub(crate) fn streaming_part(
    alloc: Global,
    name: &ShardName,
    position: &GtidSet,
) -> Result<ShardGtid, OutOfMemory>
    ensures { IfOk result (λ part. part ≡ shard_gtid_of name.now (Streaming position.now)) }
{
    Ok(ShardGtid {
        keyspace: name.keyspace.copy(alloc)?,
        shard: name.shard.copy(alloc)?,
        gtid: position_text(alloc, position)?,
        table_p_ks: List::new(alloc),
    })
}
