//! A vector as a message.
ghost use Rattle.std.specs.Prelude.{◌≡◌, IfOk, if◌then◌else◌};
ghost use Rattle.vs_gtid.specs.Vectors.{moved};
ghost use Rattle.vs_vector.specs.Messages.{last_key_of, row_of, shard_gtid_of, vgtid_of};
ghost use Rattle.vs_vector.specs.Places.{entry_place};
ghost use Rattle.vs_base.specs.Names.{same_name};
ghost use Rattle.vs_gtid.specs.Text.{position_text};

use crate::{OutOfMemory, Place, ShardAt, Vector};
use std::alloc::Global;
use vs_base::{Cell, LastKey, List, ShardName, Text};
use vs_gtid::GtidSet;
use vs_proto::{Row, ShardGtid, TableKey, VGtid};

/// Room for the text of a position of one interval, so that it need not grow.
const SHORT_POSITION: usize = 96;

/// A row: the lengths of its cells, and their bytes.
fn row(alloc: Global, cells: &[Cell]) -> Result<Row, OutOfMemory>
    ensures { IfOk result (λ r. r ≡ row_of cells.now) }
{
    let mut lengths = Vec::new(alloc);
    let mut values = Vec::new(alloc);
    for cell in cells {
        match cell {
            Cell::Null => lengths.push(-1)?,
            Cell::Bytes(bytes) => {
                lengths.push(bytes.as_bytes().len() as i64)?;
                values.extend_from_slice(bytes.as_bytes())?;
            }
        }
    }
    Ok(Row {
        lengths: List::from_vec(lengths),
        values: Text::from_vec(values),
    })
}

fn table_key(alloc: Global, last: &LastKey) -> Result<TableKey, OutOfMemory>
    ensures { IfOk result (λ k. k ≡ last_key_of last.now) }
{
    Ok(TableKey {
        table_name: last.table.copy(alloc)?,
        key: Some(row(alloc, last.key.cells())?),
    })
}

/// The printed position.
fn position_text(alloc: Global, position: &GtidSet) -> Result<Text, OutOfMemory>
    ensures { IfOk result (λ t. t ≡ position_text position.now) }
{
    let mut text = Vec::with_capacity(alloc, SHORT_POSITION)?;
    text.extend_from_slice(b"MySQL56/")?;
    position.put_text(alloc, &mut text)?;
    Ok(Text::from_vec(text))
}

/// A shard of a vector, with its position and its last key.
fn shard_gtid(alloc: Global, name: &ShardName, at: &ShardAt) -> Result<ShardGtid, OutOfMemory>
    ensures { IfOk result (λ s. s ≡ shard_gtid_of name.now (entry_place at.now)) }
{
    let mut keys = Vec::new(alloc);
    let gtid = match &at.start {
        Place::Fresh => Text::new(alloc),
        Place::At(position) => {
            if let Some(last) = &at.last_key {
                keys.push(table_key(alloc, last)?)?;
            }
            position_text(alloc, position)?
        }
    };
    Ok(ShardGtid {
        keyspace: name.keyspace.copy(alloc)?,
        shard: name.shard.copy(alloc)?,
        gtid,
        table_p_ks: List::from_vec(keys),
    })
}

/// The entry of a shard of a vector in which the name has another one.
fn entry_for<'a>(
    name: &ShardName,
    at: &'a ShardAt,
    shard: &ShardName,
    entry: &'a ShardAt,
) -> &'a ShardAt
    ensures { entry_place result.now ≡ (if same_name shard.now name.now then entry_place at.now else entry_place entry.now) }
{
    if shard.is_same(name) { at } else { entry }
}

impl Vector {
    /// The vector as a message.
    pub fn message(&self, alloc: Global) -> Result<VGtid, OutOfMemory>
        ensures { IfOk result (λ m. m ≡ vgtid_of self.now) }
    {
        let mut shards = Vec::with_capacity(alloc, self.len())?;
        for (name, at) in self.entries.iter() {
            shards.push(shard_gtid(alloc, name, at)?)?;
        }
        Ok(VGtid {
            shard_gtids: List::from_vec(shards),
        })
    }

    /// The message of the vector in which the shard has this entry.
    pub fn message_with(
        &self,
        alloc: Global,
        name: &ShardName,
        at: &ShardAt,
    ) -> Result<VGtid, OutOfMemory>
        ensures { IfOk result (λ m. m ≡ vgtid_of (moved self.now name.now (entry_place at.now))) }
    {
        let mut shards = Vec::with_capacity(alloc, self.len())?;
        for (shard, entry) in self.entries.iter() {
            let entry = entry_for(name, at, shard, entry);
            shards.push(shard_gtid(alloc, shard, entry)?)?;
        }
        Ok(VGtid {
            shard_gtids: List::from_vec(shards),
        })
    }
}
