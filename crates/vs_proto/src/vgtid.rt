ghost use Rattle.std.specs.Prelude.{true};
ghost use Rattle.vs_proto.specs.Tables.{shard_gtid, table_key, vgtid};

use crate::OutOfMemory;
use crate::backward::Backward;
use crate::message::Message;
use crate::nested::{put_more, put_one, take_more, take_one};
use crate::refusal::Stop;
use crate::row::Row;
use crate::text::{put_text, take_string};
use std::alloc::Global;
use vs_base::{List, Text};
use vs_wire::FieldValue;

/// The key of the last row that was copied of a table.
#[derive(Debug, Drop, PartialEq, Eq)]
pub struct TableKey {
    pub table_name: Text,
    pub key: Option<Row>,
}

/// A shard and its position.
#[derive(Debug, Drop, PartialEq, Eq)]
pub struct ShardGtid {
    pub keyspace: Text,
    pub shard: Text,
    pub gtid: Text,
    pub table_p_ks: List<TableKey>,
}

/// A position vector.
#[derive(Debug, Drop, PartialEq, Eq)]
pub struct VGtid {
    pub shard_gtids: List<ShardGtid>,
}

#[tactic(auto, unfolding(crate::specs::Tables::table_key))]
impl Message for TableKey {
    ghost shape = { table_key true };

    fn empty(alloc: Global) -> TableKey {
        TableKey {
            table_name: Text::new(alloc),
            key: None,
        }
    }

    fn is_whole(&self) -> bool {
        true
    }

    fn take(&mut self, alloc: Global, number: u32, value: FieldValue<'_>) -> Result<(), Stop> {
        match number {
            1 => take_string(alloc, &mut self.table_name, value),
            2 => take_one(alloc, &mut self.key, value),
            _ => Ok(()),
        }
    }

    fn put(&self, out: &mut Backward) -> Result<(), OutOfMemory> {
        put_one(out, 2, &self.key)?;
        put_text(out, 1, &self.table_name)
    }
}

#[tactic(auto, unfolding(crate::specs::Tables::shard_gtid))]
impl Message for ShardGtid {
    ghost shape = { shard_gtid true };

    fn empty(alloc: Global) -> ShardGtid {
        ShardGtid {
            keyspace: Text::new(alloc),
            shard: Text::new(alloc),
            gtid: Text::new(alloc),
            table_p_ks: List::new(alloc),
        }
    }

    fn is_whole(&self) -> bool {
        true
    }

    fn take(&mut self, alloc: Global, number: u32, value: FieldValue<'_>) -> Result<(), Stop> {
        match number {
            1 => take_string(alloc, &mut self.keyspace, value),
            2 => take_string(alloc, &mut self.shard, value),
            3 => take_string(alloc, &mut self.gtid, value),
            4 => take_more(alloc, &mut self.table_p_ks, value),
            _ => Ok(()),
        }
    }

    fn put(&self, out: &mut Backward) -> Result<(), OutOfMemory> {
        put_more(out, 4, &self.table_p_ks)?;
        put_text(out, 3, &self.gtid)?;
        put_text(out, 2, &self.shard)?;
        put_text(out, 1, &self.keyspace)
    }
}

#[tactic(auto, unfolding(crate::specs::Tables::vgtid))]
impl Message for VGtid {
    ghost shape = { vgtid true };

    fn empty(alloc: Global) -> VGtid {
        VGtid {
            shard_gtids: List::new(alloc),
        }
    }

    fn is_whole(&self) -> bool {
        true
    }

    fn take(&mut self, alloc: Global, number: u32, value: FieldValue<'_>) -> Result<(), Stop> {
        match number {
            1 => take_more(alloc, &mut self.shard_gtids, value),
            _ => Ok(()),
        }
    }

    fn put(&self, out: &mut Backward) -> Result<(), OutOfMemory> {
        put_more(out, 1, &self.shard_gtids)
    }
}
