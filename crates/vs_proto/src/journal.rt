ghost use Rattle.std.specs.Prelude.{true};
ghost use Rattle.vs_proto.specs.Tables.{journal, keyspace_shard};

use crate::OutOfMemory;
use crate::backward::Backward;
use crate::message::Message;
use crate::nested::{put_more, take_more};
use crate::number::{put_enum, put_i64, take_enum, take_i64};
use crate::refusal::Stop;
use crate::text::{put_text, put_texts, take_string, take_strings};
use crate::vgtid::ShardGtid;
use std::alloc::Global;
use vs_base::{List, Text};
use vs_wire::FieldValue;

/// A shard by its names.
#[derive(Debug, Drop, PartialEq, Eq)]
pub struct KeyspaceShard {
    pub keyspace: Text,
    pub shard: Text,
}

/// A reshard journal: the shards that end, and those that go on, each with its position.
#[derive(Debug, Drop, PartialEq, Eq)]
pub struct Journal {
    pub id: i64,
    pub migration_type: i32,
    pub tables: List<Text>,
    pub local_position: Text,
    pub shard_gtids: List<ShardGtid>,
    pub participants: List<KeyspaceShard>,
}

#[tactic(auto, unfolding(crate::specs::Tables::keyspace_shard))]
impl Message for KeyspaceShard {
    ghost shape = { keyspace_shard true };

    fn empty(alloc: Global) -> KeyspaceShard {
        KeyspaceShard {
            keyspace: Text::new(alloc),
            shard: Text::new(alloc),
        }
    }

    fn is_whole(&self) -> bool {
        true
    }

    fn take(&mut self, alloc: Global, number: u32, value: FieldValue<'_>) -> Result<(), Stop> {
        match number {
            1 => take_string(alloc, &mut self.keyspace, value),
            2 => take_string(alloc, &mut self.shard, value),
            _ => Ok(()),
        }
    }

    fn put(&self, out: &mut Backward) -> Result<(), OutOfMemory> {
        put_text(out, 2, &self.shard)?;
        put_text(out, 1, &self.keyspace)
    }
}

#[tactic(auto, unfolding(crate::specs::Tables::journal))]
impl Message for Journal {
    ghost shape = { journal true };

    fn empty(alloc: Global) -> Journal {
        Journal {
            id: 0,
            migration_type: 0,
            tables: List::new(alloc),
            local_position: Text::new(alloc),
            shard_gtids: List::new(alloc),
            participants: List::new(alloc),
        }
    }

    fn is_whole(&self) -> bool {
        true
    }

    fn take(&mut self, alloc: Global, number: u32, value: FieldValue<'_>) -> Result<(), Stop> {
        match number {
            1 => take_i64(&mut self.id, value),
            2 => take_enum(&mut self.migration_type, value),
            3 => take_strings(alloc, &mut self.tables, value),
            4 => take_string(alloc, &mut self.local_position, value),
            5 => take_more(alloc, &mut self.shard_gtids, value),
            6 => take_more(alloc, &mut self.participants, value),
            _ => Ok(()),
        }
    }

    fn put(&self, out: &mut Backward) -> Result<(), OutOfMemory> {
        put_more(out, 6, &self.participants)?;
        put_more(out, 5, &self.shard_gtids)?;
        put_text(out, 4, &self.local_position)?;
        put_texts(out, 3, &self.tables)?;
        put_enum(out, 2, &self.migration_type)?;
        put_i64(out, 1, &self.id)
    }
}
