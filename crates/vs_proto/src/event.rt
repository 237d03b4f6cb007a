ghost use Rattle.std.specs.Prelude.{true};
ghost use Rattle.vs_proto.specs.Tables.{event, response};

use crate::OutOfMemory;
use crate::backward::Backward;
use crate::column::FieldEvent;
use crate::journal::Journal;
use crate::message::Message;
use crate::nested::{put_more, put_one, take_more, take_one};
use crate::number::{put_enum, put_i64, take_enum, take_i64};
use crate::refusal::Stop;
use crate::row::RowEvent;
use crate::text::{put_text, take_string};
use crate::vgtid::VGtid;
use std::alloc::Global;
use vs_base::{List, Text};
use vs_wire::FieldValue;

/// One event of a frame. Which fields it has depends on its kind.
#[derive(Debug, Drop, PartialEq, Eq)]
pub struct VEvent {
    pub kind: i32,
    pub timestamp: i64,
    pub gtid: Text,
    pub statement: Text,
    pub row_event: Option<RowEvent>,
    pub field_event: Option<FieldEvent>,
    pub vgtid: Option<VGtid>,
    pub journal: Option<Journal>,
    pub current_time: i64,
    pub keyspace: Text,
    pub shard: Text,
}

/// The events of a frame.
#[derive(Debug, Drop, PartialEq, Eq)]
pub struct VStreamResponse {
    pub events: List<VEvent>,
}

#[tactic(auto, unfolding(crate::specs::Tables::event))]
impl Message for VEvent {
    ghost shape = { event true };

    fn empty(alloc: Global) -> VEvent {
        VEvent {
            kind: 0,
            timestamp: 0,
            gtid: Text::new(alloc),
            statement: Text::new(alloc),
            row_event: None,
            field_event: None,
            vgtid: None,
            journal: None,
            current_time: 0,
            keyspace: Text::new(alloc),
            shard: Text::new(alloc),
        }
    }

    fn is_whole(&self) -> bool {
        true
    }

    fn take(&mut self, alloc: Global, number: u32, value: FieldValue<'_>) -> Result<(), Stop> {
        match number {
            1 => take_enum(&mut self.kind, value),
            2 => take_i64(&mut self.timestamp, value),
            3 => take_string(alloc, &mut self.gtid, value),
            4 => take_string(alloc, &mut self.statement, value),
            5 => take_one(alloc, &mut self.row_event, value),
            6 => take_one(alloc, &mut self.field_event, value),
            7 => take_one(alloc, &mut self.vgtid, value),
            8 => take_one(alloc, &mut self.journal, value),
            20 => take_i64(&mut self.current_time, value),
            22 => take_string(alloc, &mut self.keyspace, value),
            23 => take_string(alloc, &mut self.shard, value),
            _ => Ok(()),
        }
    }

    fn put(&self, out: &mut Backward) -> Result<(), OutOfMemory> {
        put_text(out, 23, &self.shard)?;
        put_text(out, 22, &self.keyspace)?;
        put_i64(out, 20, &self.current_time)?;
        put_one(out, 8, &self.journal)?;
        put_one(out, 7, &self.vgtid)?;
        put_one(out, 6, &self.field_event)?;
        put_one(out, 5, &self.row_event)?;
        put_text(out, 4, &self.statement)?;
        put_text(out, 3, &self.gtid)?;
        put_i64(out, 2, &self.timestamp)?;
        put_enum(out, 1, &self.kind)
    }
}

#[tactic(auto, unfolding(crate::specs::Tables::response))]
impl Message for VStreamResponse {
    ghost shape = { response true };

    fn empty(alloc: Global) -> VStreamResponse {
        VStreamResponse {
            events: List::new(alloc),
        }
    }

    fn is_whole(&self) -> bool {
        true
    }

    fn take(&mut self, alloc: Global, number: u32, value: FieldValue<'_>) -> Result<(), Stop> {
        match number {
            1 => take_more(alloc, &mut self.events, value),
            _ => Ok(()),
        }
    }

    fn put(&self, out: &mut Backward) -> Result<(), OutOfMemory> {
        put_more(out, 1, &self.events)
    }
}
