ghost use Rattle.std.specs.Prelude.{true};
ghost use Rattle.vs_proto.specs.Tables.{row, row_change, row_event};

use crate::OutOfMemory;
use crate::backward::Backward;
use crate::cells::is_filled;
use crate::message::Message;
use crate::nested::{put_more, put_one, take_more, take_one};
use crate::packed::{put_sint64s, take_sint64s};
use crate::refusal::Stop;
use crate::text::{put_text, take_blob, take_string};
use std::alloc::Global;
use vs_base::{List, Text};
use vs_wire::FieldValue;

/// The cells of a row: their lengths, of which NULL has -1, and their bytes one after the other.
#[derive(Debug, Drop, PartialEq, Eq)]
pub struct Row {
    pub lengths: List<i64>,
    pub values: Text,
}

/// A row before and after its change.
#[derive(Debug, Drop, PartialEq, Eq)]
pub struct RowChange {
    pub before: Option<Row>,
    pub after: Option<Row>,
}

/// Changes of rows of one table.
#[derive(Debug, Drop, PartialEq, Eq)]
pub struct RowEvent {
    pub table_name: Text,
    pub row_changes: List<RowChange>,
}

#[tactic(auto, unfolding(crate::specs::Tables::row))]
impl Message for Row {
    ghost shape = { row true };

    fn empty(alloc: Global) -> Row {
        Row {
            lengths: List::new(alloc),
            values: Text::new(alloc),
        }
    }

    fn is_whole(&self) -> bool {
        is_filled(self.lengths.as_slice(), self.values.as_bytes().len())
    }

    fn take(&mut self, alloc: Global, number: u32, value: FieldValue<'_>) -> Result<(), Stop> {
        match number {
            1 => take_sint64s(&mut self.lengths, value),
            2 => take_blob(alloc, &mut self.values, value),
            _ => Ok(()),
        }
    }

    fn put(&self, out: &mut Backward) -> Result<(), OutOfMemory> {
        put_text(out, 2, &self.values)?;
        put_sint64s(out, 1, &self.lengths)
    }
}

#[tactic(auto, unfolding(crate::specs::Tables::row_change))]
impl Message for RowChange {
    ghost shape = { row_change true };

    fn empty(_alloc: Global) -> RowChange {
        RowChange {
            before: None,
            after: None,
        }
    }

    fn is_whole(&self) -> bool {
        true
    }

    fn take(&mut self, alloc: Global, number: u32, value: FieldValue<'_>) -> Result<(), Stop> {
        match number {
            1 => take_one(alloc, &mut self.before, value),
            2 => take_one(alloc, &mut self.after, value),
            _ => Ok(()),
        }
    }

    fn put(&self, out: &mut Backward) -> Result<(), OutOfMemory> {
        put_one(out, 2, &self.after)?;
        put_one(out, 1, &self.before)
    }
}

#[tactic(auto, unfolding(crate::specs::Tables::row_event))]
impl Message for RowEvent {
    ghost shape = { row_event true };

    fn empty(alloc: Global) -> RowEvent {
        RowEvent {
            table_name: Text::new(alloc),
            row_changes: List::new(alloc),
        }
    }

    fn is_whole(&self) -> bool {
        true
    }

    fn take(&mut self, alloc: Global, number: u32, value: FieldValue<'_>) -> Result<(), Stop> {
        match number {
            1 => take_string(alloc, &mut self.table_name, value),
            2 => take_more(alloc, &mut self.row_changes, value),
            _ => Ok(()),
        }
    }

    fn put(&self, out: &mut Backward) -> Result<(), OutOfMemory> {
        put_more(out, 2, &self.row_changes)?;
        put_text(out, 1, &self.table_name)
    }
}
