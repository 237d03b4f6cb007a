ghost use Rattle.std.specs.Prelude.{true};
ghost use Rattle.vs_proto.specs.Tables.{field, field_event};

use crate::OutOfMemory;
use crate::backward::Backward;
use crate::message::Message;
use crate::nested::{put_more, take_more};
use crate::number::{put_enum, put_i64, take_enum};
use crate::refusal::Stop;
use crate::text::{put_text, take_string};
use std::alloc::Global;
use vs_base::{List, Text};
use vs_wire::FieldValue;

/// A column of a table: its name, and the number of its type.
#[derive(Debug, Drop, PartialEq, Eq)]
pub struct Field {
    pub name: Text,
    pub kind: i32,
}

/// The columns of a table.
#[derive(Debug, Drop, PartialEq, Eq)]
pub struct FieldEvent {
    pub table_name: Text,
    pub fields: List<Field>,
}

#[tactic(auto, unfolding(crate::specs::Tables::field))]
impl Message for Field {
    ghost shape = { field true };

    fn empty(alloc: Global) -> Field {
        Field {
            name: Text::new(alloc),
            kind: 0,
        }
    }

    fn is_whole(&self) -> bool {
        true
    }

    fn take(&mut self, alloc: Global, number: u32, value: FieldValue<'_>) -> Result<(), Stop> {
        match number {
            1 => take_string(alloc, &mut self.name, value),
            2 => take_enum(&mut self.kind, value),
            _ => Ok(()),
        }
    }

    fn put(&self, out: &mut Backward) -> Result<(), OutOfMemory> {
        put_enum(out, 2, &self.kind)?;
        put_text(out, 1, &self.name)
    }
}

#[tactic(auto, unfolding(crate::specs::Tables::field_event))]
impl Message for FieldEvent {
    ghost shape = { field_event true };

    fn empty(alloc: Global) -> FieldEvent {
        FieldEvent {
            table_name: Text::new(alloc),
            fields: List::new(alloc),
        }
    }

    fn is_whole(&self) -> bool {
        true
    }

    fn take(&mut self, alloc: Global, number: u32, value: FieldValue<'_>) -> Result<(), Stop> {
        match number {
            1 => take_string(alloc, &mut self.table_name, value),
            2 => take_more(alloc, &mut self.fields, value),
            _ => Ok(()),
        }
    }

    fn put(&self, out: &mut Backward) -> Result<(), OutOfMemory> {
        put_more(out, 2, &self.fields)?;
        put_text(out, 1, &self.table_name)
    }
}
