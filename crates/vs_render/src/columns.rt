//! The FIELD event of a table, spelled once for all its changes in a row.
ghost use Rattle.std.specs.Prelude.{◌≡◌, ◌++◌, [], ◌∷◌, OnOk, map, true};
ghost use Rattle.vs_proto.specs.Shapes.{all_set, spelling, values_bytes};
ghost use Rattle.vs_wire.specs.Fields.{field_bytes, sized};
ghost use Rattle.vs_proto.specs.Tables.{field};
ghost use Rattle.vs_render.specs.Bodies.{columns_in};
ghost use Rattle.vs_render.specs.Events.{Columns, field_of, head_of};
ghost use Rattle.vs_render.specs.Spelling.{said_bytes};

use crate::OutOfMemory;
use crate::events::type_number;
use crate::spelled::{FIRST_ROOM, find_picked, put_table_name};
use crate::spelling::{close_event, enclose, put_nonzero, put_start, put_text};
use std::alloc::Global;
use vs_base::{Column, ShardName};
use vs_filter::Bound;
use vs_proto::event_kind;

/// The FIELD event of a table.
#[derive(Debug, Drop)]
pub(crate) struct SpelledColumns {
    /// The event, as it stands in a message.
    pub bytes: Vec<u8>,
}

/// Appends the message of a column.
fn put_column(alloc: Global, out: &mut Vec<u8>, column: &Column) -> Result<(), OutOfMemory>
    ensures { OnOk result (out.new.items ≡ out.old.items ++ field_bytes 2 (sized (spelling (field true) (field_of column.now)))) }
{
    let start = out.len();
    put_text(alloc, out, 1, column.name.as_bytes())?;
    put_nonzero(
        alloc,
        out,
        2,
        i64::from(type_number(column.kind)).cast_unsigned(),
    )?;
    enclose(alloc, out, start, 2)?;
    Ok(())
}

/// Appends the fields of the columns.
fn put_columns(alloc: Global, out: &mut Vec<u8>, columns: &[Column]) -> Result<(), OutOfMemory>
    ensures { OnOk result (out.new.items ≡ out.old.items ++ values_bytes 2 (all_set (field true) (map field_of columns.now))) }
{
    for column in columns {
        put_column(alloc, out, column)?;
    }
    Ok(())
}

/// Appends the fields of the columns that leave of a table.
fn put_taken(
    alloc: Global,
    out: &mut Vec<u8>,
    bound: &Bound,
    table: &[u8],
) -> Result<(), OutOfMemory>
    ensures { OnOk result (out.new.items ≡ out.old.items ++ values_bytes 2 (all_set (field true) (map field_of (columns_in bound.now.tables table.now)))) }
{
    match find_picked(bound.tables.as_slice(), table) {
        Some(picked) => put_columns(alloc, out, picked.columns.as_slice()),
        None => Ok(()),
    }
}

impl SpelledColumns {
    pub(crate) fn new(alloc: Global) -> SpelledColumns {
        SpelledColumns {
            bytes: Vec::new(alloc),
        }
    }

    /// Spells the event of a table.
    pub(crate) fn spell(
        &mut self,
        alloc: Global,
        bound: &Bound,
        name: &ShardName,
        time: u32,
        table: &[u8],
    ) -> Result<(), OutOfMemory>
        ensures { OnOk result (self.new.bytes.items ≡ said_bytes (head_of name.now time) (Columns table.now (columns_in bound.now.tables table.now) ∷ [])) }
    {
        self.bytes.clear();
        self.bytes.reserve(FIRST_ROOM)?;
        put_start(alloc, &mut self.bytes, name, time, event_kind::FIELD as u32)?;
        let inside = self.bytes.len();
        put_table_name(alloc, &mut self.bytes, name, table)?;
        put_taken(alloc, &mut self.bytes, bound, table)?;
        close_event(alloc, &mut self.bytes, 0, inside, name, time, 6)?;
        Ok(())
    }
}
