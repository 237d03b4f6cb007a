//! The events of one change, spelled into rooms that all changes of an entry share.
ghost use Rattle.std.specs.Prelude.{
  ◌≡◌,
  ◌++◌,
  ◌≤◌,
  ◌<◌,
  ◌^◌,
  ◌||◌,
  [],
  ◌∷◌,
  IfOk,
  None,
  OnOk,
  Some,
  false,
  is_some,
  map,
  true,
};
ghost use Rattle.std.specs.List.{flat_map};
ghost use Rattle.std.specs.Option.{option_and_then, option_copied, option_map};
ghost use Rattle.vs_base.specs.Keys.{cell_at, project};
ghost use Rattle.vs_base.specs.Rows.{cell_bytes, cell_length};
ghost use Rattle.vs_base.specs.declared.Change.{Change as Changing};
ghost use Rattle.vs_filter.specs.Picks.{pick_in, picked_in};
ghost use Rattle.vs_select.specs.Rows.{taken_row};
ghost use Rattle.vs_proto.specs.Kinds.{if_any, packed_bytes, zigzag};
ghost use Rattle.vs_proto.specs.Shapes.{if_set, spelling, values_bytes};
ghost use Rattle.vs_proto.specs.Tables.{row};
ghost use Rattle.vs_render.specs.Events.{Changed, head_of, table_name};
ghost use Rattle.vs_render.specs.Rendering.{IsRowOf, taken_change};
ghost use Rattle.vs_render.specs.Spelling.{said_bytes};
ghost use Rattle.vs_vector.specs.Messages.{row_of};
ghost use Rattle.vs_wire.specs.Fields.{field_bytes, sized};

use crate::OutOfMemory;
use crate::spelling::{close_event, enclose, enclose_any, put_start};
use std::alloc::Global;
use vs_base::{Cell, Change, Image, ShardName};
use vs_filter::{Bound, Picked};
use vs_proto::event_kind;
use vs_select::BoundSelect;
use vs_wire::put_varint;

/// How many bytes are reserved for an event at first, so that most take memory once.
pub(crate) const FIRST_ROOM: usize = 512;

/// The ROW event of a change.
#[derive(Debug, Drop)]
pub(crate) struct SpelledRow {
    /// The event, as it stands in a message.
    pub bytes: Vec<u8>,
}

/// The length of the cell at a place, as a packed list spells it. NULL has -1.
fn length_at(cells: &[Cell], place: usize) -> u64
    ensures { result ≡ zigzag (cell_length (cell_at cells.now place)) }
{
    match cells.get(place) {
        Some(Cell::Bytes(text)) => text.as_bytes().len() as u64 * 2,
        Some(Cell::Null) | None => 1,
    }
}

/// The bytes of the cell at a place.
fn bytes_at(cells: &[Cell], place: usize) -> &[u8]
    ensures { result.now ≡ cell_bytes (cell_at cells.now place) }
{
    match cells.get(place) {
        Some(Cell::Bytes(text)) => text.as_bytes(),
        Some(Cell::Null) | None => &[],
    }
}

/// Appends the lengths of the cells at the places.
fn put_lengths(
    alloc: Global,
    out: &mut Vec<u8>,
    places: &[usize],
    cells: &[Cell],
) -> Result<(), OutOfMemory>
    ensures { OnOk result (out.new.items ≡ out.old.items ++ packed_bytes (map cell_length (project places.now cells.now))) }
{
    for place in places {
        put_varint(alloc, out, length_at(cells, *place))?;
    }
    Ok(())
}

/// Appends the bytes of the cells at the places.
fn put_values(out: &mut Vec<u8>, places: &[usize], cells: &[Cell]) -> Result<(), OutOfMemory>
    ensures { OnOk result (out.new.items ≡ out.old.items ++ flat_map cell_bytes (project places.now cells.now)) }
{
    for place in places {
        out.extend_from_slice(bytes_at(cells, *place))?;
    }
    Ok(())
}

/// Appends the message of the cells at the places.
fn put_row(
    alloc: Global,
    out: &mut Vec<u8>,
    places: &[usize],
    cells: &[Cell],
) -> Result<(), OutOfMemory>
    ensures { OnOk result (out.new.items ≡ out.old.items ++ spelling (row true) (row_of (project places.now cells.now))) }
{
    let lengths = out.len();
    put_lengths(alloc, out, places, cells)?;
    enclose_any(alloc, out, lengths, 1)?;
    let values = out.len();
    put_values(out, places, cells)?;
    enclose_any(alloc, out, values, 2)?;
    Ok(())
}

/// Appends a field of the cells at the places.
fn put_row_field(
    alloc: Global,
    out: &mut Vec<u8>,
    field: u32,
    places: &[usize],
    cells: &[Cell],
) -> Result<(), OutOfMemory>
    requires low { 1 ≤ field }
    requires high { field < 2 ^ 29 }
    ensures { OnOk result (out.new.items ≡ out.old.items ++ field_bytes field (sized (spelling (row true) (row_of (project places.now cells.now))))) }
{
    let start = out.len();
    put_row(alloc, out, places, cells)?;
    enclose(alloc, out, start, field)?;
    Ok(())
}

/// Appends a field of an image, if it is there and kept, and says whether it is.
fn put_image(
    alloc: Global,
    out: &mut Vec<u8>,
    field: u32,
    select: &BoundSelect,
    image: &Option<Image>,
) -> Result<bool, OutOfMemory>
    requires low { 1 ≤ field }
    requires high { field < 2 ^ 29 }
    ensures kept { IfOk result (λ b. b ≡ is_some (option_and_then (taken_row select.now) image.now)) }
    ensures put { OnOk result (out.new.items ≡ out.old.items ++ values_bytes field (if_set (row true) (option_map row_of (option_and_then (taken_row select.now) image.now)))) }
{
    let Some(image) = image else {
        return Ok(false);
    };
    if !select.keeps(image) {
        return Ok(false);
    }
    put_row_field(alloc, out, field, select.columns(), image.cells())?;
    Ok(true)
}

fn is_either(a: bool, b: bool) -> bool
    ensures { result ≡ (a || b) }
{
    a || b
}

/// Appends the field of a table's name, `keyspace.table`.
pub(crate) fn put_table_name(
    alloc: Global,
    out: &mut Vec<u8>,
    name: &ShardName,
    table: &[u8],
) -> Result<(), OutOfMemory>
    ensures { OnOk result (out.new.items ≡ out.old.items ++ values_bytes 1 (if_any (table_name name.now.keyspace table.now))) }
{
    let start = out.len();
    out.extend_from_slice(name.keyspace.as_bytes())?;
    out.push(b'.')?;
    out.extend_from_slice(table)?;
    enclose_any(alloc, out, start, 1)
}

/// The picked table of a name.
pub(crate) fn find_picked<'a>(tables: &'a [Picked], name: &[u8]) -> Option<&'a Picked>
    ensures { option_copied result ≡ picked_in tables.now name.now }
{
    tables.iter().find(|picked| picked.name.as_bytes() == name)
}

impl SpelledRow {
    pub(crate) fn new(alloc: Global) -> SpelledRow {
        SpelledRow {
            bytes: Vec::new(alloc),
        }
    }

    /// Spells the event of a change of a picked table, and says whether an image of it is kept.
    fn spell_taken(
        &mut self,
        alloc: Global,
        name: &ShardName,
        time: u32,
        select: &BoundSelect,
        change: &Change,
    ) -> Result<bool, OutOfMemory>
        ensures kept { IfOk result (λ b. b ≡ (is_some (option_and_then (taken_row select.now) change.now.before) || is_some (option_and_then (taken_row select.now) change.now.after))) }
        ensures spelled { OnOk result (self.new.bytes.items ≡ said_bytes (head_of name.now time) (Changed (taken_change select.now change.now) ∷ [])) }
    {
        self.bytes.clear();
        self.bytes.reserve(FIRST_ROOM)?;
        put_start(alloc, &mut self.bytes, name, time, event_kind::ROW as u32)?;
        let inside = self.bytes.len();
        put_table_name(alloc, &mut self.bytes, name, change.table.as_bytes())?;
        let change_start = self.bytes.len();
        let before = put_image(alloc, &mut self.bytes, 1, select, &change.before)?;
        let after = put_image(alloc, &mut self.bytes, 2, select, &change.after)?;
        enclose(alloc, &mut self.bytes, change_start, 2)?;
        close_event(alloc, &mut self.bytes, 0, inside, name, time, 5)?;
        Ok(is_either(before, after))
    }

    /// Spells the event of a change, if it is picked, and says whether it is.
    pub(crate) fn spell(
        &mut self,
        alloc: Global,
        bound: &Bound,
        name: &ShardName,
        time: u32,
        change: &Change,
    ) -> Result<bool, OutOfMemory>
        ensures none { IfOk result (λ b. b ≡ false → pick_in bound.now.tables change.now ≡ None) }
        ensures some { IfOk result (λ b. b ≡ true → IsRowOf (head_of name.now time) (pick_in bound.now.tables change.now) self.new.bytes.items) }
    {
        match find_picked(bound.tables.as_slice(), change.table.as_bytes()) {
            Some(picked) => {
                let kept = self.spell_taken(alloc, name, time, &picked.select, change)?;
                Ok(kept)
            }
            None => Ok(false),
        }
    }
}
