ghost use Rattle.std.specs.Prelude.{◌≡◌, ◌≤◌, IfOk, IfSome, None, Some, map, min};
ghost use Rattle.std.specs.List.{filter_map, last_or};
ghost use Rattle.std.specs.Map.{values_of};
ghost use Rattle.std.specs.Option.{option_map};
ghost use Rattle.vs_base.specs.Cells.{row_size};
ghost use Rattle.vs_base.specs.Keys.{project};
ghost use Rattle.vs_select.specs.Rows.{taken_row};
ghost use Rattle.vs_model.specs.Copy.{chunk_of};
ghost use Rattle.vs_copy.specs.Chunks.{has_room, told_row};

use crate::copied::CopiedTable;
use std::alloc::Global;
use std::collections::btree_map::Range;
use vs_base::{Cell, Image, LastKey, List, OutOfMemory, Text};
use vs_select::BoundSelect;
use vs_tables::{PackedRow, RowKey};

/// The rows of a table that a copy tells next, as they are picked, and the key of the last of them.
#[derive(Debug, Drop)]
pub struct ChunkRows {
    pub table: Text,
    pub rows: List<Image>,
    pub last_key: LastKey,
}

/// The rows of a chunk, and the last one's key.
#[derive(Debug, Drop)]
pub(crate) struct Taken {
    pub(crate) rows: List<Image>,
    pub(crate) last: Option<Image>,
}

/// How many bytes the cells of a chunk may have, where it has more than one row.
const MOST_BYTES: usize = 4_194_304;

/// The bytes of cells, or one more than a chunk may have where they are no fewer.
fn counted_size(cells: &[Cell]) -> usize
    ensures { result ≡ min (row_size cells.now) 4194305 }
{
    let mut size = 0usize;
    for cell in cells {
        size = size.saturating_add(cell.size()).min(MOST_BYTES + 1);
    }
    size
}

fn has_room(count: usize, size: usize, more: usize) -> bool
    requires size { size ≤ 4194305 }
    requires more { more ≤ 4194305 }
    ensures { result ≡ has_room count size more }
{
    count == 0 || (count < 100 && size + more <= MOST_BYTES)
}

/// A row as it is told.
#[derive(Debug, Drop)]
struct ToldRow {
    cells: Image,
    /// The bytes of these cells, or one more than a chunk may have where they are no fewer.
    size: usize,
}

/// The row as it is picked, and its bytes as they count for a chunk; none where it isn't picked.
fn told_row(alloc: Global, table: &CopiedTable, row: &Image) -> Result<Option<ToldRow>, OutOfMemory>
    ensures cells { IfOk result (λ told. option_map (λ t. t.cells) told ≡ taken_row table.now.picked.select row.now) }
    ensures size { IfOk result (λ told. IfSome told (λ t. t.size ≡ min (row_size t.cells) 4194305)) }
{
    let Some(cells) = table.picked.select.take_row(alloc, row)? else {
        return Ok(None);
    };
    let size = counted_size(cells.cells());
    Ok(Some(ToldRow { cells, size }))
}

/// The key of a row.
fn key_of(alloc: Global, table: &CopiedTable, row: &Image) -> Result<Option<Image>, OutOfMemory>
    ensures { IfOk result (λ key. key ≡ Some (project table.now.table.key row.now)) }
{
    let key = BoundSelect {
        columns: table.table.key.copy(alloc)?,
        tests: List::new(alloc),
    };
    key.take_row(alloc, row)
}

fn finish(
    alloc: Global,
    table: &CopiedTable,
    rows: List<Image>,
    last: Option<Image>,
) -> Result<Taken, OutOfMemory>
    ensures rows { IfOk result (λ taken. taken.rows ≡ rows) }
    ensures last { IfOk result (λ taken. taken.last ≡ option_map (project table.now.table.key) last) }
{
    let last = match &last {
        Some(row) => key_of(alloc, table, row)?,
        None => None,
    };
    Ok(Taken { rows, last })
}

/// Of rows, with their keys, those that are picked, as many as a chunk may have.
pub(crate) fn take_rows(
    alloc: Global,
    table: &CopiedTable,
    rows: Range<'_, RowKey, PackedRow>,
) -> Result<Taken, OutOfMemory>
    ensures rows { IfOk result (λ taken. taken.rows ≡ map (λ row. row.1) (chunk_of (filter_map (told_row table.now) (values_of rows.entry)))) }
    ensures last { IfOk result (λ taken. taken.last ≡ last_or None (map (λ row. row.0) (chunk_of (filter_map (told_row table.now) (values_of rows.entry))))) }
{
    let mut taken = List::new(alloc);
    let mut last = None;
    let mut size = 0usize;
    for (_, row) in rows {
        let row = row.image(alloc)?;
        if let Some(told) = told_row(alloc, table, &row)? {
            if !has_room(taken.as_slice().len(), size, told.size) {
                return finish(alloc, table, taken, last);
            }
            size += told.size;
            taken.push(told.cells)?;
            last = Some(row);
        }
    }
    finish(alloc, table, taken, last)
}
