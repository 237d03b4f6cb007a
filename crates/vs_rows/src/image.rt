//! The rows of rows events.
ghost use Rattle.std.specs.Prelude.{◌≡◌, ◌⊎◌, ◌≤◌, ◌+◌, ◌*◌, Err, Ok, IfOk, length};
ghost use Rattle.vs_rows.specs.Bits.{bit_bytes};
ghost use Rattle.vs_rows.specs.Layouts.{images};
ghost use Rattle.vs_rows.specs.Lent.{rows_lent};
ghost use Rattle.vs_rows.specs.Reading.{GivesSeen};
ghost use Rattle.vs_rows.specs.Rows.{
  are_full,
  cell_at,
  cells_at,
  change_at,
  changes_in,
  changes_meant,
  image_at,
  null_cell,
};

use crate::RowRefusal;
use crate::bits::{all_set, bit_bytes, has_bit};
use crate::columns::RowColumn;
use crate::fault::Fault;
use crate::kind::RowsKind;
use crate::layout::{RowsBody, cut};
use crate::table::RowTable;
use std::alloc::Global;
use vs_base::{Cell, Change, Image, List, Text};
use vs_columns::{ValueRefusal, value_by};

/// The changes of a table that isn't passed over.
#[tactic(auto, unfolding(crate::specs::Rows::changes_meant))]
pub(crate) fn read_changes(
    alloc: Global,
    kind: RowsKind,
    table: &RowTable,
    said: &RowsBody,
) -> Result<List<Change>, RowRefusal>
    requires { length said.now.present.now ≡ images kind * bit_bytes said.now.width }
    ensures { (result ≡ Err RowRefusal.Memory) ⊎ (result ≡ changes_meant kind table.now (rows_lent said.now)) }
{
    if !are_full(kind, said.width, said.present) {
        return Err(RowRefusal::NotFullImage {
            table: table.name.copy(alloc)?,
        });
    }
    if said.width != table.columns.as_slice().len() {
        return Err(RowRefusal::BadRow {
            table: table.name.copy(alloc)?,
        });
    }
    match read_rows(alloc, kind, table, said.rows) {
        Ok(changes) => Ok(changes),
        Err(Fault::Wrong) => Err(RowRefusal::BadRow {
            table: table.name.copy(alloc)?,
        }),
        Err(Fault::Memory) => Err(RowRefusal::Memory),
    }
}

/// Whether each image has each column.
#[tactic(auto, unfolding(crate::specs::Rows::are_full))]
fn are_full(kind: RowsKind, width: usize, present: &[u8]) -> bool
    requires { length present.now ≡ images kind * bit_bytes width }
    ensures { result ≡ are_full kind width present.now }
{
    match kind {
        RowsKind::Insert => all_set(present, width),
        RowsKind::Delete => all_set(present, width),
        RowsKind::Update => {
            all_set(present, width) && all_set(&present[bit_bytes(width)..], width)
        }
    }
}

/// The changes of rows, one behind the other, to the end of the bytes.
fn read_rows(
    alloc: Global,
    kind: RowsKind,
    table: &RowTable,
    rows: &[u8],
) -> Result<List<Change>, Fault>
    ensures { GivesSeen (λ changes. changes) result (changes_in kind table.now rows.now) }
{
    let mut room = Vec::new(alloc);
    let mut changes = List::new(alloc);
    let mut rest = rows;
    'rows: while !rest.is_empty() {
        let (change, behind) = read_change(alloc, kind, table, rest, &mut room)?;
        if behind.len() >= rest.len() {
            return Err(Fault::Wrong);
        }
        changes.push(change)?;
        rest = behind;
    }
    Ok(changes)
}

/// The change of the row at the front of the bytes.
#[tactic(auto, unfolding(crate::specs::Rows::change_at))]
fn read_change<'a>(
    alloc: Global,
    kind: RowsKind,
    table: &RowTable,
    bytes: &'a [u8],
    room: &mut Vec<u8>,
) -> Result<(Change, &'a [u8]), Fault>
    ensures { GivesSeen (λ r. (r.0, r.1.now)) result (change_at kind table.now bytes.now) }
{
    let columns = table.columns.as_slice();
    let (first, rest) = read_image(alloc, columns, bytes, room)?;
    match kind {
        RowsKind::Insert => Ok((change(alloc, table, None, Some(first))?, rest)),
        RowsKind::Delete => Ok((change(alloc, table, Some(first), None)?, rest)),
        RowsKind::Update => {
            let (after, rest) = read_image(alloc, columns, rest, room)?;
            Ok((change(alloc, table, Some(first), Some(after))?, rest))
        }
    }
}

fn change(
    alloc: Global,
    table: &RowTable,
    before: Option<Image>,
    after: Option<Image>,
) -> Result<Change, Fault>
    ensures { GivesSeen (λ c. c) result (Some (record { table = table.now.name; before = before; after = after })) }
{
    Ok(Change {
        table: table.name.copy(alloc)?,
        before,
        after,
    })
}

/// The image of a row at the front of the bytes.
#[tactic(auto, unfolding(crate::specs::Rows::image_at))]
fn read_image<'a>(
    alloc: Global,
    columns: &[RowColumn],
    bytes: &'a [u8],
    room: &mut Vec<u8>,
) -> Result<(Image, &'a [u8]), Fault>
    ensures { GivesSeen (λ r. (r.0, r.1.now)) result (image_at columns.now bytes.now) }
{
    let Some((nulls, rest)) = cut(bytes, bit_bytes(columns.len())) else {
        return Err(Fault::Wrong);
    };
    read_cells(alloc, nulls, columns, rest, room)
}

/// The cells of the columns, by their null bits.
fn read_cells<'a>(
    alloc: Global,
    nulls: &[u8],
    columns: &[RowColumn],
    bytes: &'a [u8],
    room: &mut Vec<u8>,
) -> Result<(Image, &'a [u8]), Fault>
    requires { length columns.now ≤ 8 * length nulls.now }
    ensures { GivesSeen (λ r. (r.0, r.1.now)) result (cells_at 0 nulls.now columns.now bytes.now) }
{
    let mut image = Image::with_capacity(alloc, columns.len())?;
    let mut rest = bytes;
    for (place, column) in columns.iter().enumerate() {
        let (cell, behind) = read_cell(alloc, has_bit(nulls, place), column, rest, room)?;
        image.push(cell)?;
        rest = behind;
    }
    Ok((image, rest))
}

/// The cell of a column, and what stands behind its value.
#[tactic(auto, unfolding(crate::specs::Rows::cell_at))]
fn read_cell<'a>(
    alloc: Global,
    is_null: bool,
    column: &RowColumn,
    bytes: &'a [u8],
    room: &mut Vec<u8>,
) -> Result<(Cell, &'a [u8]), Fault>
    ensures { GivesSeen (λ r. (r.0, r.1.now)) result (cell_at is_null column.now bytes.now) }
{
    if is_null {
        return Ok((null_cell(alloc, column), bytes));
    }
    match value_by(alloc, &column.kind, column.meta.as_bytes(), bytes, room) {
        Ok((cell, used)) => Ok((cell, &bytes[used..])),
        Err(ValueRefusal::ShortValue) => Err(Fault::Wrong),
        Err(ValueRefusal::BadValue) => Err(Fault::Wrong),
        Err(ValueRefusal::Memory) => Err(Fault::Memory),
    }
}

fn null_cell(alloc: Global, column: &RowColumn) -> Cell
    ensures { result ≡ null_cell column.now }
{
    if column.null_is_empty {
        Cell::Bytes(Text::new(alloc))
    } else {
        Cell::Null
    }
}
