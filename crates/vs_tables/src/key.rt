ghost use Rattle.std.specs.Prelude.{◌≡◌, IfOk, drop, nat_le};
ghost use Rattle.std.specs.List.{slice_get};
ghost use Rattle.std.specs.Option.{option_copied, option_map};
ghost use Rattle.vs_base.specs.Cells.{cell_size, row_size};
ghost use Rattle.vs_base.specs.Keys.{cell_at, key_kinds, key_order, project};
ghost use Rattle.vs_tables.specs.Parts.{fits_limits, part_at, part_of, parts_of};

use std::alloc::Global;
use std::cmp::Ordering;
use vs_base::{Cell, Column, ColumnKind, Image, List, OutOfMemory, Table, Text, number_of};

/// A cell of a key, read as its column is ordered.
#[derive(Debug, Drop, PartialEq, Eq, PartialOrd, Ord)]
pub enum KeyPart {
    Null,
    Number(i128),
    Bytes(Text),
}

fn kind_at(columns: &[Column], place: usize) -> Option<ColumnKind>
    ensures { result ≡ option_map (λ column. column.kind) (slice_get columns.now place) }
{
    match columns.get(place) {
        Some(column) => Some(column.kind),
        None => None,
    }
}

/// The kinds of the columns of a table's key.
pub fn key_kinds(alloc: Global, table: &Table) -> Result<List<ColumnKind>, OutOfMemory>
    ensures { IfOk result (λ kinds. kinds ≡ key_kinds table.now) }
{
    let mut kinds = List::new(alloc);
    for place in table.key.as_slice() {
        if let Some(kind) = kind_at(table.columns.as_slice(), *place) {
            kinds.push(kind)?;
        }
    }
    Ok(kinds)
}

fn part_of(alloc: Global, kind: ColumnKind, cell: &Cell) -> Result<KeyPart, OutOfMemory>
    ensures { IfOk result (λ part. part ≡ part_of kind cell.now) }
{
    let Cell::Bytes(text) = cell else {
        return Ok(KeyPart::Null);
    };
    match number_of(kind, text.as_bytes()) {
        Some(number) => Ok(KeyPart::Number(number)),
        None => Ok(KeyPart::Bytes(text.copy(alloc)?)),
    }
}

fn part_at(alloc: Global, kind: Option<&ColumnKind>, cell: &Cell) -> Result<KeyPart, OutOfMemory>
    ensures { IfOk result (λ part. part ≡ part_at (option_copied kind.entry) cell.now) }
{
    match kind {
        Some(kind) => part_of(alloc, *kind, cell),
        None => Ok(KeyPart::Null),
    }
}

fn behind_first(kinds: &[ColumnKind]) -> &[ColumnKind]
    ensures { result.now ≡ drop 1 kinds.now }
{
    match kinds {
        [] => kinds,
        [_, rest @ ..] => rest,
    }
}

/// A key, read as its columns are ordered.
pub(crate) fn key_parts(
    alloc: Global,
    kinds: &[ColumnKind],
    key: &[Cell],
) -> Result<List<KeyPart>, OutOfMemory>
    ensures { IfOk result (λ parts. parts ≡ parts_of kinds.now key.now) }
{
    let mut parts = List::new(alloc);
    let mut left = kinds;
    for cell in key {
        parts.push(part_at(alloc, left.first(), cell)?)?;
        left = behind_first(left);
    }
    Ok(parts)
}

fn part_of_row(
    alloc: Global,
    kind: Option<&ColumnKind>,
    row: &[Cell],
    place: usize,
) -> Result<KeyPart, OutOfMemory>
    ensures { IfOk result (λ part. part ≡ part_at (option_copied kind.entry) (cell_at row.now place)) }
{
    match row.get(place) {
        Some(cell) => part_at(alloc, kind, cell),
        None => part_at(alloc, kind, &Cell::Null),
    }
}

/// The key of a row, which has its cells at these places, read so.
pub(crate) fn row_parts(
    alloc: Global,
    kinds: &[ColumnKind],
    places: &[usize],
    row: &Image,
) -> Result<List<KeyPart>, OutOfMemory>
    ensures { IfOk result (λ parts. parts ≡ parts_of kinds.now (project places.now row.now)) }
{
    let mut parts = Vec::with_capacity(alloc, places.len())?;
    let mut left = kinds;
    for place in places {
        parts.push(part_of_row(alloc, left.first(), row.cells(), *place)?)?;
        left = behind_first(left);
    }
    Ok(List::from_vec(parts))
}

/// The key of a row, which has its cells at these places, against a key, in the order of the key's columns.
#[tactic(auto, using(crate::proofs::PartLemmas::ordered_alike))]
pub fn compare_keys(
    alloc: Global,
    kinds: &[ColumnKind],
    places: &[usize],
    row: &Image,
    key: &Image,
) -> Result<Ordering, OutOfMemory>
    ensures { IfOk result (λ order. order ≡ key_order kinds.now (project places.now row.now) key.now) }
{
    let own = row_parts(alloc, kinds, places, row)?;
    let other = key_parts(alloc, kinds, key.cells())?;
    Ok(own.cmp(&other))
}

fn size_at(row: &[Cell], place: usize) -> usize
    ensures { result ≡ cell_size (cell_at row.now place) }
{
    match row.get(place) {
        Some(cell) => cell.size(),
        None => 0,
    }
}

/// Whether the cells of a row at these places have at most 3,072 bytes.
fn is_short(places: &[usize], row: &Image) -> bool
    ensures { result ≡ nat_le (row_size (project places.now row.now)) 3072 }
{
    let mut left = 3072usize;
    for place in places {
        let size = size_at(row.cells(), *place);
        if size > left {
            return false;
        }
        left -= size;
    }
    true
}

/// Whether the key of a row, which has its cells at these places, is within the limits of keys.
pub(crate) fn fits_limits(places: &[usize], row: &Image) -> bool
    ensures { result ≡ fits_limits (project places.now row.now) }
{
    places.len() <= 4096 && is_short(places, row)
}
