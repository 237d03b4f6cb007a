//! The columns of a table map, and how they fit those of a table.
ghost use Rattle.std.specs.Prelude.{◌≡◌, ◌≤◌, IfOk, IfSome, map, length};
ghost use Rattle.vs_base.specs.declared.table.Column.{Column};
ghost use Rattle.vs_rows.specs.Columns.{
  journal_columns,
  row_column,
  row_columns,
  typed_column,
  typed_columns,
  wanted,
};
ghost use Rattle.vs_rows.specs.Reading.{GivesSeen};

use crate::fault::Fault;
use crate::layout::cut;
use crate::meta::Meta;
use std::alloc::Global;
use vs_base::{Column, ColumnKind, List, OutOfMemory};
use vs_columns::{agrees, meta_length};

/// A column as a table map tells it.
#[derive(Debug, Drop)]
pub(crate) struct TypedColumn {
    pub code: u8,
    pub meta: Meta,
}

/// A column as a table has it.
#[derive(Debug, Clone, Copy)]
pub(crate) struct WantedColumn {
    pub kind: ColumnKind,
    /// whether NULL counts as the empty text
    pub null_is_empty: bool,
}

/// A column whose values rows have.
#[derive(Debug, Drop)]
pub(crate) struct RowColumn {
    pub kind: ColumnKind,
    pub meta: Meta,
    /// whether NULL counts as the empty text
    pub null_is_empty: bool,
}

/// Gives each type its piece of the metadata.
pub(crate) fn read_columns(
    alloc: Global,
    types: &[u8],
    metadata: &[u8],
) -> Result<List<TypedColumn>, Fault>
    ensures { GivesSeen (λ columns. columns) result (typed_columns types.now metadata.now) }
{
    let mut columns = Vec::with_capacity(alloc, types.len())?;
    let mut rest = metadata;
    for code in types {
        let (column, behind) = read_column(*code, rest)?;
        columns.push(column)?;
        rest = behind;
    }
    if !rest.is_empty() {
        return Err(Fault::Wrong);
    }
    Ok(List::from_vec(columns))
}

/// The type with its piece of the metadata.
#[tactic(auto, unfolding(crate::specs::Columns::typed_column))]
fn read_column(code: u8, metadata: &[u8]) -> Result<(TypedColumn, &[u8]), Fault>
    ensures { GivesSeen (λ r. (r.0, r.1.now)) result (typed_column code metadata.now) }
{
    let Some(size) = meta_length(code) else {
        return Err(Fault::Wrong);
    };
    let Some((meta, rest)) = cut(metadata, size) else {
        return Err(Fault::Wrong);
    };
    let meta = Meta::new(meta);
    Ok((TypedColumn { code, meta }, rest))
}

/// The columns of a listed table.
pub(crate) fn wanted_columns(
    alloc: Global,
    columns: &[Column],
) -> Result<Vec<WantedColumn>, OutOfMemory>
    ensures { IfOk result (λ kinds. kinds.items ≡ map wanted columns.now) }
{
    columns.iter().map(wanted_column).collect(alloc)
}

fn wanted_column(column: &Column) -> WantedColumn
    ensures { result ≡ wanted column.now }
{
    WantedColumn {
        kind: column.kind,
        null_is_empty: false,
    }
}

/// The columns of the table of journals: id, db_name and val.
pub(crate) fn journal_columns() -> [WantedColumn; 3]
    ensures { result ≡ journal_columns }
{
    [
        WantedColumn {
            kind: ColumnKind::BigInt { unsigned: false },
            null_is_empty: false,
        },
        WantedColumn {
            kind: ColumnKind::VarBinary { length: 255 },
            null_is_empty: false,
        },
        WantedColumn {
            kind: ColumnKind::Blob,
            null_is_empty: true,
        },
    ]
}

/// The columns of a table, each with its metadata, where those of its table map agree.
pub(crate) fn match_columns(
    alloc: Global,
    wanted: &[WantedColumn],
    typed: &[TypedColumn],
) -> Result<List<RowColumn>, Fault>
    ensures { GivesSeen (λ columns. columns) result (row_columns wanted.now typed.now) }
{
    if wanted.len() != typed.len() {
        return Err(Fault::Wrong);
    }
    let mut columns = Vec::with_capacity(alloc, typed.len())?;
    for (place, typed) in typed.iter().enumerate() {
        match match_column(&wanted[place], typed) {
            Some(column) => columns.push(column)?,
            None => return Err(Fault::Wrong),
        }
    }
    Ok(List::from_vec(columns))
}

fn match_column(wanted: &WantedColumn, typed: &TypedColumn) -> Option<RowColumn>
    ensures { result ≡ row_column wanted.now typed.now }
{
    if !agrees(&wanted.kind, typed.code, typed.meta.as_bytes()) {
        return None;
    }
    Some(RowColumn {
        kind: wanted.kind,
        meta: typed.meta.copy(),
        null_is_empty: wanted.null_is_empty,
    })
}
