//! What is known of the table of a table map.
ghost use Rattle.std.specs.Prelude.{◌≡◌, ◌⊎◌, Err, Ok};
ghost use Rattle.std.specs.List.{find};
ghost use Rattle.vs_schema.specs.Kinds.{same};
ghost use Rattle.vs_schema.specs.Rules.{names_table};
ghost use Rattle.vs_rows.specs.Tables.{
  agreeing,
  is_journal,
  listed,
  map_by,
  map_meant,
  map_typed,
  table_by,
};
ghost use Rattle.vs_rows.specs.Columns.{journal_columns, row_columns, wanted};
ghost use Rattle.vs_rows.specs.Lent.{map_lent};

use crate::RowRefusal;
use crate::columns::{
    RowColumn, TypedColumn, WantedColumn, journal_columns, match_columns, read_columns,
    wanted_columns,
};
use crate::fault::Fault;
use crate::keyspace::is_schema_of;
use crate::layout::{MapBody, read_map};
use std::alloc::Global;
use vs_base::{List, Text};
use vs_schema::{Listed, Schema};

/// A table whose rows are read.
#[derive(Debug, Drop)]
pub(crate) struct RowTable {
    pub name: Text,
    pub columns: List<RowColumn>,
}

/// What is known of the table of a table map.
#[derive(Debug, Drop)]
pub(crate) enum Mapped {
    /// Its rows are passed over.
    Passed,
    /// It is one of the keyspace's.
    Counted(RowTable),
    /// It is the table of journals.
    Journal(RowTable),
}

/// The number of the table of a table map, and what is known of the table.
#[tactic(auto, unfolding(crate::specs::Tables::map_meant))]
pub(crate) fn map_table(
    alloc: Global,
    body: &[u8],
    schema: &Schema,
    keyspace: &[u8],
) -> Result<(u64, Mapped), RowRefusal>
    ensures { (result ≡ Err RowRefusal.Memory) ⊎ (result ≡ map_meant keyspace.now schema.now body.now) }
{
    let Some(said) = read_map(body) else {
        return Err(RowRefusal::BadBody);
    };
    let columns = match read_columns(alloc, said.types, said.metadata) {
        Ok(columns) => columns,
        Err(Fault::Wrong) => return Err(RowRefusal::BadBody),
        Err(Fault::Memory) => return Err(RowRefusal::Memory),
    };
    let mapped = find_table(alloc, &said, columns.as_slice(), schema, keyspace)?;
    Ok((said.id, mapped))
}

/// The table of this schema, with these columns in the log.
fn find_table(
    alloc: Global,
    said: &MapBody,
    columns: &[TypedColumn],
    schema: &Schema,
    keyspace: &[u8],
) -> Result<Mapped, RowRefusal>
    ensures { (result ≡ Err RowRefusal.Memory) ⊎ (result ≡ table_by keyspace.now schema.now (map_lent said.now) columns.now) }
{
    if is_schema_of(said.schema, keyspace) {
        return find_listed(alloc, said.table, columns, schema);
    }
    if is_journal(said.schema, said.table) {
        let table = agreeing(alloc, said.table, &journal_columns(), columns)?;
        return Ok(Mapped::Journal(table));
    }
    Ok(Mapped::Passed)
}

fn find_listed(
    alloc: Global,
    name: &[u8],
    columns: &[TypedColumn],
    schema: &Schema,
) -> Result<Mapped, RowRefusal>
    ensures { (result ≡ Err RowRefusal.Memory) ⊎ (result ≡ listed schema.now name.now columns.now (find (names_table name.now) schema.now.tables)) }
{
    match schema.table(name) {
        Listed::Known(table) => {
            let wanted = wanted_columns(alloc, table.columns.as_slice())?;
            let table = agreeing(alloc, name, wanted.as_slice(), columns)?;
            Ok(Mapped::Counted(table))
        }
        Listed::Skipped => Ok(Mapped::Passed),
        Listed::Absent => Err(RowRefusal::UnknownTable {
            table: Text::from_bytes(alloc, name)?,
        }),
    }
}

/// The table with these columns, where those of its table map agree.
fn agreeing(
    alloc: Global,
    name: &[u8],
    wanted: &[WantedColumn],
    columns: &[TypedColumn],
) -> Result<RowTable, RowRefusal>
    ensures { (result ≡ Err RowRefusal.Memory) ⊎ (result ≡ agreeing name.now (row_columns wanted.now columns.now)) }
{
    let name = Text::from_bytes(alloc, name)?;
    match match_columns(alloc, wanted, columns) {
        Ok(columns) => Ok(RowTable { name, columns }),
        Err(Fault::Wrong) => Err(RowRefusal::Disagrees { table: name }),
        Err(Fault::Memory) => Err(RowRefusal::Memory),
    }
}

/// Whether it is the table to which Vitess writes the journals of reshards.
fn is_journal(schema: &[u8], table: &[u8]) -> bool
    ensures { result ≡ is_journal schema.now table.now }
{
    schema == b"_vt".as_slice() && table == b"resharding_journal".as_slice()
}
