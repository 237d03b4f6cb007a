ghost use Rattle.std.specs.Prelude.{◌==◌, ◌≡◌, IfOk, map, not};
ghost use Rattle.std.specs.List.{find, list_all, list_any};
ghost use Rattle.std.specs.Option.{option_copied};
ghost use Rattle.vs_filter.specs.Rules.{table_in};
ghost use Rattle.vs_copy.specs.Copying.{copied_as, copied_in, copied_of, has_kept_key, is_key_kept};

use std::alloc::Global;
use vs_base::{ColumnKind, List, OutOfMemory, Table};
use vs_filter::Picked;
use vs_select::{BoundSelect, BoundTest, Check};
use vs_tables::key_kinds;

/// A table that is copied: what is picked of it, and its key.
#[derive(Debug, Drop)]
pub struct CopiedTable {
    pub picked: Picked,
    pub table: Table,
    /// of the key's columns
    pub kinds: List<ColumnKind>,
}

pub(crate) fn find_copied<'a>(tables: &'a [CopiedTable], name: &[u8]) -> Option<&'a CopiedTable>
    ensures { option_copied result ≡ copied_in tables.now name.now }
{
    tables
        .iter()
        .find(|table| table.picked.name.as_bytes() == name)
}

fn find_table<'a>(schema: &'a [Table], name: &[u8]) -> Option<&'a Table>
    ensures { option_copied result ≡ table_in schema.now name.now }
{
    schema.iter().find(|table| table.name.as_bytes() == name)
}

fn is_taken(columns: &[usize], place: usize) -> bool
    ensures { result ≡ list_any (λ column. column == place) columns.now }
{
    columns.iter().any(|column| *column == place)
}

fn are_taken(columns: &[usize], places: &[usize]) -> bool
    ensures { result ≡ list_all (λ place. list_any (λ column. column == place) columns.now) places.now }
{
    places.iter().all(|place| is_taken(columns, *place))
}

/// Whether there is a key, and each place of it is among the columns.
fn is_key_kept(columns: &[usize], key: &[usize]) -> bool
    ensures { result ≡ is_key_kept columns.now key.now }
{
    key.len() >= 1 && are_taken(columns, key)
}

/// Whether the table has a key, and each column of it is taken.
fn has_kept_key(schema: &[Table], picked: &Picked) -> bool
    ensures { result ≡ has_kept_key schema.now picked.now }
{
    let Some(table) = find_table(schema, picked.name.as_bytes()) else {
        return false;
    };
    is_key_kept(picked.select.columns.as_slice(), table.key.as_slice())
}

/// The first picked table whose key isn't taken.
pub(crate) fn first_keyless<'a>(schema: &[Table], picked: &'a [Picked]) -> Option<&'a Picked>
    ensures { option_copied result ≡ find (λ p. not (has_kept_key schema.now p)) picked.now }
{
    picked.iter().find(|picked| !has_kept_key(schema, picked))
}

fn copy_check(alloc: Global, check: &Check) -> Result<Check, OutOfMemory>
    ensures { IfOk result (λ copy. copy ≡ check.now) }
{
    match check {
        Check::Number { kind, by, value } => Ok(Check::Number {
            kind: *kind,
            by: *by,
            value: *value,
        }),
        Check::Bytes { by, text } => Ok(Check::Bytes {
            by: *by,
            text: text.copy(alloc)?,
        }),
        Check::IsNull => Ok(Check::IsNull),
        Check::IsNotNull => Ok(Check::IsNotNull),
    }
}

fn copy_tests(alloc: Global, tests: &[BoundTest]) -> Result<List<BoundTest>, OutOfMemory>
    ensures { IfOk result (λ copy. copy ≡ tests.now) }
{
    let mut copy = List::new(alloc);
    for test in tests {
        copy.push(BoundTest {
            column: test.column,
            check: copy_check(alloc, &test.check)?,
        })?;
    }
    Ok(copy)
}

fn copy_picked(alloc: Global, picked: &Picked) -> Result<Picked, OutOfMemory>
    ensures { IfOk result (λ copy. copy ≡ picked.now) }
{
    Ok(Picked {
        name: picked.name.copy(alloc)?,
        columns: picked.columns.copy(alloc)?,
        select: BoundSelect {
            columns: picked.select.columns.copy(alloc)?,
            tests: copy_tests(alloc, picked.select.tests.as_slice())?,
        },
    })
}

/// A picked table as it is copied, where the schema has it.
fn copied_table(
    alloc: Global,
    schema: &[Table],
    picked: &Picked,
) -> Result<Option<CopiedTable>, OutOfMemory>
    ensures { IfOk result (λ copied. copied ≡ copied_as schema.now picked.now) }
{
    let Some(table) = find_table(schema, picked.name.as_bytes()) else {
        return Ok(None);
    };
    Ok(Some(CopiedTable {
        picked: copy_picked(alloc, picked)?,
        table: table.copy(alloc)?,
        kinds: key_kinds(alloc, table)?,
    }))
}

/// The picked tables as they are copied.
pub(crate) fn copied_tables(
    alloc: Global,
    schema: &[Table],
    picked: &[Picked],
) -> Result<List<CopiedTable>, OutOfMemory>
    ensures { IfOk result (λ copied. copied ≡ copied_of schema.now picked.now) }
{
    let mut copied = List::new(alloc);
    for one in picked {
        if let Some(table) = copied_table(alloc, schema, one)? {
            copied.push(table)?;
        }
    }
    Ok(copied)
}

/// The tables themselves.
pub(crate) fn tables_of(alloc: Global, copied: &[CopiedTable]) -> Result<List<Table>, OutOfMemory>
    ensures { IfOk result (λ tables. tables ≡ map (λ t. t.table) copied.now) }
{
    let mut tables = List::new(alloc);
    for one in copied {
        tables.push(one.table.copy(alloc)?)?;
    }
    Ok(tables)
}
