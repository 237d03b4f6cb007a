//! The two bodies of a transaction's rows, read again before they are taken.
ghost use Rattle.std.specs.Prelude.{◌≡◌, IfOk, IsTrue, List, map, ℕ};
ghost use Rattle.vs_rows.specs.Tables.{schema_of};
ghost use Rattle.vs_make.specs.Rows.{TellsChanges, inserted, only};

use crate::rows::{inserts_body, map_body, updates_body};
use crate::same::are_same_changes;
use std::alloc::{AllocError, Global};
use vs_base::{Change, Image, List, OutOfMemory, Table};
use vs_rows::{Maps, RowsOf};
use vs_schema::Schema;

/// The types of rows events.
pub(crate) const INSERTS: u8 = 30;

pub(crate) const UPDATES: u8 = 31;

/// The body of a table map, and that of a rows event.
#[derive(Debug, Drop)]
pub struct Bodies {
    pub map: Vec<u8>,
    pub rows: Vec<u8>,
}

/// A schema of this table alone.
fn only(alloc: Global, table: &Table) -> Result<Schema, OutOfMemory>
    ensures { IfOk result (λ s. s ≡ only table.now) }
{
    let mut tables = List::new(alloc);
    tables.push(table.copy(alloc)?)?;
    Ok(Schema {
        tables,
        skipped: List::new(alloc),
    })
}

/// The bodies, where they tell these changes in the log of a shard of the keyspace.
fn telling(
    alloc: Global,
    keyspace: &[u8],
    table: &Table,
    kind: u8,
    changes: &[Change],
    bodies: Bodies,
) -> Result<Bodies, OutOfMemory>
    ensures { IfOk result (λ b. TellsChanges keyspace.now table.now kind b.map.items b.rows.items changes.now) }
{
    let schema = only(alloc, table)?;
    let mut maps = Maps::new(alloc);
    if maps.put(bodies.map.as_slice(), &schema, keyspace).is_err() {
        return Err(AllocError);
    }
    match maps.rows(alloc, kind, bodies.rows.as_slice()) {
        Ok(RowsOf::Changes(read)) => {
            if are_same_changes(read.as_slice(), changes) {
                Ok(bodies)
            } else {
                Err(AllocError)
            }
        }
        _ => Err(AllocError),
    }
}

/// The same, where the schema is that of a keyspace; bodies of other schemas are taken as they are.
fn checked(
    alloc: Global,
    schema: &[u8],
    table: &Table,
    kind: u8,
    changes: &[Change],
    bodies: Bodies,
) -> Result<Bodies, OutOfMemory>
    ensures { IfOk result (λ b. (keyspace : List ℕ) → schema.now ≡ schema_of keyspace → TellsChanges keyspace table.now kind b.map.items b.rows.items changes.now) }
{
    match schema {
        [b'v', b't', b'_', keyspace @ ..] => telling(alloc, keyspace, table, kind, changes, bodies),
        _ => Ok(bodies),
    }
}

/// The changes that insert these rows.
fn inserts(alloc: Global, table: &Table, rows: &[Image]) -> Result<Vec<Change>, OutOfMemory>
    ensures { IfOk result (λ v. v.items ≡ map (inserted table.now.name) rows.now) }
{
    let mut changes = Vec::new(alloc);
    for row in rows {
        let change = Change {
            table: table.name.copy(alloc)?,
            before: None,
            after: Some(row.copy(alloc)?),
        };
        changes.push(change)?;
    }
    Ok(changes)
}

pub(crate) fn insert_bodies(
    alloc: Global,
    schema: &[u8],
    table: &Table,
    rows: &[Image],
) -> Result<Bodies, OutOfMemory>
    ensures { IfOk result (λ b. (keyspace : List ℕ) → schema.now ≡ schema_of keyspace → TellsChanges keyspace table.now 30 b.map.items b.rows.items (map (inserted table.now.name) rows.now)) }
{
    let bodies = Bodies {
        map: map_body(alloc, schema, table)?,
        rows: inserts_body(alloc, table, rows)?,
    };
    let changes = inserts(alloc, table, rows)?;
    checked(alloc, schema, table, INSERTS, changes.as_slice(), bodies)
}

pub(crate) fn update_bodies(
    alloc: Global,
    schema: &[u8],
    table: &Table,
    rows: &[Change],
) -> Result<Bodies, OutOfMemory>
    ensures { IfOk result (λ b. (keyspace : List ℕ) → schema.now ≡ schema_of keyspace → TellsChanges keyspace table.now 31 b.map.items b.rows.items rows.now) }
{
    let bodies = Bodies {
        map: map_body(alloc, schema, table)?,
        rows: updates_body(alloc, table, rows)?,
    };
    checked(alloc, schema, table, UPDATES, rows, bodies)
}
