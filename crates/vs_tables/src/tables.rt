ghost use Rattle.std.specs.Prelude.{
  ◌≡◌,
  ◌⊎◌,
  Err,
  IfErr,
  IfOk,
  IfSome,
  None,
  OnOk,
  Option,
  Some,
  position,
};
ghost use Rattle.std.specs.Map.{values_of};
ghost use Rattle.std.specs.Option.{option_copied, option_map};
ghost use Rattle.vs_base.specs.Answers.{Unless};
ghost use Rattle.vs_tables.specs.Changes.{
  RefusalTells,
  RowFault,
  RowFaultTells,
  change_fault_in,
  first_unfit,
  has_key,
  keyed_tables,
  next_in,
  rows_in,
  tables_after,
  tables_after_one,
};
ghost use Rattle.vs_tables.specs.Rows.{AreLawfulRows, is_table_named, table_rows};

use crate::keyed::{KeyedRows, Unfit};
use crate::{PackedRow, RowKey, TableRefusal};
use std::alloc::Global;
use std::collections::btree_map::Range;
use std::marker::Model;
use vs_base::{Change, Image, OutOfMemory, Table, Text};
use vs_schema::Schema;

/// The rows of the tables of a schema that have a key, after the changes that were applied.
#[derive(Debug, Drop)]
pub struct Tables {
    alloc: Global,
    tables: Vec<KeyedRows>,
    /// for good
    refused: Option<TableRefusal>,
}

impl Model for Tables {
    ghost use Rattle.vs_tables.specs.Changes.{Applied};

    ghost Value = { Applied };

    ghost view = { λ t. record { tables = t.tables.items; refused = t.refused } };
}

fn position(tables: &[KeyedRows], name: &[u8]) -> Option<usize>
    ensures { result ≡ position (is_table_named name.now) tables.now }
{
    tables.iter().position(|table| table.is_named(name))
}

fn has_key(table: &Table) -> bool
    ensures { result ≡ has_key table.now }
{
    table.key.as_slice().len() >= 1
}

impl Tables {
    /// The tables of a schema, without a row.
    pub fn new(alloc: Global, schema: &Schema) -> Result<Tables, OutOfMemory>
        ensures tables { IfOk result (λ t. t.tables ≡ keyed_tables schema.now.tables) }
        ensures unrefused { IfOk result (λ t. t.refused ≡ None) }
    {
        let mut tables = Vec::new(alloc);
        for table in schema.tables() {
            if has_key(table) {
                tables.push(KeyedRows::new(alloc, table)?)?;
            }
        }
        Ok(Tables {
            alloc,
            tables,
            refused: None,
        })
    }

    /// The rows of a table behind a key, which is in the order of the table's key; or all. Each with its
    /// key; none where the table has no key.
    pub fn rows_after(
        &self,
        table: &[u8],
        key: Option<&Image>,
    ) -> Result<Option<Range<'_, RowKey, PackedRow>>, OutOfMemory>
        ensures rows { IfOk result (λ rows. option_map values_of rows ≡ rows_in self.now.tables table.now (option_copied key.entry)) }
        ensures lawful { IfSome (table_rows self.now.tables table.now) AreLawfulRows }
    {
        for rows in self.tables.as_slice() {
            if rows.is_named(table) {
                return Ok(Some(rows.rows_after(self.alloc, key)?));
            }
        }
        Ok(None)
    }

    /// The row of a table with the least key above this one, or its first row. None where no row has a
    /// greater key.
    pub fn next_after(
        &self,
        table: &[u8],
        key: Option<&Image>,
    ) -> Result<Option<&PackedRow>, OutOfMemory>
        ensures { IfOk result (λ row. option_copied row ≡ next_in self.now.tables table.now (option_copied key.entry)) }
    {
        let Some(mut rows) = self.rows_after(table, key)? else {
            return Ok(None);
        };
        match rows.next() {
            Some((_, row)) => Ok(Some(row)),
            None => Ok(None),
        }
    }
}

/// Takes a change; one of another table passes.
fn take_change(alloc: Global, tables: &mut Vec<KeyedRows>, change: &Change) -> Result<(), Unfit>
    ensures after { OnOk result (tables.new.items ≡ tables_after_one tables.old.items change.now) }
    ensures fits { OnOk result (change_fault_in tables.old.items change.now ≡ None) }
    ensures unfit { IfErr result (RowFaultTells (change_fault_in tables.old.items change.now)) }
{
    let Some(place) = position(tables.as_slice(), change.table.as_bytes()) else {
        return Ok(());
    };
    tables[place].take_change(alloc, change)
}

fn refusal_of(alloc: Global, unfit: Unfit, table: &Text) -> TableRefusal
    ensures { (fault : Option RowFault) → RowFaultTells fault unfit → RefusalTells (option_map (λ why. (table.now, why)) fault) result }
{
    let Ok(table) = table.copy(alloc) else {
        return TableRefusal::Memory;
    };
    match unfit {
        Unfit::Missing => TableRefusal::MissingRow { table },
        Unfit::Double => TableRefusal::DoubleRow { table },
        Unfit::TooLong => TableRefusal::KeyTooLong { table },
        Unfit::Memory => TableRefusal::Memory,
    }
}

/// Takes changes in order, up to the first that doesn't stand on the rows before it.
fn take_changes(
    alloc: Global,
    tables: &mut Vec<KeyedRows>,
    changes: &[Change],
) -> Result<(), TableRefusal>
    ensures after { OnOk result (tables.new.items ≡ tables_after tables.old.items changes.now) }
    ensures fits { OnOk result (first_unfit tables.old.items changes.now ≡ None) }
    ensures unfit { IfErr result (RefusalTells (first_unfit tables.old.items changes.now)) }
{
    for change in changes {
        match take_change(alloc, tables, change) {
            Ok(()) => {}
            Err(unfit) => return Err(refusal_of(alloc, unfit, &change.table)),
        }
    }
    Ok(())
}

impl Tables {
    /// Refuses for good.
    fn refuse(&mut self, why: TableRefusal) -> TableRefusal
        ensures refused { self.new.refused ≡ Some result }
        ensures why { (result ≡ TableRefusal.Memory) ⊎ (result ≡ why) }
    {
        match why.copy(self.alloc) {
            Ok(told) => {
                self.refused = Some(why);
                told
            }
            Err(_) => {
                self.refused = Some(TableRefusal::Memory);
                TableRefusal::Memory
            }
        }
    }

    /// Takes changes in order, and passes over those of tables without a key. After a refusal each later
    /// call answers the same, and which rows there are isn't said.
    pub fn apply(&mut self, changes: &[Change]) -> Result<(), TableRefusal>
        ensures later { IfSome self.old.refused (λ why. Unless TableRefusal.Memory result (Err why) × (self.new ≡ self.old)) }
        ensures applied { self.old.refused ≡ None → OnOk result (self.new ≡ record { tables = tables_after self.old.tables changes.now; refused = None }) }
        ensures fits { self.old.refused ≡ None → OnOk result (first_unfit self.old.tables changes.now ≡ None) }
        ensures unfit { self.old.refused ≡ None → IfErr result (RefusalTells (first_unfit self.old.tables changes.now)) }
        ensures refused { self.old.refused ≡ None → IfErr result (λ why. self.new.refused ≡ Some why) }
    {
        if let Some(why) = &self.refused {
            return Err(why.copy(self.alloc)?);
        }
        match take_changes(self.alloc, &mut self.tables, changes) {
            Ok(()) => Ok(()),
            Err(why) => Err(self.refuse(why)),
        }
    }
}
