ghost use Rattle.std.specs.Prelude.{◌≡◌, IfErr, IfOk, None, OnOk, Some, true};
ghost use Rattle.std.specs.BTreeMap.Range.{entries_between};
ghost use Rattle.std.specs.Map.{values_of};
ghost use Rattle.std.specs.Option.{option_copied};
ghost use Rattle.std.specs.declared.ops.Bound.{Bound};
ghost use Rattle.vs_tables.specs.Parts.{fits_limits, parts_of};
ghost use Rattle.vs_tables.specs.Changes.{
  RowFaultTells,
  fault_of_change,
  is_long,
  table_after,
  with_come,
  with_gone,
};
ghost use Rattle.vs_tables.specs.Rows.{
  AreLawfulRows,
  has_row_at,
  is_table_named,
  parts_order,
  rows_behind,
  no_rows,
  row_key,
};

use crate::key::{fits_limits, key_kinds, key_parts, row_parts};
use crate::{PackedRow, RowKey};
use std::alloc::{AllocError, Global};
use std::collections::BTreeMap;
use std::collections::btree_map::Range;
use std::marker::Model;
use std::ops::Bound;
use vs_base::{Change, ColumnKind, Image, List, OutOfMemory, Table, Text};

/// The rows of a table by their keys.
#[derive(Debug, Drop)]
pub struct KeyedRows {
    name: Text,
    /// of the key's columns
    places: List<usize>,
    kinds: List<ColumnKind>,
    /// each at its own key
    rows: BTreeMap<RowKey, PackedRow>,
}

impl Model for KeyedRows {
    ghost use Rattle.std.specs.BTreeMap.{values};
    ghost use Rattle.vs_tables.specs.Rows.{AreKept, TableRows};

    ghost Value = { TableRows };

    ghost view = { λ t. record { name = t.name; places = t.places; kinds = t.kinds; rows = values t.rows } };

    ghost invariant = { λ t. AreKept t.kinds t.places t.rows.entries };
}

/// Why a change doesn't stand on the rows of its table.
#[derive(Debug, Clone, Copy, PartialEq, Eq)]
pub(crate) enum Unfit {
    Missing,
    Double,
    TooLong,
    Memory,
}

impl From<AllocError> for Unfit {
    ghost use Rattle.vs_tables.specs.declared.keyed.Unfit.TheVariants.{Memory};

    ghost from_gives = { λ _ e. e ≡ Memory };

    fn from(_refused: AllocError) -> Unfit {
        Unfit::Memory
    }
}

/// The rows behind a key.
fn above<'a>(rows: &'a BTreeMap<RowKey, PackedRow>, key: &RowKey) -> Range<'a, RowKey, PackedRow>
    ensures { result ≡ entries_between parts_order (Bound.Excluded key.now) Bound.Unbounded rows.now.entries }
{
    rows.range((Bound::Excluded(key), Bound::Unbounded))
}

impl KeyedRows {
    /// A table without a row.
    pub fn new(alloc: Global, table: &Table) -> Result<KeyedRows, OutOfMemory>
        ensures { IfOk result (λ rows. rows ≡ no_rows table.now) }
    {
        Ok(KeyedRows {
            name: table.name.copy(alloc)?,
            places: table.key.copy(alloc)?,
            kinds: key_kinds(alloc, table)?,
            rows: BTreeMap::new(alloc),
        })
    }

    pub fn is_named(&self, name: &[u8]) -> bool
        ensures { result ≡ is_table_named name.now self.now }
    {
        self.name.as_bytes() == name
    }

    /// The key of a row, as the map has it.
    fn key(&self, alloc: Global, row: &Image) -> Result<RowKey, OutOfMemory>
        ensures { IfOk result (λ key. key ≡ parts_of self.now.kinds (row_key self.now row.now)) }
    {
        let parts = row_parts(alloc, self.kinds.as_slice(), self.places.as_slice(), row)?;
        RowKey::new(alloc, parts)
    }

    /// Takes away the row at the key of this one; false where there is none.
    fn remove(&mut self, alloc: Global, row: &Image) -> Result<bool, OutOfMemory>
        ensures found { IfOk result (λ found. found ≡ has_row_at self.old (row_key self.old row.now)) }
        ensures ok { OnOk result (self.new ≡ with_gone self.old (Some row.now)) }
    {
        let key = self.key(alloc, row)?;
        Ok(self.rows.remove(&key).is_some())
    }

    /// Whether there is a row at the key of this one.
    fn has(&self, alloc: Global, row: &Image) -> Result<bool, OutOfMemory>
        ensures { IfOk result (λ found. found ≡ has_row_at self.now (row_key self.now row.now)) }
    {
        let key = self.key(alloc, row)?;
        Ok(self.rows.contains_key(&key))
    }

    /// Puts the row to its key; the one that stands there goes.
    fn put(&mut self, alloc: Global, row: &Image) -> Result<(), OutOfMemory>
        requires { fits_limits (row_key self.old row.now) ≡ true }
        ensures { OnOk result (self.new ≡ with_come self.old (Some row.now)) }
    {
        let key = self.key(alloc, row)?;
        let packed = PackedRow::new(alloc, row)?;
        self.rows.insert(key, packed)?;
        Ok(())
    }

    /// Whether the key of an image is over the limits.
    fn is_long(&self, image: &Option<Image>) -> bool
        ensures { result ≡ is_long self.now image.now }
    {
        match image {
            Some(row) => !fits_limits(self.places.as_slice(), row),
            None => false,
        }
    }

    /// Takes a change of the table. Which rows there are after a refusal isn't said.
    pub(crate) fn take_change(&mut self, alloc: Global, change: &Change) -> Result<(), Unfit>
        ensures after { OnOk result (self.new ≡ table_after self.old change.now) }
        ensures fits { OnOk result (fault_of_change self.old change.now ≡ None) }
        ensures unfit { IfErr result (RowFaultTells (fault_of_change self.old change.now)) }
    {
        if let Some(row) = &change.before {
            if !self.remove(alloc, row)? {
                return Err(Unfit::Missing);
            }
        }
        if let Some(row) = &change.after {
            if self.has(alloc, row)? {
                return Err(Unfit::Double);
            }
        }
        if self.is_long(&change.before) || self.is_long(&change.after) {
            return Err(Unfit::TooLong);
        }
        if let Some(row) = &change.after {
            self.put(alloc, row)?;
        }
        Ok(())
    }

    /// The rows behind a key, which is in the order of the table's key; or all. Each with its key.
    pub fn rows_after(
        &self,
        alloc: Global,
        key: Option<&Image>,
    ) -> Result<Range<'_, RowKey, PackedRow>, OutOfMemory>
        ensures rows { IfOk result (λ rows. values_of rows ≡ rows_behind self.now (option_copied key.entry)) }
        ensures lawful { AreLawfulRows self.now }
    {
        let Some(key) = key else {
            return Ok(self.rows.range(..));
        };
        let parts = key_parts(alloc, self.kinds.as_slice(), key.cells())?;
        let key = RowKey::new(alloc, parts)?;
        Ok(above(&self.rows, &key))
    }
}
