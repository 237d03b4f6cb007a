ghost use Rattle.std.specs.Prelude.{◌≡◌, ◌≤◌, IfOk, MatchOption, length, nat_le};
ghost use Rattle.vs_base.specs.Cells.{FitsKey, row_size};

use crate::{Cell, Image, OutOfMemory, Text};
use std::alloc::Global;

/// A row of a table before and after a statement: an insert has no image before, a delete none
/// after.
#[derive(Debug, Drop)]
pub struct Change {
    pub table: Text,
    pub before: Option<Image>,
    pub after: Option<Image>,
}

impl Change {
    pub fn copy(&self, alloc: Global) -> Result<Change, OutOfMemory>
        ensures { IfOk result (λ c. c ≡ self.now) }
    {
        Ok(Change {
            table: self.table.copy(alloc)?,
            before: copy_image(alloc, &self.before)?,
            after: copy_image(alloc, &self.after)?,
        })
    }
}

fn copy_image(alloc: Global, image: &Option<Image>) -> Result<Option<Image>, OutOfMemory>
    ensures { IfOk result (λ i. i ≡ image.now) }
{
    match image {
        Some(image) => Ok(Some(image.copy(alloc)?)),
        None => Ok(None),
    }
}

/// How far a copy has come: a table, and the key of the last row of it that was sent. The name has
/// at most 64 bytes, the key at most 4,096 cells of together 3,072 bytes.
#[derive(Debug, Drop)]
pub struct LastKey {
    pub table: Text,
    pub key: Image,
    pub ghost table_fits: { length table ≤ 64 },
    pub ghost few_cells: { length key ≤ 4096 },
    pub ghost few_bytes: { row_size key ≤ 3072 },
}

impl LastKey {
    /// The last key of these parts, or none where one of them is over its limit.
    pub fn new(table: Text, key: Image) -> Option<LastKey>
        ensures { MatchOption result (¬ FitsKey table key) (λ k. (k.table ≡ table) × (k.key ≡ key)) }
    {
        if table.as_bytes().len() > 64 || key.cells().len() > 4096 || !is_short(key.cells()) {
            return None;
        }
        Some(LastKey { table, key })
    }

    pub fn copy(&self, alloc: Global) -> Result<LastKey, OutOfMemory>
        ensures { IfOk result (λ k. k ≡ self.now) }
    {
        Ok(LastKey {
            table: self.table.copy(alloc)?,
            key: self.key.copy(alloc)?,
        })
    }
}

/// Whether the cells have at most 3,072 bytes together.
fn is_short(cells: &[Cell]) -> bool
    ensures { result ≡ nat_le (row_size cells.now) 3072 }
{
    let mut left = 3072usize;
    for cell in cells {
        let size = cell.size();
        if size > left {
            return false;
        }
        left -= size;
    }
    true
}
