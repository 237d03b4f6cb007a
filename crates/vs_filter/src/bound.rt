ghost use Rattle.std.specs.Prelude.{◌≡◌, IfOk};
ghost use Rattle.std.specs.Option.{option_and_then, option_copied, option_map};
ghost use Rattle.vs_select.specs.Rows.{taken_row};
ghost use Rattle.vs_filter.specs.Picks.{fields_in, pick_in, picked_in};

use std::alloc::Global;
use vs_base::{Change, Column, Image, List, OutOfMemory, Text};
use vs_select::BoundSelect;

/// A table of which rows leave: its name, the columns that are taken, and the rows that are kept.
#[derive(Debug, Drop)]
pub struct Picked {
    pub name: Text,
    pub columns: List<Column>,
    pub select: BoundSelect,
}

/// A filter, bound to the schema of a shard: the tables of which rows leave, ascending.
#[derive(Debug, Drop)]
pub struct Bound {
    pub tables: List<Picked>,
}

/// The picked table of a name.
fn find_picked<'a>(tables: &'a [Picked], name: &[u8]) -> Option<&'a Picked>
    ensures { option_copied result ≡ picked_in tables.now name.now }
{
    tables.iter().find(|picked| picked.name.as_bytes() == name)
}

/// An image of a change, picked.
fn pick_image(
    alloc: Global,
    select: &BoundSelect,
    image: &Option<Image>,
) -> Result<Option<Image>, OutOfMemory>
    ensures { IfOk result (λ r. r ≡ option_and_then (taken_row select.now) image.now) }
{
    match image {
        Some(image) => select.take_row(alloc, image),
        None => Ok(None),
    }
}

impl Bound {
    /// The change with each image picked; none where no image is left.
    pub fn pick(&self, alloc: Global, change: &Change) -> Result<Option<Change>, OutOfMemory>
        ensures { IfOk result (λ c. c ≡ pick_in self.now.tables change.now) }
    {
        let Some(picked) = find_picked(self.tables.as_slice(), change.table.as_bytes()) else {
            return Ok(None);
        };
        let before = pick_image(alloc, &picked.select, &change.before)?;
        let after = pick_image(alloc, &picked.select, &change.after)?;
        if before.is_none() && after.is_none() {
            return Ok(None);
        }
        Ok(Some(Change {
            table: change.table.copy(alloc)?,
            before,
            after,
        }))
    }

    /// The columns of a picked table, as its FIELD event tells them; none where the table isn't picked.
    pub fn fields(&self, alloc: Global, table: &[u8]) -> Result<Option<Vec<Column>>, OutOfMemory>
        ensures { IfOk result (λ c. option_map (λ v. v.items) c ≡ fields_in self.now.tables table.now) }
    {
        match find_picked(self.tables.as_slice(), table) {
            Some(picked) => Ok(Some(picked.columns.copy(alloc)?.into_vec())),
            None => Ok(None),
        }
    }
}
