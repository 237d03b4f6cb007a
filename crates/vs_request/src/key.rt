//! The last key of an entry.
ghost use Rattle.std.specs.Prelude.{◌≡◌, ◌⊎◌, ◌≤◌, IfOk, MatchOption, MatchResult, length};
ghost use Rattle.vs_request.specs.Entries.{FitsLimits, IsLastKey, IsLongKey};
ghost use Rattle.vs_request.specs.Keys.{behind_cell, cell_of, cells_of, key_cells};

use crate::{OutOfMemory, RequestRefusal};
use std::alloc::Global;
use vs_base::{Cell, Image, LastKey, Text};
use vs_proto::TableKey;

/// How many cells a key may have.
const MOST_CELLS: usize = 4096;

/// The first cell, of this length.
fn read_cell(alloc: Global, length: i64, values: &[u8]) -> Result<Cell, OutOfMemory>
    ensures { IfOk result (λ cell. cell ≡ cell_of length values.now) }
{
    match usize::try_from(length) {
        Ok(n) => Ok(Cell::Bytes(Text::from_bytes(alloc, &values[..n.min(values.len())])?)),
        Err(_) => Ok(Cell::Null),
    }
}

/// What stands behind it.
fn behind_cell(length: i64, values: &[u8]) -> &[u8]
    ensures { result.now ≡ behind_cell length values.now }
{
    match usize::try_from(length) {
        Ok(n) => &values[n.min(values.len())..],
        Err(_) => values,
    }
}

/// The cells of these lengths, whose bytes stand one behind the other.
#[tactic(auto, using(crate::proofs::KeyLemmas::next_cell))]
fn read_cells(alloc: Global, lengths: &[i64], values: &[u8]) -> Result<Image, OutOfMemory>
    ensures { IfOk result (λ cells. cells ≡ cells_of lengths.now values.now) }
{
    let mut image = Image::new(alloc);
    let mut rest = values;
    for length in lengths {
        image.push(read_cell(alloc, *length, rest)?)?;
        rest = behind_cell(*length, rest);
    }
    Ok(image)
}

/// The last key of a message, if it is within the limits. One of too many cells isn't built.
#[tactic(auto, using(crate::proofs::KeyLemmas::many_cells))]
fn fitting_key(alloc: Global, key: &TableKey) -> Result<Option<LastKey>, OutOfMemory>
    ensures { IfOk result (λ last. MatchOption last (¬ FitsLimits key.now) (λ last. (last.table ≡ key.now.table_name) × (last.key ≡ key_cells key.now))) }
{
    let table = key.table_name.copy(alloc)?;
    let Some(row) = &key.key else {
        return Ok(LastKey::new(table, Image::new(alloc)));
    };
    let lengths = row.lengths.as_slice();
    if lengths.len() > MOST_CELLS {
        return Ok(None);
    }
    let cells = read_cells(alloc, lengths, row.values.as_bytes())?;
    Ok(LastKey::new(table, cells))
}

/// The last key that the entry at this index names, if it names one.
pub(crate) fn read_last_key(
    alloc: Global,
    index: usize,
    keys: &[TableKey],
) -> Result<Option<LastKey>, RequestRefusal>
    requires { length keys.now ≤ 1 }
    ensures { MatchResult result (λ last. IsLastKey keys.now last) (λ e. (e ≡ RequestRefusal.Memory) ⊎ ((e ≡ RequestRefusal.LongKey index) × IsLongKey keys.now)) }
{
    let Some(key) = keys.first() else {
        return Ok(None);
    };
    match fitting_key(alloc, key)? {
        Some(last) => Ok(Some(last)),
        None => Err(RequestRefusal::LongKey { index }),
    }
}
