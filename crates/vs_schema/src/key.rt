ghost use Rattle.std.specs.Prelude.{◌≡◌, ◌==◌, []};
ghost use Rattle.std.specs.List.{list_any, position};
ghost use Rattle.vs_schema.specs.Lines.{words_of};
ghost use Rattle.vs_schema.specs.Reading.{GivesLine};
ghost use Rattle.vs_schema.specs.Rules.{key_place, key_with, may_be_key, names_column};

use crate::cut::{cut_word, is_same};
use crate::fault::LineFault;
use std::alloc::Global;
use vs_base::{Column, ColumnKind, List};

/// The places of the columns with these names, as the key of a table.
#[tactic(auto, unfolding(crate::specs::Rules::key_with))]
pub fn read_key(alloc: Global, columns: &[Column], names: &[u8]) -> Result<List<usize>, LineFault>
    ensures { GivesLine result (key_with columns.now [] (words_of names.now)) }
{
    let mut key = List::new(alloc);
    let mut rest = names;
    'names: loop {
        match cut_word(rest) {
            Some((name, more)) => {
                key.push(place_in_key(columns, key.as_slice(), name)?)?;
                rest = more;
            }
            None => {
                key.push(place_in_key(columns, key.as_slice(), rest)?)?;
                return Ok(key);
            }
        }
    }
}

/// The place of the column with this name, where it may follow such a key.
#[tactic(auto, unfolding(crate::specs::Rules::key_place))]
fn place_in_key(columns: &[Column], key: &[usize], name: &[u8]) -> Result<usize, LineFault>
    ensures { GivesLine result (key_place columns.now key.now name.now) }
{
    let Some(place) = place_of(columns, name) else {
        return Err(LineFault::Wrong);
    };
    let Some(column) = columns.get(place) else {
        return Err(LineFault::Wrong);
    };
    if !may_be_key(&column.kind) {
        return Err(LineFault::Wrong);
    }
    if has_place(key, place) {
        return Err(LineFault::Wrong);
    }
    Ok(place)
}

fn place_of(columns: &[Column], name: &[u8]) -> Option<usize>
    ensures { result ≡ position (names_column name.now) columns.now }
{
    columns
        .iter()
        .position(|column| is_same(column.name.as_bytes(), name))
}

fn has_place(key: &[usize], wanted: usize) -> bool
    ensures { result ≡ list_any (λ other. other == wanted) key.now }
{
    key.iter().any(|other| *other == wanted)
}

fn may_be_key(kind: &ColumnKind) -> bool
    ensures { result ≡ may_be_key kind.now }
{
    !matches!(
        kind,
        ColumnKind::Decimal { .. } | ColumnKind::Text | ColumnKind::Blob
    )
}
