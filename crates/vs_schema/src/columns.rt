ghost use Rattle.std.specs.Prelude.{◌≡◌};
ghost use Rattle.std.specs.List.{list_any};
ghost use Rattle.vs_schema.specs.Lines.{words_of};
ghost use Rattle.vs_schema.specs.Reading.{Holds};
ghost use Rattle.vs_schema.specs.Rules.{is_name, may_come, names_column, with_column, with_key};

use crate::cut::{cut_word, is_same};
use crate::fault::LineFault;
use crate::key::read_key;
use crate::kind::read_kind;
use std::alloc::Global;
use vs_base::{Column, Table, Text};

/// The most columns of a table.
const MOST_COLUMNS: usize = 4096;

/// Adds the column of these words, a name and a kind, to the table.
#[tactic(auto, unfolding(crate::specs::Rules::with_column, crate::specs::Kinds::kind_of))]
pub fn add_column(alloc: Global, table: &mut Table, words: &[u8]) -> Result<(), LineFault>
    ensures { Holds result table.new (with_column table.old (words_of words.now)) }
{
    let Some((name, kind)) = cut_word(words) else {
        return Err(LineFault::Wrong);
    };
    let Some(kind) = read_kind(kind) else {
        return Err(LineFault::Wrong);
    };
    if !may_come(name, table.columns.as_slice()) {
        return Err(LineFault::Wrong);
    }
    let name = Text::from_bytes(alloc, name)?;
    table.columns.push(Column { name, kind })?;
    Ok(())
}

/// Gives the table the key of these columns, if it has none.
#[tactic(auto, unfolding(crate::specs::Rules::with_key))]
pub fn set_key(alloc: Global, table: &mut Table, words: &[u8]) -> Result<(), LineFault>
    ensures { Holds result table.new (with_key table.old (words_of words.now)) }
{
    if table.key.as_slice().len() != 0 {
        return Err(LineFault::Wrong);
    }
    table.key = read_key(alloc, table.columns.as_slice(), words)?;
    Ok(())
}

pub fn is_name(name: &[u8]) -> bool
    ensures { result ≡ is_name name.now }
{
    1 <= name.len() && name.len() <= 64
}

/// Whether a column with this name may come behind these.
fn may_come(name: &[u8], columns: &[Column]) -> bool
    ensures { result ≡ may_come name.now columns.now }
{
    if !is_name(name) {
        return false;
    }
    if is_column(columns, name) {
        return false;
    }
    columns.len() < MOST_COLUMNS
}

fn is_column(columns: &[Column], name: &[u8]) -> bool
    ensures { result ≡ list_any (names_column name.now) columns.now }
{
    columns
        .iter()
        .any(|column| is_same(column.name.as_bytes(), name))
}
