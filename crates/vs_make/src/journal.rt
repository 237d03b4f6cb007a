//! The row of a journal in the table of journals, and the bodies of its events.
ghost use Rattle.std.specs.Prelude.{◌≡◌, [], ◌∷◌, IfOk, codes};
ghost use Rattle.std.specs.Fmt.{signed_decimal};
ghost use Rattle.vs_base.specs.declared.cell.Cell.TheVariants.{Bytes};
ghost use Rattle.vs_journal.specs.Judgement.{plain_journal};
ghost use Rattle.vs_journal.specs.Texts.{journal_text};
ghost use Rattle.vs_make.specs.Journals.{TellsJournal, journal_row, journal_table};
ghost use Rattle.vs_make.specs.Rows.{inserted};
ghost use Rattle.vs_rows.specs.Tables.{journal_name, schema_of};

use crate::bodies::{Bodies, INSERTS};
use crate::rows::{inserts_body, map_body};
use crate::same::are_same_changes;
use itoa::Buffer;
use std::alloc::{AllocError, Global};
use vs_base::{Cell, Change, Column, ColumnKind, Image, List, OutOfMemory, Table, Text};
use vs_gtid::JournalValue;
use vs_journal::write_text;
use vs_rows::{Maps, RowsOf};
use vs_schema::Schema;

fn column(alloc: Global, name: &[u8], kind: ColumnKind) -> Result<Column, OutOfMemory>
    ensures { IfOk result (λ c. c ≡ record { name = name.now; kind = kind }) }
{
    Ok(Column {
        name: Text::from_bytes(alloc, name)?,
        kind,
    })
}

/// The table of journals.
fn journal_table(alloc: Global) -> Result<Table, OutOfMemory>
    ensures { IfOk result (λ t. t ≡ journal_table) }
{
    let mut columns = List::new(alloc);
    columns.push(column(alloc, b"id", ColumnKind::BigInt { unsigned: false })?)?;
    columns.push(column(alloc, b"db_name", ColumnKind::VarBinary { length: 255 })?)?;
    columns.push(column(alloc, b"val", ColumnKind::Blob)?)?;
    Ok(Table {
        name: Text::from_bytes(alloc, b"resharding_journal")?,
        columns,
        key: List::new(alloc),
    })
}

fn id_cell(alloc: Global, id: i64) -> Result<Cell, OutOfMemory>
    ensures { IfOk result (λ c. c ≡ Bytes (signed_decimal id)) }
{
    let mut buffer = Buffer::new();
    Ok(Cell::Bytes(Text::from_bytes(alloc, buffer.format(id).as_bytes())?))
}

fn name_cell(alloc: Global, keyspace: &[u8]) -> Result<Cell, OutOfMemory>
    ensures { IfOk result (λ c. c ≡ Bytes (schema_of keyspace.now)) }
{
    let mut name = Vec::new(alloc);
    name.extend_from_slice(b"vt_")?;
    name.extend_from_slice(keyspace)?;
    Ok(Cell::Bytes(Text::from_vec(name)))
}

fn text_cell(alloc: Global, journal: &JournalValue) -> Result<Cell, OutOfMemory>
    ensures { IfOk result (λ c. c ≡ Bytes (journal_text (plain_journal journal.now))) }
{
    let mut text = Vec::new(alloc);
    write_text(alloc, &mut text, journal)?;
    Ok(Cell::Bytes(Text::from_vec(text)))
}

/// The id, `vt_` and the keyspace, and the text of the journal.
fn journal_row(alloc: Global, keyspace: &[u8], journal: &JournalValue) -> Result<Image, OutOfMemory>
    ensures { IfOk result (λ r. r ≡ journal_row keyspace.now (plain_journal journal.now)) }
{
    let mut row = Image::new(alloc);
    row.push(id_cell(alloc, journal.id)?)?;
    row.push(name_cell(alloc, keyspace)?)?;
    row.push(text_cell(alloc, journal)?)?;
    Ok(row)
}

/// The bodies, where they tell this insert into the table of journals.
#[tactic(auto, using(crate::proofs::RowLaws::journal_known))]
fn telling(
    alloc: Global,
    keyspace: &[u8],
    change: &Change,
    bodies: Bodies,
) -> Result<Bodies, OutOfMemory>
    ensures { IfOk result (λ b. TellsJournal keyspace.now b.map.items b.rows.items change.now) }
{
    let schema = Schema {
        tables: List::new(alloc),
        skipped: List::new(alloc),
    };
    let mut maps = Maps::new(alloc);
    if maps.put(bodies.map.as_slice(), &schema, keyspace).is_err() {
        return Err(AllocError);
    }
    match maps.rows(alloc, INSERTS, bodies.rows.as_slice()) {
        Ok(RowsOf::Journal(read)) => {
            if are_same_changes(read.as_slice(), std::slice::from_ref(change)) {
                Ok(bodies)
            } else {
                Err(AllocError)
            }
        }
        _ => Err(AllocError),
    }
}

/// The bodies of a transaction that inserts the journal. They are read again before they are taken.
pub(crate) fn journal_bodies(
    alloc: Global,
    keyspace: &[u8],
    journal: &JournalValue,
) -> Result<Bodies, OutOfMemory>
    ensures { IfOk result (λ b. TellsJournal keyspace.now b.map.items b.rows.items (inserted journal_name (journal_row keyspace.now (plain_journal journal.now)))) }
{
    let table = journal_table(alloc)?;
    let row = journal_row(alloc, keyspace, journal)?;
    let rows = inserts_body(alloc, &table, std::slice::from_ref(&row))?;
    let bodies = Bodies {
        map: map_body(alloc, b"_vt", &table)?,
        rows,
    };
    let change = Change {
        table: table.name,
        before: None,
        after: Some(row),
    };
    telling(alloc, keyspace, &change, bodies)
}
