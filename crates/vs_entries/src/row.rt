//! What counts of a rows event.
ghost use Rattle.std.specs.Prelude.{◌≡◌, MatchOption, None, Some};
ghost use Rattle.vs_rows.specs.Rows.{rows_meant};
ghost use Rattle.vs_rows.specs.declared.outcome.RowsOf.TheVariants.{Journal as JournalRows};
ghost use Rattle.vs_entries.specs.JournalRows.{
  journal_meant,
  journal_text,
  journal_texts,
  journals_meant,
  text_in,
};
ghost use Rattle.vs_entries.specs.Reading.{Answers, Counts, journal_refusal_of, refusal_of};
ghost use Rattle.vs_entries.specs.Rules.{counted_by, counted_of};

use crate::refusal::Refusal;
use std::alloc::Global;
use vs_base::{Cell, Change, List, Why};
use vs_journal::{JournalRefusal, JournalValue, read_text};
use vs_rows::{Maps, RowRefusal, RowsOf, is_schema_of};

/// What is told of a table map or a rows event whose body isn't taken. The kind is its type.
pub fn refused(kind: u8, refusal: RowRefusal) -> Refusal
    ensures { result ≡ refusal_of kind refusal }
{
    match refusal {
        RowRefusal::BadBody => Refusal::Wrong(Why::BadEvent { kind }),
        RowRefusal::UnknownTableId { id } => Refusal::Wrong(Why::UnknownTableId { id }),
        RowRefusal::UnknownTable { table } => Refusal::Wrong(Why::UnknownTable { table }),
        RowRefusal::Disagrees { table } => Refusal::Wrong(Why::Disagrees { table }),
        RowRefusal::NotFullImage { table } => Refusal::Wrong(Why::NotFullImage { table }),
        RowRefusal::BadRow { table } => Refusal::Wrong(Why::BadRow { table }),
        RowRefusal::Memory => Refusal::Memory,
    }
}

/// What a rows event adds to its transaction.
#[derive(Debug, Drop)]
pub enum Added {
    Changes(List<Change>),
    /// the keyspace's journals that it inserts
    Journals(List<JournalValue>),
}

/// What counts of a rows event.
pub fn read_rows(
    alloc: Global,
    maps: &Maps,
    kind: u8,
    body: &[u8],
    keyspace: &[u8],
) -> Result<Added, Refusal>
    ensures { Counts result (counted_by keyspace.now kind (rows_meant maps.now kind body.now)) }
{
    match maps.rows(alloc, kind, body) {
        Ok(RowsOf::Changes(changes)) => Ok(Added::Changes(changes)),
        Ok(RowsOf::Passed) => Ok(Added::Changes(List::new(alloc))),
        Ok(RowsOf::Journal(changes)) => added_journals(alloc, changes.as_slice(), keyspace),
        Err(refusal) => Err(refused(kind, refusal)),
    }
}

/// The journals that changes of the table of journals insert, as what they add to their transaction.
#[inline(never)]
fn added_journals(alloc: Global, changes: &[Change], keyspace: &[u8]) -> Result<Added, Refusal>
    ensures { Counts result (counted_of keyspace.now (JournalRows changes.now)) }
{
    match read_journals(alloc, changes, keyspace) {
        Ok(journals) => Ok(Added::Journals(journals)),
        Err(refusal) => Err(refusal),
    }
}

/// The journals of the keyspace that changes of the table of journals insert.
fn read_journals(
    alloc: Global,
    changes: &[Change],
    keyspace: &[u8],
) -> Result<List<JournalValue>, Refusal>
    ensures { Answers result (journals_meant (journal_texts keyspace.now changes.now)) }
{
    let mut journals = List::new(alloc);
    for change in changes {
        let Some(text) = journal_text(change, keyspace) else {
            continue;
        };
        match read_journal(alloc, text) {
            Ok(journal) => journals.push(journal)?,
            Err(refusal) => return Err(refusal),
        }
    }
    Ok(journals)
}

/// The journal that a text says.
#[tactic(auto, using(crate::proofs::JournalValues::meant_as_read, crate::proofs::JournalValues::meant_as_refused))]
fn read_journal(alloc: Global, text: &[u8]) -> Result<JournalValue, Refusal>
    ensures { Answers result (journal_meant text.now) }
{
    match read_text(alloc, text) {
        Ok(journal) => Ok(journal),
        Err(refusal) => Err(journal_refused(refusal, text.len())),
    }
}

/// What is told of a journal's text of so many bytes that is refused.
fn journal_refused(refusal: JournalRefusal, size: usize) -> Refusal
    ensures { result ≡ journal_refusal_of size refusal }
{
    let at = match refusal {
        JournalRefusal::BadJournal { at } => at,
        JournalRefusal::Memory => return Refusal::Memory,
        _ => size,
    };
    Refusal::Wrong(Why::BadJournal { at })
}

/// The text of the keyspace's journal that a change of the table of journals inserts.
fn journal_text<'a>(change: &'a Change, keyspace: &[u8]) -> Option<&'a [u8]>
    ensures { MatchOption result (journal_text keyspace.now change.now ≡ None) (λ t. journal_text keyspace.now change.now ≡ Some t.now) }
{
    match (&change.before, &change.after) {
        (None, Some(row)) => text_in(row.cells(), keyspace),
        _ => None,
    }
}

/// The text of a row of the table of journals, if its second cell, the db_name, is `vt_` and the
/// keyspace.
fn text_in<'a>(row: &'a [Cell], keyspace: &[u8]) -> Option<&'a [u8]>
    ensures { MatchOption result (text_in keyspace.now row.now ≡ None) (λ t. text_in keyspace.now row.now ≡ Some t.now) }
{
    match row {
        [_, Cell::Bytes(name), Cell::Bytes(text), ..] => {
            if is_schema_of(name.as_bytes(), keyspace) {
                return Some(text.as_bytes());
            }
            None
        }
        _ => None,
    }
}
