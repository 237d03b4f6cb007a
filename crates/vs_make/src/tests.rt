use crate::{LogWriter, law_bases, law_statements, law_transactions};
use std::alloc::{AllocError, Global};
use std::process::Abort;
use vs_base::{Cell, Change, Gtid, Image, OutOfMemory, Table, Text};
use vs_entries::{Reader, Took};
use vs_gtid::{GtidSet, JournalValue, Work};
use vs_journal::read_text;
use vs_schema::Schema;

/// A log of two statements in the shard of keyspace c: the magic, a format description, a base of no
/// GTID, and for each statement the event that names it and a query.
const TWO_DROPS: &[u8] = b"\xfebin\
    \x09\0\0\0\x0f\0\0\0\0\x51\0\0\0\0\0\0\0\0\0\
    \x04\0\0\0\0\0\0\0\0\0\0\0\0\0\0\0\0\0\0\0\0\0\0\0\0\0\0\0\0\0\0\0\0\0\0\0\0\0\0\0\0\0\0\0\0\0\0\0\0\0\0\0\
    \x09\0\0\0\x13\0\0\0\0\0\
    \x09\0\0\0\x23\0\0\0\0\x1b\0\0\0\0\0\0\0\0\0\0\0\0\0\0\0\0\0\
    \x64\0\0\0\x21\0\0\0\0\x2c\0\0\0\0\0\0\0\0\0\
    \0\0\0\0\0\0\0\0\0\0\0\0\0\0\0\0\x01\x01\0\0\0\0\0\0\0\
    \x64\0\0\0\x02\0\0\0\0\x31\0\0\0\0\0\0\0\0\0\
    \0\0\0\0\0\0\0\0\x04\0\0\0\0vt_c\0drop table t\
    \x65\0\0\0\x21\0\0\0\0\x2c\0\0\0\0\0\0\0\0\0\
    \0\0\0\0\0\0\0\0\0\0\0\0\0\0\0\0\x01\x02\0\0\0\0\0\0\0\
    \x65\0\0\0\x02\0\0\0\0\x31\0\0\0\0\0\0\0\0\0\
    \0\0\0\0\0\0\0\0\x04\0\0\0\0vt_c\0drop table s";

const UUID: [u8; 16] = [0, 0, 0, 0, 0, 0, 0, 0, 0, 0, 0, 0, 0, 0, 0, 1];

fn put_drop(
    writer: &mut LogWriter,
    number: u64,
    text: &[u8],
    time: u32,
) -> Result<(), OutOfMemory> {
    match Gtid::new(UUID, number) {
        Some(gtid) => writer.ddl(gtid, b"vt_c", text, time),
        None => Err(AllocError),
    }
}

/// A writer behind two statements, the numbers of which follow the first.
fn two_drops(alloc: Global, base: &GtidSet, first: u64) -> Result<LogWriter, OutOfMemory> {
    let mut writer = LogWriter::new(alloc, base, 9)?;
    put_drop(&mut writer, first, b"drop table t", 100)?;
    put_drop(&mut writer, first.wrapping_add(1), b"drop table s", 101)?;
    Ok(writer)
}

fn writes_two_drops(alloc: Global) -> bool {
    match two_drops(alloc, &GtidSet::new(alloc), 1) {
        Ok(writer) => writer.bytes() == TWO_DROPS,
        Err(_) => false,
    }
}

#[test]
fn statements_are_laid_out_as_a_binlog_has_them(rt: HostRuntime) {
    assert_eq!(rt; TWO_DROPS.len(), 298);
    assert!(rt; writes_two_drops(rt.alloc()));
}

/// The number, the time and the size of the statement of the next entry; zeros where there is none.
fn next_statement(reader: &mut Reader) -> (u64, u32, usize) {
    match reader.next_entry() {
        Ok(Took::Entry { entry, .. }) => match &entry.work {
            Work::Ddl(text) => (entry.gtid.number, entry.time, text.as_bytes().len()),
            _ => (0, 1, 0),
        },
        Ok(Took::More) => (0, 0, 0),
        Err(_) => (0, 2, 0),
    }
}

fn reader_of(alloc: Global, log: &[u8]) -> Result<Reader, OutOfMemory> {
    let Ok(schema) = Schema::read(alloc, b"") else {
        return Err(AllocError);
    };
    let mut reader = Reader::new(alloc, &schema, b"c")?;
    reader.feed(log)?;
    Ok(reader)
}

/// Whether the log of this base is read as that base and its statements, and nothing else.
fn is_read_again(alloc: Global, base: &GtidSet, first: u64) -> bool {
    let Ok(writer) = two_drops(alloc, base, first) else {
        return false;
    };
    let Ok(mut reader) = reader_of(alloc, writer.bytes()) else {
        return false;
    };
    next_statement(&mut reader) == (first, 100, 12)
        && next_statement(&mut reader) == (first.wrapping_add(1), 101, 12)
        && next_statement(&mut reader) == (0, 0, 0)
        && reader.base().is_some_and(|read| read.is_same(base))
}

/// Bases, and a number that the first server may give next.
const BASES: &[(&[u8], u64)] = &[
    (b"", 1),
    (b"00000000-0000-0000-0000-000000000001:1-5", 6),
    (
        b"00000000-0000-0000-0000-000000000001:1-5:7:9-20,00000000-0000-0000-0000-00000000000b:1-9223372036854775806,00000000-0000-0000-0000-00000000000d:3",
        21,
    ),
];

#[test]
fn what_is_written_is_read_again(rt: HostRuntime) {
    for (text, first) in BASES {
        let base = GtidSet::parse(rt.alloc(), text);
        assert!(rt; base.is_ok_and(|base| is_read_again(rt.alloc(), &base, *first)));
    }
}

/// A table, and rows of it: texts, and None for NULL.
const TWO_COLUMNS: &[u8] = b"table t\ncolumn id int\ncolumn v varchar(20)\nkey id\n";

const TWO_ROWS: &[&[Option<&[u8]>]] = &[&[Some(b"5"), Some(b"a")], &[Some(b"6"), None]];

/// The body of a rows event that inserts them.
const TWO_INSERTS: &[u8] = b"\x07\0\0\0\0\0\x01\0\x02\0\x02\x03\0\x05\0\0\0\x01a\x02\x06\0\0\0";

/// Each kind of columns, and the greatest, the least and other values of them.
const ALL_COLUMNS: &[u8] =
    b"table t\ncolumn a tinyint\ncolumn b tinyint unsigned\ncolumn c smallint\n\
    column d mediumint\ncolumn e int unsigned\ncolumn f bigint\ncolumn g bigint unsigned\ncolumn h date\n\
    column i timestamp\ncolumn j timestamp(3)\ncolumn k datetime\ncolumn l datetime(6)\n\
    column m decimal(10,2)\ncolumn n decimal(3,3)\ncolumn o varchar(20)\ncolumn p varbinary(300)\n\
    column q text\ncolumn r blob\ncolumn s char(3)\ncolumn u binary(2)\n";

const ALL_ROWS: &[&[Option<&[u8]>]] = &[
    &[
        Some(b"-1"),
        Some(b"255"),
        Some(b"-32768"),
        Some(b"-8388608"),
        Some(b"4294967295"),
        Some(b"-9223372036854775808"),
        Some(b"18446744073709551615"),
        Some(b"2024-02-29"),
        Some(b"1700000000"),
        Some(b"1.005"),
        Some(b"2024-02-29 12:34:56"),
        Some(b"9999-12-31 23:59:59.000001"),
        Some(b"1234567.89"),
        Some(b"-0.007"),
        Some(b""),
        Some(b"\xff\0"),
        Some(b"some text"),
        Some(b""),
        Some(b"abc"),
        Some(b"a\0"),
    ],
    &[
        Some(b"127"),
        Some(b"0"),
        Some(b"32767"),
        Some(b"8388607"),
        Some(b"0"),
        Some(b"9223372036854775807"),
        Some(b"0"),
        Some(b"0000-00-00"),
        Some(b"0"),
        Some(b"4294967295.999"),
        Some(b"0000-00-00 00:00:00"),
        Some(b"1000-01-01 00:00:00.999999"),
        Some(b"-1234567.89"),
        Some(b"0.999"),
        Some(b"12345678901234567890"),
        None,
        None,
        Some(b"x"),
        Some(b""),
        None,
    ],
];

fn row_of(alloc: Global, cells: &[Option<&'static [u8]>]) -> Result<Image, OutOfMemory> {
    let mut row = Image::new(alloc);
    for cell in cells {
        match cell {
            Some(text) => row.push(Cell::Bytes(Text::from_bytes(alloc, text)?))?,
            None => row.push(Cell::Null)?,
        }
    }
    Ok(row)
}

fn rows_of(
    alloc: Global,
    cells: &[&'static [Option<&'static [u8]>]],
) -> Result<Vec<Image>, OutOfMemory> {
    let mut rows = Vec::new(alloc);
    for row in cells {
        rows.push(row_of(alloc, row)?)?;
    }
    Ok(rows)
}

/// A log in which a transaction inserts the rows, and one changes the first to the second.
fn put_rows(
    writer: &mut LogWriter,
    alloc: Global,
    table: &Table,
    rows: &[Image],
) -> Result<(), OutOfMemory> {
    let (Some(first), Some(second)) = (Gtid::new(UUID, 1), Gtid::new(UUID, 2)) else {
        return Err(AllocError);
    };
    writer.insert(first, b"vt_c", table, rows, 100)?;
    let [before, after] = rows else {
        return Err(AllocError);
    };
    let change = Change {
        table: table.name.copy(alloc)?,
        before: Some(before.copy(alloc)?),
        after: Some(after.copy(alloc)?),
    };
    writer.update(second, b"vt_c", table, &[change], 101)
}

fn log_of_rows(
    alloc: Global,
    schema: &Schema,
    cells: &[&'static [Option<&'static [u8]>]],
) -> Result<LogWriter, OutOfMemory> {
    let [table] = schema.tables() else {
        return Err(AllocError);
    };
    let rows = rows_of(alloc, cells)?;
    let mut writer = LogWriter::new(alloc, &GtidSet::new(alloc), 9)?;
    put_rows(&mut writer, alloc, table, rows.as_slice())?;
    Ok(writer)
}

/// The number, the time and the count of changes of the next entry.
fn next_rows(reader: &mut Reader) -> (u64, u32, usize) {
    match reader.next_entry() {
        Ok(Took::Entry { entry, .. }) => match &entry.work {
            Work::Rows(changes) => (entry.gtid.number, entry.time, changes.as_slice().len()),
            _ => (0, 1, 0),
        },
        Ok(Took::More) => (0, 0, 0),
        Err(_) => (0, 2, 0),
    }
}

fn reads_rows(alloc: Global, schema: &Schema, log: &[u8]) -> bool {
    let Ok(mut reader) = Reader::new(alloc, schema, b"c") else {
        return false;
    };
    reader.feed(log).is_ok()
        && next_rows(&mut reader) == (1, 100, 2)
        && next_rows(&mut reader) == (2, 101, 1)
        && next_rows(&mut reader) == (0, 0, 0)
}

/// Whether the rows of the table are written, these bytes among them from a place on, and read again.
fn rows_are_read_again(
    alloc: Global,
    text: &[u8],
    cells: &[&'static [Option<&'static [u8]>]],
    at: usize,
    wanted: &[u8],
) -> bool {
    let Ok(schema) = Schema::read(alloc, text) else {
        return false;
    };
    let Ok(writer) = log_of_rows(alloc, &schema, cells) else {
        return false;
    };
    let log = writer.bytes();
    at <= log.len() && log[at..].starts_with(wanted) && reads_rows(alloc, &schema, log)
}

#[test]
fn rows_are_laid_out_as_a_binlog_has_them(rt: HostRuntime) {
    assert!(rt; rows_are_read_again(rt.alloc(), TWO_COLUMNS, TWO_ROWS, 260, TWO_INSERTS));
}

#[test]
fn values_of_each_kind_are_read_again(rt: HostRuntime) {
    assert!(rt; rows_are_read_again(rt.alloc(), ALL_COLUMNS, ALL_ROWS, 0, b"\xfebin"));
}

/// A journal of the keyspace c.
const JOURNAL: &[u8] =
    b"id:7 migration_type:SHARDS shard_gtids:{keyspace:\"c\" shard:\"-40\" gtid:\"MySQL56/00000000-0000-0000-0000-00000000000b:1\"} participants:{keyspace:\"c\" shard:\"-80\"}";

fn log_of_journal(alloc: Global, journal: &JournalValue) -> Result<LogWriter, OutOfMemory> {
    let Some(gtid) = Gtid::new(UUID, 1) else {
        return Err(AllocError);
    };
    let mut writer = LogWriter::new(alloc, &GtidSet::new(alloc), 9)?;
    writer.journal(gtid, b"c", journal, 100)?;
    Ok(writer)
}

/// Whether the log has an entry without rows in the keyspace d, whose journal it isn't.
fn is_passed_over(alloc: Global, log: &[u8]) -> bool {
    let Ok(schema) = Schema::read(alloc, b"") else {
        return false;
    };
    let Ok(mut reader) = Reader::new(alloc, &schema, b"d") else {
        return false;
    };
    reader.feed(log).is_ok() && next_rows(&mut reader) == (1, 100, 0)
}

/// Whether the journal's text is written as the last bytes before the transaction's end.
fn journal_is_written(alloc: Global) -> bool {
    let Ok(journal) = read_text(alloc, JOURNAL) else {
        return false;
    };
    let Ok(writer) = log_of_journal(alloc, &journal) else {
        return false;
    };
    let log = writer.bytes();
    log[..log.len().saturating_sub(27)].ends_with(JOURNAL) && is_passed_over(alloc, log)
}

#[test]
fn a_journal_is_a_row_of_its_table(rt: HostRuntime) {
    assert!(rt; journal_is_written(rt.alloc()));
}

#[test]
fn laws_can_be_called() {
    law_bases();
    law_statements();
    law_transactions();
}
