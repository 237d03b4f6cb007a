ghost use Rattle.std.specs.Prelude.{◌≤◌};
ghost use Rattle.vs_log.specs.Events.{last_place};

use crate::events_for_tests::*;
use crate::front::front_event;
use crate::kind::StatementKind;
use crate::progress::Progress;
use crate::query::kind_of;
use crate::{LogRefusal, Reader, Took, law_part};
use std::alloc::{AllocError, Global};
use std::process::Abort;
use vs_base::{OutOfMemory, Why};
use vs_journal::{Entry, Work};
use vs_schema::Schema;

const SCHEMA: &[u8] = b"table t\ncolumn id int\ncolumn v varchar(20)\nkey id\nskip s\n";

/// A reader of the keyspace c that was fed nothing.
fn reader(alloc: Global) -> Result<Reader, OutOfMemory> {
    match Schema::read(alloc, SCHEMA) {
        Ok(schema) => Reader::new(alloc, &schema, b"c"),
        Err(_) => Err(AllocError),
    }
}

/// What a log begins with, before the events of a case.
#[derive(Clone, Copy)]
enum Beginning {
    Nothing,
    /// the format description
    Format,
    /// the same and a base of no GTID
    NoBase,
    /// the same and the beginning of a transaction
    Open,
    /// the format description, and a base of all odd numbers up to 2,047
    Odds,
}

const START: &[&[u8]] = &[MAGIC, FORMAT];

const FRONT: &[&[u8]] = &[MAGIC, FORMAT, NO_BASE];

const OPEN: &[&[u8]] = &[MAGIC, FORMAT, NO_BASE, GTID_1, BEGIN];

fn feed_all(reader: &mut Reader, events: &[&[u8]]) -> Result<(), OutOfMemory> {
    for event in events {
        reader.feed(event)?;
    }
    Ok(())
}

/// The head of a base of 1,024 intervals, and the parts before the intervals.
const ODDS: &[u8] = b"\0\0\0\0\x23\0\0\0\0\x33\x40\0\0\0\0\0\0\0\0\
    \x01\0\0\0\0\0\0\0\0\0\0\0\0\0\0\0\0\0\0\0\0\0\0\x01\0\x04\0\0\0\0\0\0";

/// Feeds such a base, each number as an interval of its own.
fn feed_odds(reader: &mut Reader) -> Result<(), OutOfMemory> {
    reader.feed(ODDS)?;
    for number in 1u64..2049 {
        reader.feed(&number.to_le_bytes())?;
    }
    Ok(())
}

fn feed_beginning(reader: &mut Reader, beginning: Beginning) -> Result<(), OutOfMemory> {
    match beginning {
        Beginning::Nothing => Ok(()),
        Beginning::Format => feed_all(reader, START),
        Beginning::NoBase => feed_all(reader, FRONT),
        Beginning::Open => feed_all(reader, OPEN),
        Beginning::Odds => {
            feed_all(reader, START)?;
            feed_odds(reader)
        }
    }
}

/// What a fault is called, and the number that it names.
fn fault_of(why: &Why) -> (&'static str, u64) {
    match why {
        Why::BadMagic => ("bad magic", 0),
        Why::NoFormat => ("no format", 0),
        Why::BadVersion { version } => ("bad version", *version as u64),
        Why::Checksummed { kind } => ("checksummed", *kind as u64),
        Why::BadLength { length } => ("bad length", *length as u64),
        Why::BadEvent { kind } => ("bad event", *kind as u64),
        Why::BadOrder { kind } => ("out of order", *kind as u64),
        Why::NestedBegin => ("nested begin", 0),
        Why::Anonymous => ("anonymous", 0),
        Why::BadGtid => ("bad gtid", 0),
        Why::RepeatedGtid { gtid } => ("repeated gtid", gtid.number),
        Why::Unsupported { kind } => ("unsupported event", *kind as u64),
        Why::UnsupportedStatement => ("unsupported statement", 0),
        Why::TooLarge { bytes } => ("too large", *bytes),
        Why::TooManyIntervals => ("too many intervals", 0),
        Why::UnknownTableId { id } => ("unknown table id", *id),
        Why::UnknownTable { .. } => ("unknown table", 0),
        Why::Disagrees { .. } => ("disagrees", 0),
        Why::NotFullImage { .. } => ("not full", 0),
        Why::BadRow { .. } => ("bad row", 0),
        Why::BadJournal { at } => ("bad journal", *at as u64),
        Why::JournalNotAlone => ("journal not alone", 0),
    }
}

/// An answer of a reader, by numbers and names alone.
#[derive(Clone, Copy)]
enum Answer {
    /// an entry by its number, its work and the size of that, its time, and its two places
    Entry(u64, &'static str, u64, u32, u64, u64),
    More,
    /// what is wrong, the number that it names, and its place
    Fault(&'static str, u64, u64),
}

fn work_of(work: &Work) -> (&'static str, u64) {
    match work {
        Work::Ddl(text) => ("ddl", text.as_bytes().len() as u64),
        Work::Other => ("other", 0),
        Work::Rows(changes) => ("rows", changes.as_slice().len() as u64),
        Work::Journal(journal) => ("journal", journal.successors.as_slice().len() as u64),
    }
}

fn entry_answer(entry: &Entry, at: u64, end: u64) -> Answer {
    let (name, size) = work_of(&entry.work);
    Answer::Entry(entry.gtid.number, name, size, entry.time, at, end)
}

fn fault_answer(why: &Why, at: u64) -> Answer {
    let (name, number) = fault_of(why);
    Answer::Fault(name, number, at)
}

fn next_answer(reader: &mut Reader) -> Answer {
    match reader.next_entry() {
        Ok(Took::Entry { entry, at, end }) => entry_answer(&entry, at, end),
        Ok(Took::More) => Answer::More,
        Err(LogRefusal::BadLog { offset, why }) => fault_answer(&why, offset),
        Err(LogRefusal::Memory) => Answer::Fault("no memory", 0, 0),
    }
}

/// What a reader says: a number, a name, and two numbers more.
type Told = (u64, &'static str, u64, u64);

const NO_MEMORY: Told = (0, "no memory", 0, 0);

/// The number of the last entry (0 for none), and the fault behind it with what it names and its
/// place; "open" where there is none.
fn end_of(reader: &mut Reader) -> Told {
    let mut last = 0;
    for _ in 0..5 {
        match next_answer(reader) {
            Answer::Entry(number, ..) => last = number,
            Answer::More => return (last, "open", 0, 0),
            Answer::Fault(name, number, at) => return (last, name, number, at),
        }
    }
    (last, "more entries", 0, 0)
}

/// The same, where it is the same once more bytes came.
fn end_for_good(reader: &mut Reader) -> Told {
    let before = end_of(reader);
    if feed_all(reader, &[GTID_1, DROP_T]).is_err() {
        return NO_MEMORY;
    }
    let after = end_of(reader);
    if after == before {
        before
    } else {
        (0, "something else", 0, 0)
    }
}

/// The size of the next entry, its work, its time and the place behind it.
fn entry_of(reader: &mut Reader) -> Told {
    match next_answer(reader) {
        Answer::Entry(_, work, size, time, _, end) => (size, work, time as u64, end),
        _ => (0, "no entry", 0, 0),
    }
}

/// How many intervals the base has, once it is known.
fn base_of(reader: &mut Reader) -> Told {
    match reader.base() {
        Some(base) => (base.intervals() as u64, "intervals", 0, 0),
        None => (0, "unknown", 0, 0),
    }
}

/// What a reader is asked, behind the events of a case.
#[derive(Clone, Copy)]
enum Ask {
    End,
    EndForGood,
    Entry,
    Base,
    Bytes,
}

/// Feeds the events of a case, and asks.
fn asked(reader: &mut Reader, beginning: Beginning, ask: Ask, events: &[&[u8]]) -> Told {
    if feed_beginning(reader, beginning).is_err() || feed_all(reader, events).is_err() {
        return NO_MEMORY;
    }
    match ask {
        Ask::End => end_of(reader),
        Ask::EndForGood => end_for_good(reader),
        Ask::Entry => entry_of(reader),
        Ask::Base => base_of(reader),
        Ask::Bytes => held_after_bytes(reader),
    }
}

/// The same of a reader of its own. No other function owns one, since its proof grows with what it owns.
fn told_of(alloc: Global, beginning: Beginning, ask: Ask, events: &[&[u8]]) -> Told {
    match reader(alloc) {
        Ok(mut reader) => asked(&mut reader, beginning, ask, events),
        Err(_) => NO_MEMORY,
    }
}

/// Events of a log, and what a reader tells of it.
type Case = (&'static [&'static [u8]], Told);

/// Checks logs that begin alike.
fn check(rt: &impl Abort, alloc: Global, beginning: Beginning, ask: Ask, cases: &[Case]) {
    for (events, wanted) in cases {
        assert_eq!(rt; told_of(alloc, beginning, ask, events), *wanted);
    }
}

/// Logs from their first byte on. The faults of a format description have an order.
const STARTS: &[Case] = &[
    (&[], (0, "open", 0, 0)),
    (&[b"\xfeb"], (0, "open", 0, 0)),
    (&[b"\xfec"], (0, "bad magic", 0, 0)),
    (&[b"\xfebix", FORMAT], (0, "bad magic", 0, 0)),
    (&[MAGIC, GTID_1], (0, "no format", 0, 4)),
    (&[MAGIC, IGNORABLE], (0, "no format", 0, 4)),
    (&[MAGIC, LARGE_QUERY], (0, "too large", 67_108_865, 4)),
    (&[MAGIC, SHORT_HEAD], (0, "bad length", 18, 4)),
    (&[MAGIC, SHORT_FORMAT], (0, "bad event", 15, 4)),
    (&[MAGIC, FORMAT_OF_5], (0, "bad version", 5, 4)),
    (&[MAGIC, FORMAT_OF_18], (0, "bad event", 15, 4)),
    (&[MAGIC, FORMAT_SUMMED], (0, "checksummed", 1, 4)),
];

#[test]
fn starts(rt: HostRuntime) {
    check(&rt, rt.alloc(), Beginning::Nothing, Ask::End, STARTS);
}

/// Events behind the format description, from byte 85 on: bases, and GTIDs that stood before.
const BASES: &[Case] = &[
    (&[CUT_BASE], (0, "bad event", 35, 85)),
    (&[NO_BASE, NO_BASE], (0, "out of order", 35, 112)),
    (&[GTID_1, DROP_T, NO_BASE], (1, "out of order", 35, 178)),
    (&[FORMAT], (0, "out of order", 15, 85)),
    (&[ANONYMOUS], (0, "anonymous", 0, 85)),
    (
        &[FIRST_FIVE, GTID_6, DROP_T, GTID_5],
        (6, "repeated gtid", 5, 245),
    ),
    (
        &[FIRST_FIVE, GTID_7, DROP_T, GTID_7],
        (7, "repeated gtid", 7, 245),
    ),
    (
        &[NO_BASE, GTID_1, DROP_T, GTID_2, DROP_S],
        (2, "open", 0, 0),
    ),
    (
        &[NO_BASE, GTID_1, DROP_T, SHORT_HEAD],
        (1, "bad length", 18, 205),
    ),
    (
        &[NO_BASE, GTID_2, DROP_S, GTID_1, DROP_T, LOAD],
        (1, "unsupported event", 9, 298),
    ),
];

#[test]
fn bases(rt: HostRuntime) {
    check(&rt, rt.alloc(), Beginning::Format, Ask::End, BASES);
}

/// Events behind the format description, and how many intervals the base has, once it is known.
const INTERVALS: &[Case] = &[
    (&[], (0, "unknown", 0, 0)),
    (&[STOP, IGNORABLE], (0, "unknown", 0, 0)),
    (&[NO_BASE], (0, "intervals", 0, 0)),
    (&[FIRST_FIVE], (1, "intervals", 0, 0)),
    (&[FLAGGED_FIVE], (1, "intervals", 0, 0)),
    (&[IGNORABLE, FIRST_FIVE], (1, "intervals", 0, 0)),
    (&[GTID_1], (0, "intervals", 0, 0)),
    (&[CUT_BASE], (0, "intervals", 0, 0)),
];

/// Behind a base of 1,024 intervals, at byte 16,520: a number that joins two, and two that don't.
const SCATTERED: &[Case] = &[
    (&[], (0, "open", 0, 0)),
    (&[GTID_5000], (0, "too many intervals", 0, 16_520)),
    (
        &[GTID_2, DROP_T, GTID_5000, DROP_T, GTID_7000],
        (5000, "too many intervals", 0, 16_706),
    ),
];

#[test]
fn intervals_of_bases(rt: HostRuntime) {
    check(&rt, rt.alloc(), Beginning::Format, Ask::Base, INTERVALS);
    check(&rt, rt.alloc(), Beginning::Odds, Ask::End, SCATTERED);
}

/// Events between entries, at byte 112, and behind a GTID event, at byte 156.
const OUTSIDE: &[Case] = &[
    (&[DROP_T], (0, "out of order", 2, 112)),
    (&[XID], (0, "out of order", 16, 112)),
    (&[MAP], (0, "out of order", 19, 112)),
    (&[INSERTS], (0, "out of order", 30, 112)),
    (&[FLAGGED_ANONYMOUS], (0, "anonymous", 0, 112)),
    (&[GTID_0], (0, "bad gtid", 0, 112)),
    (&[GTID_LAST], (0, "bad gtid", 0, 112)),
    (&[CUT_GTID], (0, "bad event", 33, 112)),
    (&[GTID_1, XID], (0, "out of order", 16, 156)),
    (&[GTID_1, MAP], (0, "out of order", 19, 156)),
    (&[GTID_1, INSERTS], (0, "out of order", 30, 156)),
    (&[GTID_1, GTID_2], (0, "out of order", 33, 156)),
    (&[GTID_1, CUT_QUERY], (0, "bad event", 2, 156)),
    (&[GTID_1, XA], (0, "unsupported statement", 0, 156)),
];

/// Events inside a transaction, at byte 198.
const INSIDE: &[Case] = &[
    (&[CUT_XID], (0, "bad event", 16, 198)),
    (&[BEGIN], (0, "nested begin", 0, 198)),
    (&[DROP_T], (0, "unsupported statement", 0, 198)),
    (&[XA], (0, "unsupported statement", 0, 198)),
    (&[CUT_QUERY], (0, "bad event", 2, 198)),
    (&[GTID_2], (0, "out of order", 33, 198)),
    (&[NO_BASE], (0, "out of order", 35, 198)),
    (&[FORMAT], (0, "out of order", 15, 198)),
    (&[ANONYMOUS], (0, "anonymous", 0, 198)),
    (&[IGNORABLE_UNFLAGGED], (0, "unsupported event", 38, 198)),
];

#[test]
fn orders(rt: HostRuntime) {
    check(&rt, rt.alloc(), Beginning::NoBase, Ask::End, OUTSIDE);
    check(&rt, rt.alloc(), Beginning::Open, Ask::End, INSIDE);
}

#[test]
fn tells_a_fault_for_good(rt: HostRuntime) {
    check(&rt, rt.alloc(), Beginning::NoBase, Ask::EndForGood, OUTSIDE);
    check(&rt, rt.alloc(), Beginning::Open, Ask::EndForGood, INSIDE);
}

/// Logs that end inside an entry, and events as long as may be. What is passed over counts alone.
const CUTS: &[Case] = &[
    (&[], (0, "open", 0, 0)),
    (&[GTID_1], (0, "open", 0, 0)),
    (&[GTID_1, BEGIN, MAP, INSERTS], (0, "open", 0, 0)),
    (&[GTID_1, DROP_T, GTID_2, TEN_BYTES], (1, "open", 0, 0)),
    (&[GTID_1, LIMIT_QUERY], (0, "open", 0, 0)),
    (&[GTID_1, OVER_QUERY], (0, "too large", 67_108_865, 156)),
    (&[GTID_1, LIMIT_STOP], (0, "open", 0, 0)),
    (&[GTID_1, LARGE_STOP], (0, "too large", 67_108_865, 156)),
    (&[LARGE_QUERY], (0, "too large", 67_108_865, 112)),
];

#[test]
fn cuts(rt: HostRuntime) {
    check(&rt, rt.alloc(), Beginning::NoBase, Ask::End, CUTS);
}

/// Table maps inside a transaction, at byte 198, and rows. Maps are forgotten at the next GTID event.
const ROWS: &[Case] = &[
    (&[CUT_MAP], (0, "bad event", 19, 198)),
    (&[MAP_OF_U], (0, "unknown table", 0, 198)),
    (&[MAP_OF_ONE], (0, "disagrees", 0, 198)),
    (&[INSERTS], (0, "unknown table id", 7, 198)),
    (&[MAP, CUT_INSERT], (0, "bad event", 30, 241)),
    (&[MAP, CUT_UPDATE], (0, "bad event", 31, 241)),
    (&[MAP, INSERT_OF_8], (0, "unknown table id", 8, 241)),
    (&[MAP, INSERT_OF_ONE], (0, "not full", 0, 241)),
    (&[MAP, CUT_ROW], (0, "bad row", 0, 241)),
    (&[MAP, INSERTS, CUT_ROW_DELETED], (0, "bad row", 0, 284)),
    (
        &[MAP, XID, GTID_2, BEGIN, INSERTS],
        (1, "unknown table id", 7, 354),
    ),
    (
        &[MAP, XID, GTID_2, BEGIN, MAP, INSERTS, XID],
        (2, "open", 0, 0),
    ),
];

/// Journals inside a transaction, behind their table map at byte 198.
const JOURNALS: &[Case] = &[
    (&[JOURNAL, OURS, XID], (1, "open", 0, 0)),
    (&[JOURNAL, OURS_CUT], (0, "bad journal", 3, 259)),
    (&[JOURNAL, OURS_CUT_SECOND], (0, "bad journal", 3, 259)),
    (&[JOURNAL, TWO_OURS], (0, "journal not alone", 0, 259)),
    (&[JOURNAL, OURS, OURS], (0, "journal not alone", 0, 306)),
    (
        &[MAP, INSERTS, JOURNAL, OURS],
        (0, "journal not alone", 0, 345),
    ),
    (
        &[MAP, JOURNAL, OURS, INSERTS],
        (0, "journal not alone", 0, 349),
    ),
];

#[test]
fn rows(rt: HostRuntime) {
    check(&rt, rt.alloc(), Beginning::Open, Ask::End, ROWS);
    check(&rt, rt.alloc(), Beginning::Open, Ask::End, JOURNALS);
}

/// Entries behind a base, from byte 112 on: a statement with the length of its text, or the number of
/// the changes of a transaction, or of the successors of a journal; the time of the last event, and the
/// place behind it.
const ENTRIES: &[Case] = &[
    (&[GTID_1, DROP_T], (12, "ddl", 100, 205)),
    (&[GTID_1, ROTATE, DROP_T], (12, "ddl", 100, 224)),
    (&[GTID_1, DROP_OTHERS], (0, "other", 0, 205)),
    (&[GTID_1, COMMIT], (0, "other", 103, 199)),
    (&[GTID_1, BEGIN, COMMIT], (0, "rows", 103, 241)),
    (&[GTID_1, BEGIN, XID], (0, "rows", 104, 225)),
    (&[GTID_1, BEGIN, LONG_XID], (0, "rows", 0, 229)),
    (
        &[GTID_1, BEGIN, STOP, SAVEPOINT, IGNORABLE, XID],
        (0, "rows", 104, 311),
    ),
];

/// The same of changes.
const CHANGES: &[Case] = &[
    (&[GTID_1, BEGIN, MAP, XID], (0, "rows", 104, 268)),
    (&[GTID_1, BEGIN, MAP, INSERTS, XID], (2, "rows", 104, 311)),
    (
        &[GTID_1, BEGIN, MAP, SAVEPOINT, INSERTS, COMMIT],
        (2, "rows", 103, 375),
    ),
    (
        &[GTID_1, BEGIN, MAP, INSERTS, INSERTS, XID],
        (4, "rows", 104, 354),
    ),
    (&[GTID_1, BEGIN, MAP, UPDATE, XID], (1, "rows", 104, 310)),
    (&[GTID_1, BEGIN, MAP, DELETE, XID], (1, "rows", 104, 306)),
    (
        &[GTID_1, BEGIN, MAP_OF_S, INSERTS, XID],
        (0, "rows", 104, 308),
    ),
    (
        &[GTID_1, BEGIN, JOURNAL, OTHERS, XID],
        (0, "rows", 104, 333),
    ),
    (
        &[GTID_1, BEGIN, JOURNAL, OURS_DELETED, XID],
        (0, "rows", 104, 333),
    ),
    (
        &[GTID_1, BEGIN, JOURNAL, OURS_OF_SPLIT, XID],
        (2, "journal", 104, 587),
    ),
    (
        &[
            GTID_1,
            BEGIN,
            MAP_OF_S,
            JOURNAL,
            INSERTS,
            OTHERS,
            OURS,
            OURS_DELETED,
            XID,
        ],
        (0, "journal", 104, 510),
    ),
];

#[test]
fn entries(rt: HostRuntime) {
    check(&rt, rt.alloc(), Beginning::NoBase, Ask::Entry, ENTRIES);
    check(&rt, rt.alloc(), Beginning::NoBase, Ask::Entry, CHANGES);
}

/// Statements in the log of a shard of the keyspace c, by their schema and their text.
const STATEMENTS: &[(&[u8], &[u8], StatementKind)] = &[
    (b"vt_c", b"create table t (id int)", StatementKind::Ddl),
    (b"vt_c", b"Alter\ttable t add x int", StatementKind::Ddl),
    (b"vt_c", b"truncate t", StatementKind::Ddl),
    (b"vt_c", b"RENAME table t to s", StatementKind::Ddl),
    (
        b"vt_c",
        b" \t\r\n/* a */ /*b*/drop table t",
        StatementKind::Ddl,
    ),
    (b"vt_c", b"drop;", StatementKind::Ddl),
    (b"vt_d", b"create table t (id int)", StatementKind::Other),
    (b"", b"create table vt_c.t (id int)", StatementKind::Other),
    (b"vt_c", b"/*!40000 drop table t */", StatementKind::Other),
    (b"vt_c", b"/* drop table t", StatementKind::Other),
    (b"vt_c", b"/*/ drop table t", StatementKind::Other),
];

const OTHER_WORDS: &[(&[u8], &[u8], StatementKind)] = &[
    (b"vt_c", b"dropped", StatementKind::Other),
    (b"vt_c", b"drop_t", StatementKind::Other),
    (b"vt_c", b"grant all", StatementKind::Other),
    (b"vt_c", b"", StatementKind::Other),
    (b"vt_c", b"begin", StatementKind::Begin),
    (b"vt_c", b"commit", StatementKind::Commit),
    (b"vt_c", b"savepoint s", StatementKind::Savepoint),
    (b"vt_c", b"xa start 'x'", StatementKind::Xa),
    (b"", b"XA commit 'x'", StatementKind::Xa),
];

fn check_kinds(rt: &impl Abort, cases: &[(&[u8], &[u8], StatementKind)]) {
    for (schema, text, wanted) in cases {
        assert_eq!(rt; kind_of(schema, text, b"c"), *wanted);
    }
}

#[test]
fn statements(rt: HostRuntime) {
    check_kinds(&rt, STATEMENTS);
    check_kinds(&rt, OTHER_WORDS);
}

/// The place where an event of 19 bytes begins that ends at byte 2^62.
const LAST: usize = 4_611_686_018_427_387_885;

fn is_too_large(progress: &Progress, at: usize) -> bool
    requires { at ≤ last_place }
{
    let fault = progress.head_fault(STOP, at);
    matches!(fault, Some(Why::TooLarge { bytes: 19 }))
}

/// Whether an event may stand at a place, and whether it is refused there as too large.
fn ends_in_time(alloc: Global, at: usize) -> (bool, bool)
    requires { at ≤ last_place }
{
    let progress = Progress::new(alloc);
    (front_event(STOP, at).is_some(), is_too_large(&progress, at))
}

#[test]
fn ends_by_the_last_place(rt: HostRuntime) {
    assert_eq!(rt; ends_in_time(rt.alloc(), LAST), (true, false));
    assert_eq!(rt; ends_in_time(rt.alloc(), LAST + 1), (false, true));
}

/// Whether the next entry is the one so numbered, at this time and between these places.
fn gives(reader: &mut Reader, number: u64, when: u32, from: u64, to: u64) -> bool {
    match next_answer(reader) {
        Answer::Entry(told, _, _, time, at, end) => {
            told == number && time == when && at == from && end == to
        }
        _ => false,
    }
}

/// Feeds the next byte of the two statements, and whether the answers behind it are right.
fn goes_on(reader: &mut Reader, byte: u8, fed: usize) -> bool {
    if reader.feed(&[byte]).is_err() || reader.base().is_some() != (fed >= 112) {
        return false;
    }
    let given = match fed {
        205 => gives(reader, 1, 100, 112, 205),
        298 => gives(reader, 2, 101, 205, 298),
        _ => true,
    };
    given && matches!(next_answer(reader), Answer::More) && reader.held() < 81
}

const TWO_DROPS: &[&[u8]] = &[MAGIC, FORMAT, NO_BASE, GTID_1, DROP_T, GTID_2, DROP_S];

/// Feeds an event that begins at this place byte by byte; the place up to which the answers were right.
fn feed_bytes(reader: &mut Reader, event: &[u8], from: usize) -> usize {
    let mut place = from;
    for byte in event {
        let fed = place.saturating_add(1);
        if !goes_on(reader, *byte, fed) {
            return place;
        }
        place = fed;
    }
    place
}

/// Feeds two statements so, and how many bytes are held behind them.
fn held_after_bytes(reader: &mut Reader) -> Told {
    let mut place = 0;
    for event in TWO_DROPS {
        place = feed_bytes(reader, event, place);
    }
    (place as u64, "held", reader.held() as u64, 0)
}

#[test]
fn entries_byte_by_byte(rt: HostRuntime) {
    let told = told_of(rt.alloc(), Beginning::Nothing, Ask::Bytes, &[]);
    assert_eq!(rt; told, (298, "held", 0, 0));
}

#[test]
fn laws_can_be_called() {
    law_part();
}
