use crate::{
    Entry, JournalRefusal, JournalValue, Work, law_few_names, law_journal_texts, law_judgements,
    law_names, law_values, law_written, read_text, write_text,
};
use std::alloc::Global;
use std::process::Abort;
use vs_base::{Gtid, List, OutOfMemory};

/// The journal of a split of c/-80, with its successors in descending order.
const SPLIT: &[u8] =
    b"participants <keyspace: 'c' shard: '-8' '0'>; # comes first\nmigration_type: 1, shard_gtids {shard: '40-80' keyspace: 'c' gtid: '00000000-0000-0000-0000-00000000000D:1'}\nshard_gtids {gtid: 'MySQL56/00000000-0000-0000-0000-00000000000b:1' keyspace: 'c' shard: '-\\x340'} id: 7";

/// The same as it is written.
const SPLIT_WRITTEN: &[u8] =
    b"id:7 migration_type:SHARDS shard_gtids:{keyspace:\"c\" shard:\"-40\" gtid:\"MySQL56/00000000-0000-0000-0000-00000000000b:1\"} shard_gtids:{keyspace:\"c\" shard:\"40-80\" gtid:\"MySQL56/00000000-0000-0000-0000-00000000000d:1\"} participants:{keyspace:\"c\" shard:\"-80\"}";

/// What a text says.
#[derive(Debug, Clone, Copy, PartialEq, Eq)]
enum Says {
    Journal,
    Bad(usize),
    RepeatedParticipant,
    RepeatedSuccessor,
    TooManyNames,
    Memory,
}

fn refused_by(refusal: &JournalRefusal) -> Says {
    match refusal {
        JournalRefusal::BadJournal { at } => Says::Bad(*at),
        JournalRefusal::RepeatedParticipant => Says::RepeatedParticipant,
        JournalRefusal::RepeatedSuccessor => Says::RepeatedSuccessor,
        JournalRefusal::TooManyNames => Says::TooManyNames,
        JournalRefusal::Memory => Says::Memory,
    }
}

fn told_by(alloc: Global, text: &[u8]) -> Says {
    match read_text(alloc, text) {
        Ok(_) => Says::Journal,
        Err(refusal) => refused_by(&refusal),
    }
}

/// A text, and what it says.
type Case = (&'static [u8], Says);

fn check(rt: &impl Abort, alloc: Global, cases: &[Case]) {
    for (text, wanted) in cases {
        assert_eq!(rt; told_by(alloc, text), *wanted);
    }
}

/// Texts that are in form, and the first place from which others are not.
const FORMS: &[Case] = &[
    (b"", Says::Journal),
    (b"# no fields\n \t\r\n# not even one", Says::Journal),
    (b"id:1 id:2;migration_type:0,a:b", Says::Journal),
    (b"id:-9223372036854775808", Says::Journal),
    (b"id: - # sign\n 5", Says::Journal),
    (
        b"migration_type:TABLES participants<keyspace:'c'>",
        Says::Journal,
    ),
    (
        b"a:\"x\" 'y' b:[] c:[1,-2,d,\"e\" \"f\"] g<h:{i:1}>",
        Says::Journal,
    ),
    (
        b"a:\"\\\"\\'\\\\\\n\\r\\t\\x4a\\7\\12\\377\"",
        Says::Journal,
    ),
    (
        b"a{a{a{a{a{a{a{a{a{a{a{a{a{a{a{a{a{a{a{a{a{a{a{a{a{a{a{a{a{a{a{a{}}}}}}}}}}}}}}}}}}}}}}}}}}}}}}}}",
        Says::Journal,
    ),
    (
        b"participants{a<a<a<a<a<a<a<a<a<a<a<a<a<a<a<a<a<a<a<a<a<a<a<a<a<a<a<a<a<a<a<>>>>>>>>>>>>>>>>>>>>>>>>>>>>>>>}",
        Says::Journal,
    ),
    (b"id:", Says::Bad(3)),
    (b"id:\"x\"", Says::Bad(3)),
    (b"id:9223372036854775808", Says::Bad(3)),
    (b"id:-9223372036854775809", Says::Bad(3)),
    (b"id:[1]", Says::Bad(3)),
    (b"id{", Says::Bad(2)),
    (b"migration_type:2", Says::Bad(15)),
    (b"migration_type:SHARD", Says::Bad(15)),
    (b"participants:5", Says::Bad(13)),
    (b"participants:{keyspace:c}", Says::Bad(23)),
    (b"participants:[]", Says::Bad(13)),
    (b"a:\"x", Says::Bad(4)),
    (b"a:\"\\q\"", Says::Bad(3)),
    (b"a:\"\\x4g\"", Says::Bad(3)),
    (b"a:\"\\400\"", Says::Bad(3)),
    (b"a:\"\\x4", Says::Bad(6)),
    (b"a:\"\\", Says::Bad(4)),
    (b"a:1,;", Says::Bad(4)),
    (b",", Says::Bad(0)),
    (b"12:1", Says::Bad(0)),
    (b"a:1 2", Says::Bad(4)),
    (b"a:-x", Says::Bad(2)),
    (b"a:12b", Says::Bad(2)),
    (b"a", Says::Bad(1)),
    (b"a{b:1", Says::Bad(5)),
    (b"a{>", Says::Bad(2)),
    (b"}", Says::Bad(0)),
    (b"a:[1,]", Says::Bad(5)),
    (b"a:[[", Says::Bad(3)),
    (b"a ? b", Says::Bad(2)),
    (
        b"a{a{a{a{a{a{a{a{a{a{a{a{a{a{a{a{a{a{a{a{a{a{a{a{a{a{a{a{a{a{a{a{a{}}}}}}}}}}}}}}}}}}}}}}}}}}}}}}}}}",
        Says::Bad(65),
    ),
    (
        b"a{a{a{a{a{a{a{a{a{a{a{a{a{a{a{a{a{a{a{a{a{a{a{a{a{a{a{a{a{a{a{a{b:[]}}}}}}}}}}}}}}}}}}}}}}}}}}}}}}}}",
        Says::Bad(66),
    ),
    (
        b"participants{a<a<a<a<a<a<a<a<a<a<a<a<a<a<a<a<a<a<a<a<a<a<a<a<a<a<a<a<a<a<a<a<>>>>>>>>>>>>>>>>>>>>>>>>>>>>>>>>}",
        Says::Bad(76),
    ),
];

/// Kinds, names and positions.
const NAMES: &[Case] = &[
    (b"migration_type:SHARDS ", Says::Bad(22)),
    (
        b"migration_type:SHARDS shard_gtids{keyspace:\"c\" shard:\"-\" gtid:\"MySQL56/\"}",
        Says::Bad(73),
    ),
    (
        b"migration_type:SHARDS participants{keyspace:\"c\" shard:\"0\"}",
        Says::Bad(58),
    ),
    (
        b"migration_type:SHARDS shard_gtids{keyspace:\"c\" shard:\"-\" gtid:\"MySQL56/\"}participants{keyspace:\"c\" shard:\"0\"}",
        Says::Journal,
    ),
    (
        b"migration_type:SHARDS shard_gtids{keyspace:\"c\" shard:\"-\" gtid:\"MySQL56/\"}participants{keyspace:\"c\"}",
        Says::Bad(99),
    ),
    (
        b"migration_type:SHARDS shard_gtids{keyspace:\"c\" shard:\"-\" gtid:\"MySQL56/\"}participants{keyspace:\"c d\" shard:\"0\"}",
        Says::Bad(111),
    ),
    (
        b"migration_type:SHARDS shard_gtids{keyspace:\"c\" shard:\"-\" gtid:\"MySQL56/\"}participants{keyspace:\"c\" shard:\"..\"}",
        Says::Bad(110),
    ),
    (
        b"migration_type:SHARDS participants{keyspace:\"c\" shard:\"0\"}shard_gtids{keyspace:\"c\" shard:\"-\"}",
        Says::Bad(93),
    ),
    (
        b"migration_type:SHARDS participants{keyspace:\"c\" shard:\"0\"}shard_gtids{keyspace:\"c\" shard:\"-\" gtid:\"current\"}",
        Says::Bad(108),
    ),
    (
        b"migration_type:SHARDS participants{keyspace:\"c\" shard:\"0\"}shard_gtids{keyspace:\"c\" shard:\"-\" gtid:\"x\"}",
        Says::Bad(102),
    ),
    (
        b"migration_type:SHARDS shard_gtids{keyspace:\"c\" shard:\"-\" gtid:\"MySQL56/\"}participants{keyspace:\"c\" shard:\"0\"}participants{keyspace:\"c\" shard:\"0\"}",
        Says::RepeatedParticipant,
    ),
    (
        b"migration_type:SHARDS shard_gtids{keyspace:\"c\" shard:\"-\" gtid:\"MySQL56/\"}shard_gtids{keyspace:\"c\" shard:\"-\" gtid:\"MySQL56/\"}participants{keyspace:\"c\" shard:\"0\"}",
        Says::RepeatedSuccessor,
    ),
    (
        b"migration_type:SHARDS shard_gtids{keyspace:\"c\" shard:\"-\" gtid:\"MySQL56/\"}shard_gtids{keyspace:\"c\" shard:\"-\" gtid:\"MySQL56/\"}participants{keyspace:\"c\" shard:\"0\"}participants{keyspace:\"c\" shard:\"0\"}",
        Says::RepeatedParticipant,
    ),
    (
        b"migration_type:1 migration_type:0 participants{keyspace:\"c\" shard:\"0\"}participants{keyspace:\"c\" shard:\"0\"}",
        Says::Journal,
    ),
];

#[test]
fn texts_say_journals_or_their_first_fault(rt: HostRuntime) {
    check(&rt, rt.alloc(), FORMS);
    check(&rt, rt.alloc(), NAMES);
}

/// Whether this text is written of a journal.
fn is_written(alloc: Global, journal: &JournalValue, wanted: &[u8]) -> bool {
    let mut out = Vec::new(alloc);
    write_text(alloc, &mut out, journal).is_ok() && out.as_slice() == wanted
}

/// Whether this text is written of the journal that a text says.
fn is_rewritten(alloc: Global, text: &[u8], wanted: &[u8]) -> bool {
    match read_text(alloc, text) {
        Ok(journal) => is_written(alloc, &journal, wanted),
        Err(_) => false,
    }
}

/// Texts, and what is written of the journals that they say.
const REWRITTEN: &[(&[u8], &[u8])] = &[
    (SPLIT, SPLIT_WRITTEN),
    (SPLIT_WRITTEN, SPLIT_WRITTEN),
    (b"id:-7 participants{}", b"id:-7 migration_type:TABLES"),
];

#[test]
fn a_split_is_read_and_written(rt: HostRuntime) {
    for (text, wanted) in REWRITTEN {
        assert!(rt; is_rewritten(rt.alloc(), text, wanted));
    }
}

/// Puts so many participants and one successor.
fn put_participants(text: &mut Vec<u8>, count: u8) -> Result<(), OutOfMemory> {
    text.extend_from_slice(
        b"migration_type:SHARDS shard_gtids{keyspace:'c' shard:'-' gtid:'MySQL56/'}",
    )?;
    for i in 0..count {
        text.extend_from_slice(b"participants{keyspace:'c' shard:'")?;
        text.extend_from_slice(&[b'0' + i / 10, b'0' + i % 10])?;
        text.extend_from_slice(b"'}")?;
    }
    Ok(())
}

/// What a text of so many participants says.
fn told_by_many(alloc: Global, count: u8) -> Says {
    let mut text = Vec::new(alloc);
    if put_participants(&mut text, count).is_err() {
        return Says::Memory;
    }
    told_by(alloc, text.as_slice())
}

#[test]
fn at_most_64_names(rt: HostRuntime) {
    assert_eq!(rt; told_by_many(rt.alloc(), 64), Says::Journal);
    assert_eq!(rt; told_by_many(rt.alloc(), 65), Says::TooManyNames);
}

/// The id of the journal that the copy of an entry tells.
fn copied_id(alloc: Global, entry: &Entry) -> Option<i64> {
    match entry.copy(alloc) {
        Ok(copy) => match &copy.work {
            Work::Journal(journal) => Some(journal.id),
            _ => None,
        },
        Err(_) => None,
    }
}

fn journal_entry(alloc: Global, gtid: Gtid) -> Entry {
    Entry {
        gtid,
        time: 100,
        work: Work::Journal(JournalValue {
            id: 7,
            shards: false,
            participants: List::new(alloc),
            successors: List::new(alloc),
        }),
    }
}

#[test]
fn an_entry_may_tell_a_journal(rt: HostRuntime) {
    let id = match Gtid::new([1; 16], 5) {
        Some(gtid) => copied_id(rt.alloc(), &journal_entry(rt.alloc(), gtid)),
        None => None,
    };
    assert_eq!(rt; id, Some(7));
}

#[test]
fn laws_can_be_called() {
    law_names();
    law_few_names();
    law_journal_texts();
    law_written();
    law_values();
    law_judgements();
}
