use crate::{Flags, Request, RequestRefusal, RuleText, StartAt, Wanted, read_request};
use std::alloc::Global;
use std::process::Abort;
use std::test::Fail;
use vs_base::{Cell, LastKey, OutOfMemory};
use vs_gtid::GtidSet;
use vs_proto::ProtoRefusal;
use vs_wire::{WireRefusal, put_bytes, put_varint};

/// The UUID of zeros whose last digit is 1, and its first GTID as a position.
const UUID: &[u8] = b"00000000-0000-0000-0000-000000000001";

const POSITION: &[u8] = b"MySQL56/00000000-0000-0000-0000-000000000001:1";

/// Bytes of a request, and why they are refused.
struct Refused {
    bytes: &'static [u8],
    refusal: RequestRefusal,
}

static REFUSED: [Refused; 14] = [
    Refused {
        bytes: b"\x0a\x7f",
        refusal: RequestRefusal::Message(ProtoRefusal::BadMessage {
            at: 0,
            why: WireRefusal::Cut { at: 0 },
        }),
    },
    Refused {
        bytes: b"\x0a\x05\x0a\x03\x0a\x01\xff",
        refusal: RequestRefusal::Message(ProtoRefusal::NotUtf8 { at: 0 }),
    },
    Refused {
        bytes: b"",
        refusal: RequestRefusal::NoShards,
    },
    Refused {
        bytes: b"\x0a\x00",
        refusal: RequestRefusal::NoShards,
    },
    // No keyspace; a slash in the second one; two dots as a shard.
    Refused {
        bytes: b"\x0a\x02\x0a\x00",
        refusal: RequestRefusal::BadName { index: 0 },
    },
    Refused {
        bytes: b"\x0a\x0e\x0a\x06\x0a\x01c\x12\x010\x0a\x04\x0a\x02c/",
        refusal: RequestRefusal::BadName { index: 1 },
    },
    Refused {
        bytes: b"\x0a\x09\x0a\x07\x0a\x01c\x12\x02..",
        refusal: RequestRefusal::BadName { index: 0 },
    },
    Refused {
        bytes: b"\x0a\x0b\x0a\x09\x0a\x01c\x12\x010\x1a\x01x",
        refusal: RequestRefusal::BadPosition { index: 0, at: 0 },
    },
    Refused {
        bytes: b"\x0a\x30\x0a\x2e\x0a\x01c\x12\x010\x1a\x2600000000-0000-0000-0000-000000000001:0",
        refusal: RequestRefusal::BadPosition { index: 0, at: 37 },
    },
    Refused {
        bytes: b"\x0a\x32\x0a\x30\x0a\x01c\x12\x010\x1a\x2800000000-0000-0000-0000-000000000001:5-3",
        refusal: RequestRefusal::BadPosition { index: 0, at: 39 },
    },
    Refused {
        bytes: b"\x0a\x35\x0a\x33\x0a\x01c\x1a\x2eMySQL56/00000000-0000-0000-0000-000000000001:1",
        refusal: RequestRefusal::NeedsShard { index: 0 },
    },
    // A last key beside no position, and beside `current`; two of them.
    Refused {
        bytes: b"\x0a\x0a\x0a\x08\x0a\x01c\x12\x010\x22\x00",
        refusal: RequestRefusal::TooManyKeys { index: 0 },
    },
    Refused {
        bytes: b"\x0a\x10\x0a\x0e\x0a\x01c\x1a\x07current\x22\x00",
        refusal: RequestRefusal::TooManyKeys { index: 0 },
    },
    Refused {
        bytes: b"\x0a\x16\x0a\x14\x0a\x01c\x12\x010\x1a\x08MySQL56/\x22\x00\x22\x00",
        refusal: RequestRefusal::TooManyKeys { index: 0 },
    },
];

/// The bytes are refused for this cause, or read where there is none.
fn check(rt: &impl Abort, alloc: Global, bytes: &[u8], refusal: Option<RequestRefusal>) {
    assert_eq!(rt; read_request(alloc, bytes).err(), refusal);
}

#[test]
fn bytes_are_refused(rt: HostRuntime) {
    for case in &REFUSED {
        check(&rt, rt.alloc(), case.bytes, Some(case.refusal));
    }
}

/// An entry of the shard c/0 with this position and last key.
fn entry_of(alloc: Global, position: &[u8], key: Option<&[u8]>) -> Result<Vec<u8>, OutOfMemory> {
    let mut entry = Vec::new(alloc);
    put_bytes(alloc, &mut entry, 1, b"c")?;
    put_bytes(alloc, &mut entry, 2, b"0")?;
    put_bytes(alloc, &mut entry, 3, position)?;
    if let Some(key) = key {
        put_bytes(alloc, &mut entry, 4, key)?;
    }
    Ok(entry)
}

/// A message whose first field is these bytes, so many times.
fn repeated(alloc: Global, bytes: &[u8], count: usize) -> Result<Vec<u8>, OutOfMemory> {
    let mut message = Vec::new(alloc);
    for _item in 0..count {
        put_bytes(alloc, &mut message, 1, bytes)?;
    }
    Ok(message)
}

/// A request of this entry, so many times.
fn request_of(alloc: Global, entry: &[u8], count: usize) -> Result<Vec<u8>, OutOfMemory> {
    let vgtid = repeated(alloc, entry, count)?;
    repeated(alloc, &vgtid, 1)
}

/// So many cells, of which the first has all bytes.
fn row_of(alloc: Global, cells: usize, bytes: u16) -> Result<Vec<u8>, OutOfMemory> {
    let mut lengths = Vec::new(alloc);
    put_varint(alloc, &mut lengths, bytes as u64 * 2)?;
    for _cell in 1..cells {
        lengths.push(0)?;
    }
    let values = vec![in alloc; b'v'; bytes as usize]?;
    let mut row = repeated(alloc, &lengths, 1)?;
    put_bytes(alloc, &mut row, 2, &values)?;
    Ok(row)
}

/// A last key: the length of the table's name, how many cells there are, and how many bytes they
/// have.
#[derive(Clone, Copy)]
struct KeyCase {
    name: usize,
    cells: usize,
    bytes: u16,
    refusal: Option<RequestRefusal>,
}

static KEYS: [KeyCase; 4] = [
    KeyCase {
        name: 64,
        cells: 4096,
        bytes: 3072,
        refusal: None,
    },
    KeyCase {
        name: 65,
        cells: 1,
        bytes: 1,
        refusal: Some(RequestRefusal::LongKey { index: 0 }),
    },
    KeyCase {
        name: 1,
        cells: 4097,
        bytes: 1,
        refusal: Some(RequestRefusal::LongKey { index: 0 }),
    },
    KeyCase {
        name: 1,
        cells: 1,
        bytes: 3073,
        refusal: Some(RequestRefusal::LongKey { index: 0 }),
    },
];

fn key_of(alloc: Global, case: &KeyCase) -> Result<Vec<u8>, OutOfMemory> {
    let table = vec![in alloc; b't'; case.name]?;
    let row = row_of(alloc, case.cells, case.bytes)?;
    let mut key = repeated(alloc, &table, 1)?;
    put_bytes(alloc, &mut key, 2, &row)?;
    Ok(key)
}

/// Checks a request of this entry, so many times.
fn check_entries(
    rt: &impl Abort,
    alloc: Global,
    entry: &[u8],
    count: usize,
    refusal: Option<RequestRefusal>,
) -> Result<(), OutOfMemory> {
    let bytes = request_of(alloc, entry, count)?;
    check(rt, alloc, &bytes, refusal);
    Ok(())
}

fn check_key(rt: &impl Abort, alloc: Global, case: &KeyCase) -> Result<(), OutOfMemory> {
    let key = key_of(alloc, case)?;
    let entry = entry_of(alloc, POSITION, Some(key.as_slice()))?;
    check_entries(rt, alloc, &entry, 1, case.refusal)
}

#[test]
fn keys_end_at_their_limits(rt: HostRuntime) -> Result<(), Fail> {
    for case in &KEYS {
        check_key(&rt, rt.alloc(), case)?;
    }
    Ok(())
}

/// A text of as many intervals, none beside another.
fn intervals_of(alloc: Global, count: usize) -> Result<Vec<u8>, OutOfMemory> {
    let mut text = Vec::from_slice(alloc, UUID)?;
    for i in 0..count.min(10_000) {
        let number = 2 * i + 1;
        text.extend_from_slice(format!(in alloc; ":{number}")?.as_bytes())?;
    }
    Ok(text)
}

fn check_intervals(
    rt: &impl Abort,
    alloc: Global,
    count: usize,
    is_refused: bool,
) -> Result<(), OutOfMemory> {
    let text = intervals_of(alloc, count)?;
    let at = text.len();
    let entry = entry_of(alloc, &text, None)?;
    let refusal = RequestRefusal::BadPosition { index: 0, at };
    check_entries(rt, alloc, &entry, 1, is_refused.then_some(refusal))
}

#[test]
fn positions_end_at_their_limit(rt: HostRuntime) -> Result<(), Fail> {
    check_intervals(&rt, rt.alloc(), 1024, false)?;
    check_intervals(&rt, rt.alloc(), 1025, true)?;
    Ok(())
}

#[test]
fn shards_are_counted(rt: HostRuntime) -> Result<(), Fail> {
    let alloc = rt.alloc();
    let entry = entry_of(alloc, b"", None)?;
    let refusal = RequestRefusal::TooManyShards { n: 65 };
    check_entries(&rt, alloc, &entry, 64, None)?;
    check_entries(&rt, alloc, &entry, 65, Some(refusal))?;
    Ok(())
}

/// A request of a shard, and of so many rules.
fn with_rules(alloc: Global, count: usize) -> Result<Vec<u8>, OutOfMemory> {
    let entry = entry_of(alloc, b"", None)?;
    let filter = repeated(alloc, b"", count)?;
    let mut bytes = request_of(alloc, &entry, 1)?;
    put_bytes(alloc, &mut bytes, 2, &filter)?;
    Ok(bytes)
}

#[test]
fn rules_are_counted(rt: HostRuntime) -> Result<(), Fail> {
    let alloc = rt.alloc();
    let most = with_rules(alloc, 256)?;
    check(&rt, alloc, &most, None);
    let more = with_rules(alloc, 257)?;
    let refusal = RequestRefusal::TooManyRules { n: 257 };
    check(&rt, alloc, &more, Some(refusal));
    Ok(())
}

const REQUEST: &[u8] =
    b"\x0a\x5c\x0a\x06\x0a\x01c\x12\x010\x0a\x0c\x0a\x01c\x1a\x07current\x0a\x44\x0a\x01d\x12\x010\x1a\x2eMySQL56/00000000-0000-0000-0000-000000000001:1\x22\x0c\x0a\x01t\x12\x07\x0a\x02\x01\x02\x12\x01a\x12\x16\x0a\x0c\x0a\x01t\x12\x07exclude\x0a\x06\x0a\x04/.*/\x1a\x06\x08\x05\x10\x0a\x18\x01";

fn expect_name(rt: &impl Abort, entry: &Wanted, keyspace: &[u8], shard: &[u8]) {
    assert_eq!(rt; entry.keyspace.as_bytes(), keyspace);
    assert_eq!(rt; entry.shard.as_bytes(), shard);
}

fn expect_rule(rt: &impl Abort, rule: &RuleText, pattern: &[u8], filter: &[u8]) {
    assert_eq!(rt; rule.pattern.as_bytes(), pattern);
    assert_eq!(rt; rule.filter.as_bytes(), filter);
}

/// The set of the first GTID of the UUID.
fn expect_set(rt: &impl Abort, alloc: Global, start: &StartAt) -> Result<(), Fail> {
    let wanted = GtidSet::parse(alloc, POSITION)?;
    match start {
        StartAt::At(set) => {
            assert!(rt; set.is_subset(&wanted));
            assert_eq!(rt; set.intervals(), 1);
        }
        _ => assert!(rt; false, "a set is wanted"),
    }
    Ok(())
}

/// A key of NULL and of `a`, in the table `t`.
fn expect_last_key(rt: &impl Abort, last_key: &LastKey) {
    assert_eq!(rt; last_key.table.as_bytes(), b"t".as_slice());
    match last_key.key.cells() {
        [Cell::Null, Cell::Bytes(text)] => assert_eq!(rt; text.as_bytes(), b"a".as_slice()),
        _ => assert!(rt; false, "NULL and a text are wanted"),
    }
}

fn expect_entries(rt: &impl Abort, alloc: Global, entries: &[Wanted]) -> Result<(), Fail> {
    let [fresh, current, behind] = entries else {
        return Err("three entries are wanted")?;
    };
    expect_name(rt, fresh, b"c", b"0");
    assert!(rt; matches!(&fresh.start, StartAt::Fresh));
    assert!(rt; fresh.last_key.is_none());
    expect_name(rt, current, b"c", b"");
    assert!(rt; matches!(&current.start, StartAt::Current));
    expect_name(rt, behind, b"d", b"0");
    expect_set(rt, alloc, &behind.start)?;
    expect_last_key(rt, behind.last_key.as_ref().ok_or("no last key")?);
    Ok(())
}

fn expect_rules(rt: &impl Abort, request: &Request) -> Result<(), Fail> {
    let [excluded, all] = request.rules.as_slice() else {
        return Err("two rules are wanted")?;
    };
    expect_rule(rt, excluded, b"t", b"exclude");
    expect_rule(rt, all, b"/.*/", b"");
    Ok(())
}

const FLAGS: Flags = Flags {
    max_skew: 5,
    heartbeat_interval: 10,
    stop_on_reshard: true,
    include_journals: false,
};

#[test]
fn a_request_is_read(rt: HostRuntime) -> Result<(), Fail> {
    let alloc = rt.alloc();
    let request = read_request(alloc, REQUEST)?;
    expect_entries(&rt, alloc, request.entries.as_slice())?;
    expect_rules(&rt, &request)?;
    assert_eq!(rt; request.flags, FLAGS);
    Ok(())
}
