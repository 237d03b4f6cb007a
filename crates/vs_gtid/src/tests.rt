use crate::{GtidRefusal, GtidSet, KeptPosition};
use std::alloc::Global;
use std::process::Abort;
use std::test::Fail;
use vs_base::Gtid;

/// The UUID of zeros whose last digit is 1.
const UUID: [u8; 16] = [0, 0, 0, 0, 0, 0, 0, 0, 0, 0, 0, 0, 0, 0, 0, 1];

fn numbered(number: u64) -> Result<Gtid, Fail> {
    Ok(Gtid::new(UUID, number).ok_or("the number is out of range")?)
}

/// The set of these numbers of the UUID.
fn set_of(alloc: Global, numbers: &[u64]) -> Result<GtidSet, Fail> {
    let mut set = GtidSet::new(alloc);
    for number in numbers {
        set.add(numbered(*number)?)?;
    }
    Ok(set)
}

/// The set's text behind the UUID of its first interval.
fn expect_text(rt: &impl Abort, alloc: Global, set: &GtidSet, spans: &[u8]) -> Result<(), Fail> {
    let mut expected = Vec::from_slice(alloc, b"00000000-0000-0000-0000-000000000001")?;
    expected.extend_from_slice(spans)?;
    let mut text = Vec::new(alloc);
    set.put_text(alloc, &mut text)?;
    assert_eq!(rt; text.as_slice(), expected.as_slice());
    Ok(())
}

#[test]
fn a_gtid_joins_its_neighbours(rt: HostRuntime) -> Result<(), Fail> {
    let alloc = rt.alloc();
    let mut set = set_of(alloc, &[1, 2, 4])?;
    expect_text(&rt, alloc, &set, b":1-2:4")?;
    assert_eq!(rt; set.intervals(), 2);
    set.add(numbered(3)?)?;
    expect_text(&rt, alloc, &set, b":1-4")?;
    expect_text(&rt, alloc, &set.copy(alloc)?, b":1-4")?;
    Ok(())
}

/// GTIDs that come to a kept position, and its text after each.
const KEPT: [(u64, &[u8]); 6] = [
    (8, b":1-8"),
    (9, b":1-9"),
    (10, b":1-10"),
    (12, b":1-10:12"),
    (13, b":1-10:12-13"),
    (11, b":1-13"),
];

/// The position that this one becomes, whose text is to end so.
fn expect_kept(
    rt: &impl Abort,
    alloc: Global,
    mut position: KeptPosition,
    number: u64,
    spans: &[u8],
) -> Result<KeptPosition, Fail> {
    position.add(alloc, numbered(number)?)?;
    assert!(rt; position.text().ends_with(spans));
    assert!(rt; position.contains(&numbered(number)?));
    expect_text(rt, alloc, position.set(), spans)?;
    Ok(position)
}

#[test]
fn a_position_keeps_its_text(rt: HostRuntime) -> Result<(), Fail> {
    let alloc = rt.alloc();
    let mut position = KeptPosition::of(alloc, set_of(alloc, &[1, 2, 3, 4, 5, 6, 7])?)?;
    for (number, spans) in &KEPT {
        position = expect_kept(&rt, alloc, position, *number, *spans)?;
    }
    Ok(())
}

#[test]
fn sets_are_compared_and_united(rt: HostRuntime) -> Result<(), Fail> {
    let alloc = rt.alloc();
    let small = set_of(alloc, &[1, 2])?;
    let large = set_of(alloc, &[1, 2, 4, 9])?;
    assert!(rt; small.is_subset(&large));
    assert!(rt; !large.is_subset(&small));
    assert!(rt; large.contains(&numbered(4)?));
    assert!(rt; !small.contains(&numbered(4)?));
    assert_eq!(rt; large.first_missing(&small), Some(numbered(4)?));
    assert_eq!(rt; small.first_missing(&large), None);
    let united = small.union(alloc, &set_of(alloc, &[3, 7])?)?;
    expect_text(&rt, alloc, &united, b":1-3:7")?;
    Ok(())
}

/// The block of the numbers 1 to 5 of the UUID: how many UUIDs, the one, how many intervals, and
/// the beginning and the end of the one.
const BLOCK: [u8; 48] = [
    1, 0, 0, 0, 0, 0, 0, 0, // one UUID
    0, 0, 0, 0, 0, 0, 0, 0, 0, 0, 0, 0, 0, 0, 0, 1, // the UUID
    1, 0, 0, 0, 0, 0, 0, 0, // one interval
    1, 0, 0, 0, 0, 0, 0, 0, // from 1
    6, 0, 0, 0, 0, 0, 0, 0, // to before 6
];

#[test]
fn a_block_is_read(rt: HostRuntime) -> Result<(), Fail> {
    let alloc = rt.alloc();
    let set = GtidSet::from_block(alloc, &BLOCK)?;
    expect_text(&rt, alloc, &set, b":1-5")
}

#[test]
fn a_block_is_cut(rt: HostRuntime) {
    match GtidSet::from_block(rt.alloc(), &BLOCK[..47]) {
        Ok(_) => assert!(rt; false, "a cut block was read"),
        Err(refusal) => assert_eq!(rt; refusal, GtidRefusal::BadBlock { at: 40 }),
    }
}

fn expect_printed(rt: &impl Abort, alloc: Global, text: &[u8], printed: &[u8]) -> Result<(), Fail> {
    let set = GtidSet::parse(alloc, text)?;
    let mut out = Vec::new(alloc);
    set.put_text(alloc, &mut out)?;
    assert_eq!(rt; out.as_slice(), printed);
    Ok(())
}

fn expect_refused(rt: &impl Abort, alloc: Global, text: &[u8], refusal: GtidRefusal) {
    match GtidSet::parse(alloc, text) {
        Ok(_) => assert!(rt; false, "a text with a fault was read"),
        Err(found) => assert_eq!(rt; found, refusal),
    }
}

/// A text of a set, and the set's own text.
struct Printed {
    text: &'static [u8],
    printed: &'static [u8],
}

static PRINTED: [Printed; 5] = [
    Printed {
        text: b"",
        printed: b"",
    },
    Printed {
        text: b"MySQL56/ \t\r\n",
        printed: b"",
    },
    Printed {
        text: b"00000000-0000-0000-0000-00000000000A:3, 00000000-0000-0000-0000-00000000000a:1-2:5:2",
        printed: b"00000000-0000-0000-0000-00000000000a:1-3:5",
    },
    Printed {
        text: b"MySQL56/00000000-0000-0000-0000-00000000000b:7 ,00000000-0000-0000-0000-000000000001:01-02",
        printed: b"00000000-0000-0000-0000-000000000001:1-2,00000000-0000-0000-0000-00000000000b:7",
    },
    Printed {
        text: b"00000000-0000-0000-0000-000000000001:9223372036854775806",
        printed: b"00000000-0000-0000-0000-000000000001:9223372036854775806",
    },
];

#[test]
fn texts_are_read(rt: HostRuntime) -> Result<(), Fail> {
    for case in &PRINTED {
        expect_printed(&rt, rt.alloc(), case.text, case.printed)?;
    }
    Ok(())
}

/// What stands behind a UUID, and why the text is refused.
struct RefusedSpans {
    spans: &'static [u8],
    refusal: GtidRefusal,
}

static REFUSED: [RefusedSpans; 9] = [
    RefusedSpans {
        spans: b":0",
        refusal: GtidRefusal::ZeroNumber { at: 37 },
    },
    RefusedSpans {
        spans: b":5-3",
        refusal: GtidRefusal::EmptyInterval { at: 39 },
    },
    RefusedSpans {
        spans: b":0,x",
        refusal: GtidRefusal::BadText { at: 39 },
    },
    RefusedSpans {
        spans: b"",
        refusal: GtidRefusal::BadText { at: 36 },
    },
    RefusedSpans {
        spans: b":1-",
        refusal: GtidRefusal::BadText { at: 39 },
    },
    RefusedSpans {
        spans: b":1x",
        refusal: GtidRefusal::BadText { at: 38 },
    },
    RefusedSpans {
        spans: b":5-3:0",
        refusal: GtidRefusal::ZeroNumber { at: 41 },
    },
    RefusedSpans {
        spans: b":9223372036854775807x",
        refusal: GtidRefusal::BadText { at: 37 },
    },
    RefusedSpans {
        spans: b":00000000000000000001",
        refusal: GtidRefusal::BadText { at: 56 },
    },
];

fn expect_refused_spans(rt: &impl Abort, alloc: Global, case: &RefusedSpans) -> Result<(), Fail> {
    let mut text = Vec::from_slice(alloc, b"00000000-0000-0000-0000-000000000001")?;
    text.extend_from_slice(case.spans)?;
    expect_refused(rt, alloc, text.as_slice(), case.refusal);
    Ok(())
}

#[test]
fn texts_are_refused(rt: HostRuntime) -> Result<(), Fail> {
    let alloc = rt.alloc();
    for case in &REFUSED {
        expect_refused_spans(&rt, alloc, case)?;
    }
    expect_refused(&rt, alloc, b"x", GtidRefusal::BadText { at: 0 });
    expect_refused(&rt, alloc, b"MyS", GtidRefusal::BadText { at: 3 });
    Ok(())
}
