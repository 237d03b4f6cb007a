use crate::{
    ProtoRefusal, read_event, read_journal, read_request, read_response, read_vgtid, write_event,
    write_journal, write_request, write_response, write_vgtid,
};
use std::test::Fail;
use vs_wire::WireRefusal;

/// The event with the vector after the first statement of the sample shard c/0, at the time 100.
const VGTID_EVENT: &[u8] =
    b"\x08\x0f\x10\x64\x3a\x38\x0a\x36\x0a\x01c\x12\x010\x1a\x2eMySQL56/00000000-0000-0000-0000-000000000001:1\xb2\x01\x01c\xba\x01\x010";

#[test]
fn the_event_of_a_vector_is_read(rt: HostRuntime) -> Result<(), Fail> {
    let event = read_event(rt.alloc(), VGTID_EVENT)?;
    assert_eq!(rt; event.kind, 15);
    assert_eq!(rt; event.timestamp, 100);
    assert_eq!(rt; event.keyspace.as_bytes(), b"c".as_slice());
    assert_eq!(rt; event.shard.as_bytes(), b"0".as_slice());
    Ok(())
}

/// Bytes of an event, and its one spelling.
const SPELLINGS: [(&[u8], &[u8]); 9] = [
    (VGTID_EVENT, VGTID_EVENT),
    // Of two numbers the last counts; a default isn't written.
    (b"\x10\x01\x10\x02", b"\x10\x02"),
    (b"\x10\x00\x1a\x00", b""),
    // Two vectors are merged.
    (
        b"\x3a\x05\x0a\x03\x0a\x01a\x3a\x05\x0a\x03\x0a\x01b",
        b"\x3a\x0a\x0a\x03\x0a\x01a\x0a\x03\x0a\x01b",
    ),
    // Unknown fields, and a string as a number, are passed over.
    (b"\x98\x06\x01\x18\x05\x10\x05", b"\x10\x05"),
    // Fields in any order are written in ascending order.
    (b"\x10\x01\x08\x03", b"\x08\x03\x10\x01"),
    // Negative numbers, and a list of numbers one by one.
    (
        b"\x10\xff\xff\xff\xff\xff\xff\xff\xff\xff\x01",
        b"\x10\xff\xff\xff\xff\xff\xff\xff\xff\xff\x01",
    ),
    (
        b"\x08\xff\xff\xff\xff\x0f",
        b"\x08\xff\xff\xff\xff\xff\xff\xff\xff\xff\x01",
    ),
    (
        b"\x2a\x0b\x12\x09\x12\x07\x08\x02\x08\x01\x12\x01a",
        b"\x2a\x0b\x12\x09\x12\x07\x0a\x02\x02\x01\x12\x01a",
    ),
];

#[test]
fn events_are_written_in_their_one_spelling(rt: HostRuntime) -> Result<(), Fail> {
    for (bytes, spelling) in &SPELLINGS {
        let mut out = Vec::new(rt.alloc());
        write_event(rt.alloc(), &mut out, &read_event(rt.alloc(), bytes)?)?;
        assert_eq!(rt; out.as_slice(), *spelling);
    }
    Ok(())
}

const CUT: WireRefusal = WireRefusal::Cut { at: 0 };

const GROUP: WireRefusal = WireRefusal::BadWireType { at: 0, kind: 3 };

/// Bytes that are no event, and what is wrong with them.
const REFUSALS: [(&[u8], ProtoRefusal); 5] = [
    (b"\x08\x01\x1a\x01\xff", ProtoRefusal::NotUtf8 { at: 2 }),
    (b"\x0b", ProtoRefusal::BadMessage { at: 0, why: GROUP }),
    (
        b"\x08\x01\x3a\x01\x0b",
        ProtoRefusal::BadMessage { at: 2, why: GROUP },
    ),
    // A row of one cell of two bytes, with one byte; and a length of -2.
    (
        b"\x2a\x0a\x12\x08\x12\x06\x0a\x01\x04\x12\x01a",
        ProtoRefusal::BadMessage { at: 0, why: CUT },
    ),
    (
        b"\x2a\x07\x12\x05\x12\x03\x0a\x01\x03",
        ProtoRefusal::BadMessage { at: 0, why: CUT },
    ),
];

#[test]
fn events_are_refused(rt: HostRuntime) {
    for (bytes, refusal) in &REFUSALS {
        match read_event(rt.alloc(), bytes) {
            Err(e) => assert_eq!(rt; e, *refusal),
            Ok(_) => assert!(rt; false),
        }
    }
}

#[test]
fn a_request_is_read_and_written(rt: HostRuntime) -> Result<(), Fail> {
    let bytes = b"\x0a\x12\x0a\x10\x0a\x01c\x12\x010\x1a\x08MySQL56/".as_slice();
    let mut out = Vec::new(rt.alloc());
    write_request(rt.alloc(), &mut out, &read_request(rt.alloc(), bytes)?)?;
    assert_eq!(rt; out.as_slice(), bytes);
    Ok(())
}

#[test]
fn a_response_is_read_and_written(rt: HostRuntime) -> Result<(), Fail> {
    let bytes =
        b"\x0a\x1a\x08\x05\x10\x64\x22\x0cdrop table t\xb2\x01\x01c\xba\x01\x010".as_slice();
    let mut out = Vec::new(rt.alloc());
    write_response(rt.alloc(), &mut out, &read_response(rt.alloc(), bytes)?)?;
    assert_eq!(rt; out.as_slice(), bytes);
    Ok(())
}

#[test]
fn a_vector_is_read_and_written(rt: HostRuntime) -> Result<(), Fail> {
    let bytes = b"\x0a\x10\x0a\x01c\x12\x010\x1a\x08MySQL56/".as_slice();
    let mut out = Vec::new(rt.alloc());
    write_vgtid(rt.alloc(), &mut out, &read_vgtid(rt.alloc(), bytes)?)?;
    assert_eq!(rt; out.as_slice(), bytes);
    Ok(())
}

#[test]
fn a_journal_is_read_and_written(rt: HostRuntime) -> Result<(), Fail> {
    let bytes =
        b"\x08\x07\x10\x01\x2a\x12\x0a\x01c\x12\x03-40\x1a\x08MySQL56/\x32\x08\x0a\x01c\x12\x03-80".as_slice();
    let mut out = Vec::new(rt.alloc());
    write_journal(rt.alloc(), &mut out, &read_journal(rt.alloc(), bytes)?)?;
    assert_eq!(rt; out.as_slice(), bytes);
    Ok(())
}
