use crate::{ValueRefusal, agrees, meta_length, put_value, value};
use std::alloc::Global;
use std::process::Abort;
use std::test::Fail;
use vs_base::{Cell, ColumnKind, Text};

/// Bytes that are a whole value of a column, and its text.
#[derive(Clone, Copy)]
struct Value<'a> {
    kind: ColumnKind,
    meta: &'a [u8],
    bytes: &'a [u8],
    text: &'a [u8],
}

fn expect(rt: &impl Abort, alloc: Global, case: &Value<'_>) -> Result<(), Fail> {
    let wanted = Cell::Bytes(Text::from_bytes(alloc, case.text)?);
    let (cell, used) = value(alloc, &case.kind, case.meta, case.bytes)?;
    assert_eq!(rt; cell, wanted);
    assert_eq!(rt; used, case.bytes.len());
    Ok(())
}

fn expect_all(rt: &impl Abort, alloc: Global, cases: &[Value<'_>]) -> Result<(), Fail> {
    for case in cases {
        expect(rt, alloc, case)?;
    }
    Ok(())
}

static WHOLE_NUMBERS: [Value<'static>; 18] = [
    Value {
        kind: ColumnKind::TinyInt { unsigned: false },
        meta: &[],
        bytes: b"\xff",
        text: b"-1",
    },
    Value {
        kind: ColumnKind::TinyInt { unsigned: false },
        meta: &[],
        bytes: b"\x80",
        text: b"-128",
    },
    Value {
        kind: ColumnKind::TinyInt { unsigned: false },
        meta: &[],
        bytes: b"\x7f",
        text: b"127",
    },
    Value {
        kind: ColumnKind::TinyInt { unsigned: false },
        meta: &[],
        bytes: b"\x00",
        text: b"0",
    },
    Value {
        kind: ColumnKind::TinyInt { unsigned: true },
        meta: &[],
        bytes: b"\xff",
        text: b"255",
    },
    Value {
        kind: ColumnKind::TinyInt { unsigned: true },
        meta: &[],
        bytes: b"\x00",
        text: b"0",
    },
    Value {
        kind: ColumnKind::SmallInt { unsigned: false },
        meta: &[],
        bytes: b"\x00\x80",
        text: b"-32768",
    },
    Value {
        kind: ColumnKind::SmallInt { unsigned: false },
        meta: &[],
        bytes: b"\xff\x7f",
        text: b"32767",
    },
    Value {
        kind: ColumnKind::SmallInt { unsigned: true },
        meta: &[],
        bytes: b"\xff\xff",
        text: b"65535",
    },
    Value {
        kind: ColumnKind::MediumInt { unsigned: false },
        meta: &[],
        bytes: b"\x00\x00\x80",
        text: b"-8388608",
    },
    Value {
        kind: ColumnKind::MediumInt { unsigned: false },
        meta: &[],
        bytes: b"\xff\xff\x7f",
        text: b"8388607",
    },
    Value {
        kind: ColumnKind::MediumInt { unsigned: true },
        meta: &[],
        bytes: b"\xff\xff\xff",
        text: b"16777215",
    },
    Value {
        kind: ColumnKind::Int { unsigned: false },
        meta: &[],
        bytes: b"\x00\x00\x00\x80",
        text: b"-2147483648",
    },
    Value {
        kind: ColumnKind::Int { unsigned: false },
        meta: &[],
        bytes: b"\xff\xff\xff\x7f",
        text: b"2147483647",
    },
    Value {
        kind: ColumnKind::Int { unsigned: true },
        meta: &[],
        bytes: b"\xff\xff\xff\xff",
        text: b"4294967295",
    },
    Value {
        kind: ColumnKind::BigInt { unsigned: false },
        meta: &[],
        bytes: b"\x00\x00\x00\x00\x00\x00\x00\x80",
        text: b"-9223372036854775808",
    },
    Value {
        kind: ColumnKind::BigInt { unsigned: false },
        meta: &[],
        bytes: b"\xff\xff\xff\xff\xff\xff\xff\x7f",
        text: b"9223372036854775807",
    },
    Value {
        kind: ColumnKind::BigInt { unsigned: true },
        meta: &[],
        bytes: b"\xff\xff\xff\xff\xff\xff\xff\xff",
        text: b"18446744073709551615",
    },
];

#[test]
fn whole_numbers(rt: HostRuntime) -> Result<(), Fail> {
    expect_all(&rt, rt.alloc(), &WHOLE_NUMBERS)
}

static TIMES: [Value<'static>; 17] = [
    Value {
        kind: ColumnKind::Date,
        meta: &[],
        bytes: b"\x5d\xd0\x0f",
        text: b"2024-02-29",
    },
    Value {
        kind: ColumnKind::Date,
        meta: &[],
        bytes: b"\x00\x00\x00",
        text: b"0000-00-00",
    },
    Value {
        kind: ColumnKind::Date,
        meta: &[],
        bytes: b"\x9f\x1f\x4e",
        text: b"9999-12-31",
    },
    Value {
        kind: ColumnKind::DateTime { precision: 0 },
        meta: &[0],
        bytes: b"\x99\xb2\xba\xc8\xb8",
        text: b"2024-02-29 12:34:56",
    },
    Value {
        kind: ColumnKind::DateTime { precision: 0 },
        meta: &[0],
        bytes: b"\x80\x00\x00\x00\x00",
        text: b"0000-00-00 00:00:00",
    },
    Value {
        kind: ColumnKind::DateTime { precision: 0 },
        meta: &[0],
        bytes: b"\xfe\xf3\xff\x7e\xfb",
        text: b"9999-12-31 23:59:59",
    },
    Value {
        kind: ColumnKind::DateTime { precision: 1 },
        meta: &[1],
        bytes: b"\x99\xb2\xba\xc8\xb8\x32",
        text: b"2024-02-29 12:34:56.5",
    },
    Value {
        kind: ColumnKind::DateTime { precision: 2 },
        meta: &[2],
        bytes: b"\x99\xb2\xba\xc8\xb8\x63",
        text: b"2024-02-29 12:34:56.99",
    },
    Value {
        kind: ColumnKind::DateTime { precision: 3 },
        meta: &[3],
        bytes: b"\x99\xb2\xba\xc8\xb8\x04\xce",
        text: b"2024-02-29 12:34:56.123",
    },
    Value {
        kind: ColumnKind::DateTime { precision: 4 },
        meta: &[4],
        bytes: b"\x99\xb2\xba\xc8\xb8\x04\xd2",
        text: b"2024-02-29 12:34:56.1234",
    },
    Value {
        kind: ColumnKind::DateTime { precision: 5 },
        meta: &[5],
        bytes: b"\x99\xb2\xba\xc8\xb8\x01\xe2\x3a",
        text: b"2024-02-29 12:34:56.12345",
    },
    Value {
        kind: ColumnKind::DateTime { precision: 6 },
        meta: &[6],
        bytes: b"\x99\xb2\xba\xc8\xb8\x01\xe2\x40",
        text: b"2024-02-29 12:34:56.123456",
    },
    Value {
        kind: ColumnKind::DateTime { precision: 6 },
        meta: &[6],
        bytes: b"\x99\xb2\xba\xc8\xb8\x00\x00\x01",
        text: b"2024-02-29 12:34:56.000001",
    },
    Value {
        kind: ColumnKind::Timestamp { precision: 0 },
        meta: &[0],
        bytes: b"\x00\x00\x00\x00",
        text: b"0",
    },
    Value {
        kind: ColumnKind::Timestamp { precision: 0 },
        meta: &[0],
        bytes: b"\x65\xe0\x7b\x70",
        text: b"1709210480",
    },
    Value {
        kind: ColumnKind::Timestamp { precision: 0 },
        meta: &[0],
        bytes: b"\xff\xff\xff\xff",
        text: b"4294967295",
    },
    Value {
        kind: ColumnKind::Timestamp { precision: 3 },
        meta: &[3],
        bytes: b"\x00\x00\x00\x01\x00\xdc",
        text: b"1.022",
    },
];

#[test]
fn times(rt: HostRuntime) -> Result<(), Fail> {
    expect_all(&rt, rt.alloc(), &TIMES)
}

static DECIMALS: [Value<'static>; 12] = [
    Value {
        kind: ColumnKind::Decimal {
            precision: 10,
            scale: 2,
        },
        meta: &[10, 2],
        bytes: b"\x80\x12\xd6\x87\x59",
        text: b"1234567.89",
    },
    Value {
        kind: ColumnKind::Decimal {
            precision: 10,
            scale: 2,
        },
        meta: &[10, 2],
        bytes: b"\x7f\xed\x29\x78\xa6",
        text: b"-1234567.89",
    },
    Value {
        kind: ColumnKind::Decimal {
            precision: 10,
            scale: 2,
        },
        meta: &[10, 2],
        bytes: b"\x80\x00\x00\x00\x00",
        text: b"0.00",
    },
    Value {
        kind: ColumnKind::Decimal {
            precision: 10,
            scale: 2,
        },
        meta: &[10, 2],
        bytes: b"\x7f\xff\xff\xff\xff",
        text: b"-0.00",
    },
    Value {
        kind: ColumnKind::Decimal {
            precision: 10,
            scale: 2,
        },
        meta: &[10, 2],
        bytes: b"\x85\xf5\xe0\xff\x63",
        text: b"99999999.99",
    },
    Value {
        kind: ColumnKind::Decimal {
            precision: 10,
            scale: 2,
        },
        meta: &[10, 2],
        bytes: b"\x7a\x0a\x1f\x00\x9c",
        text: b"-99999999.99",
    },
    Value {
        kind: ColumnKind::Decimal {
            precision: 9,
            scale: 9,
        },
        meta: &[9, 9],
        bytes: b"\x87\x5b\xcd\x15",
        text: b"0.123456789",
    },
    Value {
        kind: ColumnKind::Decimal {
            precision: 9,
            scale: 9,
        },
        meta: &[9, 9],
        bytes: b"\x7f\xff\xff\xfe",
        text: b"-0.000000001",
    },
    Value {
        kind: ColumnKind::Decimal {
            precision: 65,
            scale: 30,
        },
        meta: &[65, 30],
        bytes: b"\x85\xf5\xe0\xff\x3b\x9a\xc9\xff\x3b\x9a\xc9\xff\x3b\x9a\xc9\xff\x3b\x9a\xc9\xff\x3b\x9a\xc9\xff\x3b\x9a\xc9\xff\x03\xe7",
        text: b"99999999999999999999999999999999999.999999999999999999999999999999",
    },
    Value {
        kind: ColumnKind::Decimal {
            precision: 65,
            scale: 30,
        },
        meta: &[65, 30],
        bytes: b"\x80\xbc\x61\x4e\x35\xb7\xbf\x87\x35\x0e\x34\xc0\x2f\x07\x5f\x79\x00\xbc\x61\x4e\x35\xb7\xbf\x87\x35\x0e\x34\xc0\x03\x15",
        text: b"12345678901234567890123456789012345.012345678901234567890123456789",
    },
    Value {
        kind: ColumnKind::Decimal {
            precision: 19,
            scale: 0,
        },
        meta: &[19, 0],
        bytes: b"\x80\x00\x00\x00\x01\x00\x00\x00\x00",
        text: b"1000000000",
    },
    Value {
        kind: ColumnKind::Decimal {
            precision: 18,
            scale: 8,
        },
        meta: &[18, 8],
        bytes: b"\x80\x00\x00\x00\x01\x02\xfa\xf0\x80",
        text: b"1.50000000",
    },
];

#[test]
fn decimals(rt: HostRuntime) -> Result<(), Fail> {
    expect_all(&rt, rt.alloc(), &DECIMALS)
}

static TEXTS: [Value<'static>; 7] = [
    Value {
        kind: ColumnKind::VarChar { length: 20 },
        meta: &[255, 0],
        bytes: b"\x00",
        text: b"",
    },
    Value {
        kind: ColumnKind::VarChar { length: 20 },
        meta: &[255, 0],
        bytes: b"\x02ab",
        text: b"ab",
    },
    Value {
        kind: ColumnKind::Blob,
        meta: &[3],
        bytes: b"\x01\x00\x00a",
        text: b"a",
    },
    Value {
        kind: ColumnKind::Char { length: 4 },
        meta: &[254, 9],
        bytes: b"\x02ab",
        text: b"ab",
    },
    Value {
        kind: ColumnKind::Binary { length: 4 },
        meta: &[254, 4],
        bytes: b"\x00",
        text: b"\x00\x00\x00\x00",
    },
    Value {
        kind: ColumnKind::Binary { length: 4 },
        meta: &[254, 4],
        bytes: b"\x02ab",
        text: b"ab\x00\x00",
    },
    Value {
        kind: ColumnKind::Binary { length: 4 },
        meta: &[254, 4],
        bytes: b"\x04abcd",
        text: b"abcd",
    },
];

#[test]
fn texts(rt: HostRuntime) -> Result<(), Fail> {
    expect_all(&rt, rt.alloc(), &TEXTS)
}

/// A text of so many bytes behind its length.
fn expect_long(rt: &impl Abort, alloc: Global, length: &[u8], count: usize) -> Result<(), Fail> {
    let mut text = Vec::new(alloc);
    text.resize(count, b'x')?;
    let mut bytes = Vec::from_slice(alloc, length)?;
    bytes.extend_from_slice(text.as_slice())?;
    let meta = if length.len() == 1 { [255, 0] } else { [44, 1] };
    let case = Value {
        kind: ColumnKind::VarBinary { length: 300 },
        meta: &meta,
        bytes: bytes.as_slice(),
        text: text.as_slice(),
    };
    expect(rt, alloc, &case)
}

#[test]
fn long_texts(rt: HostRuntime) -> Result<(), Fail> {
    let alloc = rt.alloc();
    expect_long(&rt, alloc, &[255], 255)?;
    expect_long(&rt, alloc, &[255, 0], 255)?;
    expect_long(&rt, alloc, &[0, 1], 256)
}

#[test]
fn bytes_behind_a_value_stay(rt: HostRuntime) -> Result<(), Fail> {
    let alloc = rt.alloc();
    let mut out = Vec::from_slice(alloc, b"v=")?;
    assert_eq!(rt;
        put_value(&ColumnKind::Date, &[], b"\x5d\xd0\x0f\xff", &mut out),
        Ok(3)
    );
    assert_eq!(rt; out.as_slice(), b"v=2024-02-29".as_slice());
    Ok(())
}

/// Bytes that are refused as a value of a column.
#[derive(Clone, Copy)]
struct Refused {
    kind: ColumnKind,
    meta: &'static [u8],
    bytes: &'static [u8],
}

fn expect_refused(rt: &impl Abort, alloc: Global, case: &Refused, refusal: ValueRefusal) {
    let mut out = Vec::new(alloc);
    let answer = put_value(&case.kind, case.meta, case.bytes, &mut out);
    assert_eq!(rt; answer, Err(refusal));
}

static SHORT: [Refused; 5] = [
    Refused {
        kind: ColumnKind::TinyInt { unsigned: false },
        meta: &[],
        bytes: b"",
    },
    Refused {
        kind: ColumnKind::DateTime { precision: 1 },
        meta: &[1],
        bytes: b"\x00\x00\x00\x00\x00",
    },
    Refused {
        kind: ColumnKind::Text,
        meta: &[2],
        bytes: b"",
    },
    Refused {
        kind: ColumnKind::Text,
        meta: &[2],
        bytes: b"\x01",
    },
    Refused {
        kind: ColumnKind::Text,
        meta: &[2],
        bytes: b"\x02\x00a",
    },
];

#[test]
fn short_values(rt: HostRuntime) {
    for case in &SHORT {
        expect_refused(&rt, rt.alloc(), case, ValueRefusal::ShortValue);
    }
}

static BAD: [Refused; 13] = [
    Refused {
        kind: ColumnKind::Date,
        meta: &[],
        bytes: b"\xff\x7f\x00",
    },
    Refused {
        kind: ColumnKind::Date,
        meta: &[],
        bytes: b"\xa0\x01\x00",
    },
    Refused {
        kind: ColumnKind::Date,
        meta: &[],
        bytes: b"\x00\x20\x4e",
    },
    Refused {
        kind: ColumnKind::DateTime { precision: 0 },
        meta: &[0],
        bytes: b"\x7f\xff\xff\xff\xff",
    },
    Refused {
        kind: ColumnKind::DateTime { precision: 0 },
        meta: &[0],
        bytes: b"\x99\xb2\xbb\x80\x00",
    },
    Refused {
        kind: ColumnKind::DateTime { precision: 0 },
        meta: &[0],
        bytes: b"\x99\xb2\xba\x0f\x00",
    },
    Refused {
        kind: ColumnKind::DateTime { precision: 0 },
        meta: &[0],
        bytes: b"\x99\xb2\xba\x00\x3c",
    },
    Refused {
        kind: ColumnKind::DateTime { precision: 0 },
        meta: &[0],
        bytes: b"\xfe\xf4\x42\x00\x00",
    },
    Refused {
        kind: ColumnKind::Timestamp { precision: 1 },
        meta: &[1],
        bytes: b"\x00\x00\x00\x00\x64",
    },
    Refused {
        kind: ColumnKind::Decimal {
            precision: 10,
            scale: 2,
        },
        meta: &[10, 2],
        bytes: b"\x85\xf5\xe1\x00\x00",
    },
    Refused {
        kind: ColumnKind::Decimal {
            precision: 10,
            scale: 2,
        },
        meta: &[10, 2],
        bytes: b"\x80\x00\x00\x00\x64",
    },
    Refused {
        kind: ColumnKind::Decimal {
            precision: 10,
            scale: 2,
        },
        meta: &[10, 3],
        bytes: b"",
    },
    Refused {
        kind: ColumnKind::DateTime { precision: 7 },
        meta: &[7],
        bytes: b"",
    },
];

#[test]
fn bad_values(rt: HostRuntime) {
    for case in &BAD {
        expect_refused(&rt, rt.alloc(), case, ValueRefusal::BadValue);
    }
}

#[test]
fn types_and_metadata(rt: HostRuntime) {
    assert!(rt; agrees(&ColumnKind::Binary { length: 4 }, 254, &[254, 4]));
    assert!(rt; !agrees(&ColumnKind::Binary { length: 4 }, 254, &[254, 5]));
    assert!(rt; agrees(&ColumnKind::Char { length: 4 }, 254, &[254, 5]));
    assert!(rt; !agrees(&ColumnKind::Char { length: 4 }, 254, &[247, 1]));
    assert!(rt; !agrees(&ColumnKind::Text, 252, &[5]));
    assert!(rt; !agrees(&ColumnKind::Date, 11, &[]));
    assert_eq!(rt; meta_length(246), Some(2));
    assert_eq!(rt; meta_length(13), Some(0));
    assert_eq!(rt; meta_length(245), Some(1));
    assert_eq!(rt; meta_length(7), None);
}
