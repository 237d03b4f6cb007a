use crate::{
    Field, FieldValue, Fields, WireRefusal, get_varint, put_bytes, put_number, put_varint,
    varint_len,
};
use std::alloc::Global;
use std::process::Abort;
use std::test::Fail;

/// A number, and its one spelling.
struct Spelled {
    number: u64,
    bytes: &'static [u8],
}

static SPELLED: [Spelled; 6] = [
    Spelled {
        number: 0,
        bytes: b"\x00",
    },
    Spelled {
        number: 127,
        bytes: b"\x7f",
    },
    Spelled {
        number: 178,
        bytes: b"\xb2\x01",
    },
    Spelled {
        number: 16_384,
        bytes: b"\x80\x80\x01",
    },
    Spelled {
        number: 0x7fff_ffff_ffff_ffff,
        bytes: b"\xff\xff\xff\xff\xff\xff\xff\xff\x7f",
    },
    Spelled {
        number: 0xffff_ffff_ffff_ffff,
        bytes: b"\xff\xff\xff\xff\xff\xff\xff\xff\xff\x01",
    },
];

fn expect_spelled(rt: &impl Abort, alloc: Global, case: &Spelled) -> Result<(), Fail> {
    let mut out = Vec::new(alloc);
    put_varint(alloc, &mut out, case.number)?;
    assert_eq!(rt; out.as_slice(), case.bytes);
    assert_eq!(rt; varint_len(case.number), case.bytes.len());
    assert_eq!(rt; get_varint(case.bytes), Ok((case.number, case.bytes.len())));
    Ok(())
}

#[test]
fn numbers_are_spelled_and_read(rt: HostRuntime) -> Result<(), Fail> {
    for case in &SPELLED {
        expect_spelled(&rt, rt.alloc(), case)?;
    }
    Ok(())
}

#[test]
fn numbers_are_refused(rt: HostRuntime) {
    let cut = Err(WireRefusal::Cut { at: 0 });
    assert_eq!(rt; get_varint(b"\xb2"), cut);
    assert_eq!(rt; get_varint(&[0x80; 9]), cut);
    assert_eq!(rt;
        get_varint(&[0x80; 11]),
        Err(WireRefusal::LongVarint { at: 0 })
    );
    let more_bits = b"\x80\x80\x80\x80\x80\x80\x80\x80\x80\x7f";
    assert_eq!(rt; get_varint(more_bits), Ok((0x8000_0000_0000_0000, 10)));
}

#[test]
fn fields_are_spelled_and_read(rt: HostRuntime) -> Result<(), Fail> {
    let mut out = Vec::new(rt.alloc());
    put_bytes(rt.alloc(), &mut out, 22, b"c")?;
    put_number(rt.alloc(), &mut out, 2, 100)?;
    assert_eq!(rt; out.as_slice(), b"\xb2\x01\x01\x63\x10\x64".as_slice());
    out.extend_from_slice(b"\x19\x01\x02\x03\x04\x05\x06\x07\x08\x25\x09\x0a\x0b\x0c")?;

    let wanted = [
        (22, 0, FieldValue::Bytes(b"c")),
        (2, 4, FieldValue::Varint(100)),
        (3, 6, FieldValue::Fixed64([1, 2, 3, 4, 5, 6, 7, 8])),
        (4, 15, FieldValue::Fixed32([9, 10, 11, 12])),
    ];
    let mut fields = Fields::new(out.as_slice());
    for (number, at, value) in wanted {
        assert_eq!(rt; fields.next_field(), Some(Ok(Field { number, at, value })));
    }
    assert_eq!(rt; fields.next_field(), None);
    Ok(())
}

/// Bytes whose first field is refused.
struct RefusedField {
    bytes: &'static [u8],
    refusal: WireRefusal,
}

static REFUSED: [RefusedField; 7] = [
    RefusedField {
        bytes: b"\x0b",
        refusal: WireRefusal::BadWireType { at: 0, kind: 3 },
    },
    RefusedField {
        bytes: b"\x03",
        refusal: WireRefusal::BadWireType { at: 0, kind: 3 },
    },
    RefusedField {
        bytes: b"\x00\x01",
        refusal: WireRefusal::ZeroField { at: 0 },
    },
    RefusedField {
        bytes: b"\x00",
        refusal: WireRefusal::ZeroField { at: 0 },
    },
    RefusedField {
        bytes: b"\x12\x02\x61",
        refusal: WireRefusal::Cut { at: 0 },
    },
    RefusedField {
        bytes: b"\x80\x80\x80\x80\x10\x01",
        refusal: WireRefusal::LongVarint { at: 0 },
    },
    RefusedField {
        bytes: b"\x0d\x01\x02\x03",
        refusal: WireRefusal::Cut { at: 0 },
    },
];

#[test]
fn fields_are_refused(rt: HostRuntime) {
    for case in &REFUSED {
        let mut fields = Fields::new(case.bytes);
        assert_eq!(rt; fields.next_field(), Some(Err(case.refusal)));
        assert_eq!(rt; fields.next_field(), None);
    }
}
