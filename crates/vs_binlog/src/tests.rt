use crate::{
    FormatRefusal, Head, Query, Step, first_word, is_same_word, law_first_word, next_event,
    read_format, read_gtid, read_head, read_packed, read_query,
};
use std::process::Abort;
use std::test::Fail;
use vs_base::Gtid;

/// A head of this kind and length at the time 100; the server and the next place have their own bytes.
fn head_bytes(kind: u8, length: u8, flags: u8) -> [u8; 19] {
    [
        100, 0, 0, 0, kind, 9, 9, 9, 9, length, 0, 0, 0, 8, 8, 8, 8, flags, 0,
    ]
}

fn expect_head(rt: &impl Abort, kind: u8, length: u8, flags: u8) {
    let wanted = Head {
        time: 100,
        kind,
        length: length as u32,
        flags: flags as u16,
    };
    let bytes = head_bytes(kind, length, flags);
    assert_eq!(rt; next_event(&bytes), Step::Event(wanted));
    assert_eq!(rt; read_head(&bytes), wanted);
}

/// Kinds, lengths and flags.
static HEADS: [(u8, u8, u8); 10] = [
    (2, 49, 0),
    (15, 81, 0),
    (16, 27, 0),
    (19, 19, 0),
    (30, 52, 1),
    (31, 60, 1),
    (32, 47, 1),
    (33, 44, 0),
    (35, 27, 0x80),
    (255, 255, 255),
];

#[test]
fn heads_are_read(rt: HostRuntime) {
    for &(kind, length, flags) in &HEADS {
        expect_head(&rt, kind, length, flags);
    }
}

#[test]
fn what_is_no_head_is_told(rt: HostRuntime) {
    assert_eq!(rt; next_event(b""), Step::Short);
    assert_eq!(rt; next_event(&[255; 18]), Step::Short);
    assert_eq!(rt; next_event(&[0; 19]), Step::Bad { length: 0 });
    assert_eq!(rt; next_event(&head_bytes(2, 18, 0)), Step::Bad { length: 18 });
    let largest = Head {
        time: 4_294_967_295,
        kind: 255,
        length: 4_294_967_295,
        flags: 65_535,
    };
    assert_eq!(rt; next_event(&[255; 19]), Step::Event(largest));
}

/// A format description with these three bytes.
fn format_bytes(version: u8, head: u8, checksum: u8) -> [u8; 62] {
    let mut body = [0; 62];
    body[0] = version;
    body[56] = head;
    body[57] = checksum;
    body
}

#[test]
fn formats_are_told_apart(rt: HostRuntime) {
    assert_eq!(rt; read_format(&[4; 61]), Err(FormatRefusal::ShortFormat));
    assert_eq!(rt; read_format(&format_bytes(4, 19, 0)), Ok(()));
    let version = FormatRefusal::BadVersion { version: 3 };
    assert_eq!(rt; read_format(&format_bytes(3, 18, 1)), Err(version));
    let length = FormatRefusal::HeadLength { length: 18 };
    assert_eq!(rt; read_format(&format_bytes(4, 18, 1)), Err(length));
    let checksummed = FormatRefusal::Checksummed { kind: 1 };
    assert_eq!(rt; read_format(&format_bytes(4, 19, 1)), Err(checksummed));
}

/// The body of a GTID event of the UUID `00000000-0000-0000-0000-000000000001`.
fn gtid_bytes(number: u64) -> [u8; 25] {
    let mut body = [0; 25];
    body[16] = 1;
    body[17..].copy_from_slice(&number.to_le_bytes());
    body
}

#[test]
fn gtids_are_read(rt: HostRuntime) -> Result<(), Fail> {
    let mut uuid = [0; 16];
    uuid[15] = 1;
    for number in [1, 5, 9_223_372_036_854_775_806] {
        let wanted = Gtid::new(uuid, number).ok_or("in range")?;
        assert_eq!(rt; read_gtid(&gtid_bytes(number)), Some(wanted));
    }
    assert_eq!(rt; read_gtid(&gtid_bytes(0)), None);
    assert_eq!(rt; read_gtid(&gtid_bytes(9_223_372_036_854_775_807)), None);
    assert_eq!(rt; read_gtid(&gtid_bytes(1)[..24]), None);
    Ok(())
}

#[test]
fn queries_are_lent(rt: HostRuntime) {
    let body = b"threadti\x04\0\0\x02\0stvt_c\0drop table t";
    let wanted = Query {
        schema: b"vt_c",
        text: b"drop table t",
    };
    assert_eq!(rt; read_query(body), Some(wanted));
    let empty = Query {
        schema: b"",
        text: b"",
    };
    assert_eq!(rt; read_query(&[0; 14]), Some(empty));
    assert_eq!(rt; read_query(&[0; 13]), None);
    assert_eq!(rt; read_query(b"threadti\x04\0\0\x02\0stvt_cx"), None);
    assert_eq!(rt; read_query(b"threadti\xff\0\0\xff\xffstvt_c\0"), None);
}

#[test]
fn packed_numbers_are_read(rt: HostRuntime) {
    assert_eq!(rt; read_packed(b""), None);
    assert_eq!(rt; read_packed(&[0, 7]), Some((0, 1)));
    assert_eq!(rt; read_packed(&[250]), Some((250, 1)));
    assert_eq!(rt; read_packed(&[251]), None);
    assert_eq!(rt; read_packed(&[252, 251, 0]), Some((251, 3)));
    assert_eq!(rt; read_packed(&[253, 0, 0, 1]), Some((65_536, 4)));
    assert_eq!(rt; read_packed(&[254; 9]), Some((0xfefe_fefe_fefe_fefe, 9)));
    assert_eq!(rt; read_packed(&[254; 8]), None);
    assert_eq!(rt; read_packed(&[255; 9]), None);
}

/// Texts, and their first words.
static WORDS: [(&[u8], &[u8]); 7] = [
    (b"drop table t", b"drop"),
    (b" \t\r\n/* a */ /**/Alter", b"Alter"),
    (b"/*!40000 drop */", b""),
    (b"/* drop", b""),
    (b"/*/ drop", b""),
    (b"x_1;", b"x_1"),
    (b"", b""),
];

#[test]
fn first_words_are_found(rt: HostRuntime) {
    for &(text, word) in &WORDS {
        assert_eq!(rt; first_word(text), word);
    }
    assert!(rt; is_same_word(b"aLTer", b"ALTER"));
    assert!(rt; !is_same_word(b"alters", b"ALTER"));
}

#[test]
fn laws_are_called() {
    law_first_word();
}
