use crate::kind::read_kind;
use vs_base::ColumnKind;

/// Words, and the kind that they are.
struct KindCase {
    words: &'static [u8],
    kind: ColumnKind,
}

static KINDS: [KindCase; 11] = [
    KindCase {
        words: b"tinyint unsigned",
        kind: ColumnKind::TinyInt { unsigned: true },
    },
    KindCase {
        words: b"smallint unsigned",
        kind: ColumnKind::SmallInt { unsigned: true },
    },
    KindCase {
        words: b"mediumint unsigned",
        kind: ColumnKind::MediumInt { unsigned: true },
    },
    KindCase {
        words: b"int unsigned",
        kind: ColumnKind::Int { unsigned: true },
    },
    KindCase {
        words: b"bigint unsigned",
        kind: ColumnKind::BigInt { unsigned: true },
    },
    KindCase {
        words: b"timestamp",
        kind: ColumnKind::Timestamp { precision: 0 },
    },
    KindCase {
        words: b"datetime(6)",
        kind: ColumnKind::DateTime { precision: 6 },
    },
    KindCase {
        words: b"varbinary(65535)",
        kind: ColumnKind::VarBinary { length: 65_535 },
    },
    KindCase {
        words: b"char(255)",
        kind: ColumnKind::Char { length: 255 },
    },
    KindCase {
        words: b"binary(0)",
        kind: ColumnKind::Binary { length: 0 },
    },
    KindCase {
        words: b"decimal(65,30)",
        kind: ColumnKind::Decimal {
            precision: 65,
            scale: 30,
        },
    },
];

#[test]
fn kinds_are_read(rt: HostRuntime) {
    for case in &KINDS {
        assert_eq!(rt; read_kind(case.words), Some(case.kind));
    }
}

static REFUSED: [&[u8]; 13] = [
    b"",
    b"int unsigned ",
    b"date unsigned",
    b"datetime(7)",
    b"varchar",
    b"varchar()",
    b"varchar(020)",
    b"varchar(65536)",
    b"varchar(20)x",
    b"char(256)",
    b"decimal(66,0)",
    b"decimal(2,3)",
    b"decimal(0,0)",
];

#[test]
fn what_is_no_kind_is_refused(rt: HostRuntime) {
    for words in &REFUSED {
        assert_eq!(rt; read_kind(words), None);
    }
}
