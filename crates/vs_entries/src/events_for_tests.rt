//! Events of the logs of tests, each as its bytes: a head of 19 bytes, and a body.

pub const MAGIC: &[u8] = b"\xfebin";

/// A format description of version 4 without checksums, with no server version.
pub const FORMAT: &[u8] = b"\0\0\0\0\x0f\0\0\0\0\x51\0\0\0\0\0\0\0\0\0\
    \x04\0\0\0\0\0\0\0\0\0\0\0\0\0\0\0\0\0\0\0\0\0\0\0\0\0\0\0\0\0\0\0\0\0\0\0\0\0\0\0\0\0\0\
    \0\0\0\0\0\0\0\0\0\0\0\0\0\x13\0\0\0\0\0";

/// One of version 5 with heads of 18 bytes and checksums; with such heads alone; with checksums alone.
pub const FORMAT_OF_5: &[u8] = b"\0\0\0\0\x0f\0\0\0\0\x51\0\0\0\0\0\0\0\0\0\
    \x05\0\0\0\0\0\0\0\0\0\0\0\0\0\0\0\0\0\0\0\0\0\0\0\0\0\0\0\0\0\0\0\0\0\0\0\0\0\0\0\0\0\0\
    \0\0\0\0\0\0\0\0\0\0\0\0\0\x12\x01\0\0\0\0";

pub const FORMAT_OF_18: &[u8] = b"\0\0\0\0\x0f\0\0\0\0\x51\0\0\0\0\0\0\0\0\0\
    \x04\0\0\0\0\0\0\0\0\0\0\0\0\0\0\0\0\0\0\0\0\0\0\0\0\0\0\0\0\0\0\0\0\0\0\0\0\0\0\0\0\0\0\
    \0\0\0\0\0\0\0\0\0\0\0\0\0\x12\x01\0\0\0\0";

pub const FORMAT_SUMMED: &[u8] = b"\0\0\0\0\x0f\0\0\0\0\x51\0\0\0\0\0\0\0\0\0\
    \x04\0\0\0\0\0\0\0\0\0\0\0\0\0\0\0\0\0\0\0\0\0\0\0\0\0\0\0\0\0\0\0\0\0\0\0\0\0\0\0\0\0\0\
    \0\0\0\0\0\0\0\0\0\0\0\0\0\x13\x01\0\0\0\0";

pub const SHORT_FORMAT: &[u8] = b"\0\0\0\0\x0f\0\0\0\0\x15\0\0\0\0\0\0\0\0\0\x05\0";

/// A base of no GTID, one of the numbers 1 to 5, the same as servers flag it, and one that is cut.
pub const NO_BASE: &[u8] = b"\0\0\0\0\x23\0\0\0\0\x1b\0\0\0\0\0\0\0\0\0\0\0\0\0\0\0\0\0";

pub const FIRST_FIVE: &[u8] = b"\0\0\0\0\x23\0\0\0\0\x43\0\0\0\0\0\0\0\0\0\
    \x01\0\0\0\0\0\0\0\0\0\0\0\0\0\0\0\0\0\0\0\0\0\0\x01\x01\0\0\0\0\0\0\0\x01\0\0\0\0\0\0\0\
    \x06\0\0\0\0\0\0\0";

pub const FLAGGED_FIVE: &[u8] = b"\0\0\0\0\x23\0\0\0\0\x43\0\0\0\0\0\0\0\x80\0\
    \x01\0\0\0\0\0\0\0\0\0\0\0\0\0\0\0\0\0\0\0\0\0\0\x01\x01\0\0\0\0\0\0\0\x01\0\0\0\0\0\0\0\
    \x06\0\0\0\0\0\0\0";

pub const CUT_BASE: &[u8] = b"\0\0\0\0\x23\0\0\0\0\x1b\0\0\0\0\0\0\0\0\0\x01\0\0\0\0\0\0\0";

/// GTIDs of the UUID `00000000-0000-0000-0000-000000000001`, and one that is cut.
pub const GTID_1: &[u8] = b"\x63\0\0\0\x21\0\0\0\0\x2c\0\0\0\0\0\0\0\0\0\
    \0\0\0\0\0\0\0\0\0\0\0\0\0\0\0\0\x01\x01\0\0\0\0\0\0\0";

pub const GTID_2: &[u8] = b"\x64\0\0\0\x21\0\0\0\0\x2c\0\0\0\0\0\0\0\0\0\
    \0\0\0\0\0\0\0\0\0\0\0\0\0\0\0\0\x01\x02\0\0\0\0\0\0\0";

pub const GTID_5: &[u8] = b"\0\0\0\0\x21\0\0\0\0\x2c\0\0\0\0\0\0\0\0\0\
    \0\0\0\0\0\0\0\0\0\0\0\0\0\0\0\0\x01\x05\0\0\0\0\0\0\0";

pub const GTID_6: &[u8] = b"\0\0\0\0\x21\0\0\0\0\x2c\0\0\0\0\0\0\0\0\0\
    \0\0\0\0\0\0\0\0\0\0\0\0\0\0\0\0\x01\x06\0\0\0\0\0\0\0";

pub const GTID_7: &[u8] = b"\0\0\0\0\x21\0\0\0\0\x2c\0\0\0\0\0\0\0\0\0\
    \0\0\0\0\0\0\0\0\0\0\0\0\0\0\0\0\x01\x07\0\0\0\0\0\0\0";

pub const GTID_5000: &[u8] = b"\0\0\0\0\x21\0\0\0\0\x2c\0\0\0\0\0\0\0\0\0\
    \0\0\0\0\0\0\0\0\0\0\0\0\0\0\0\0\x01\x88\x13\0\0\0\0\0\0";

pub const GTID_7000: &[u8] = b"\0\0\0\0\x21\0\0\0\0\x2c\0\0\0\0\0\0\0\0\0\
    \0\0\0\0\0\0\0\0\0\0\0\0\0\0\0\0\x01X\x1b\0\0\0\0\0\0";

pub const GTID_0: &[u8] = b"\0\0\0\0\x21\0\0\0\0\x2c\0\0\0\0\0\0\0\0\0\
    \0\0\0\0\0\0\0\0\0\0\0\0\0\0\0\0\x01\0\0\0\0\0\0\0\0";

pub const GTID_LAST: &[u8] = b"\0\0\0\0\x21\0\0\0\0\x2c\0\0\0\0\0\0\0\0\0\
    \0\0\0\0\0\0\0\0\0\0\0\0\0\0\0\0\x01\xff\xff\xff\xff\xff\xff\xff\x7f";

pub const CUT_GTID: &[u8] = b"\0\0\0\0\x21\0\0\0\0\x14\0\0\0\0\0\0\0\0\0\0";

/// A GTID event of no GTID, and the same as one that may be passed over.
pub const ANONYMOUS: &[u8] = b"\0\0\0\0\x22\0\0\0\0\x13\0\0\0\0\0\0\0\0\0";

pub const FLAGGED_ANONYMOUS: &[u8] = b"\0\0\0\0\x22\0\0\0\0\x13\0\0\0\0\0\0\0\x80\0";

/// Statements.
pub const DROP_T: &[u8] = b"\x64\0\0\0\x02\0\0\0\0\x31\0\0\0\0\0\0\0\0\0\
    \0\0\0\0\0\0\0\0\x04\0\0\0\0vt_c\0drop table t";

pub const DROP_S: &[u8] = b"\x65\0\0\0\x02\0\0\0\0\x31\0\0\0\0\0\0\0\0\0\
    \0\0\0\0\0\0\0\0\x04\0\0\0\0vt_c\0drop table s";

pub const DROP_OTHERS: &[u8] = b"\0\0\0\0\x02\0\0\0\0\x31\0\0\0\0\0\0\0\0\0\
    \0\0\0\0\0\0\0\0\x04\0\0\0\0vt_d\0drop table t";

pub const BEGIN: &[u8] = b"\x66\0\0\0\x02\0\0\0\0\x2a\0\0\0\0\0\0\0\0\0\
    \0\0\0\0\0\0\0\0\x04\0\0\0\0vt_c\0BEGIN";

pub const COMMIT: &[u8] = b"\x67\0\0\0\x02\0\0\0\0\x2b\0\0\0\0\0\0\0\0\0\
    \0\0\0\0\0\0\0\0\x04\0\0\0\0vt_c\0commit";

pub const SAVEPOINT: &[u8] = b"\0\0\0\0\x02\0\0\0\0\x30\0\0\0\0\0\0\0\0\0\
    \0\0\0\0\0\0\0\0\x04\0\0\0\0vt_c\0savepoint s";

pub const XA: &[u8] = b"\0\0\0\0\x02\0\0\0\0\x31\0\0\0\0\0\0\0\0\0\
    \0\0\0\0\0\0\0\0\x04\0\0\0\0vt_c\0xa start 'x'";

pub const CUT_QUERY: &[u8] = b"\0\0\0\0\x02\0\0\0\0\x13\0\0\0\0\0\0\0\0\0";

/// An XID, one with more bytes behind its number, and one that is cut.
pub const XID: &[u8] = b"\x68\0\0\0\x10\0\0\0\0\x1b\0\0\0\0\0\0\0\0\0\0\0\0\0\0\0\0\0";

pub const LONG_XID: &[u8] = b"\0\0\0\0\x10\0\0\0\0\x1f\0\0\0\0\0\0\0\0\0\0\0\0\0\0\0\0\0more";

pub const CUT_XID: &[u8] = b"\0\0\0\0\x10\0\0\0\0\x1a\0\0\0\0\0\0\0\0\0\0\0\0\0\0\0\0";

/// Events that are passed over by their types, one by its flag, the same without it, and another.
pub const STOP: &[u8] = b"\0\0\0\0\x03\0\0\0\0\x13\0\0\0\0\0\0\0\0\0";

pub const ROTATE: &[u8] = b"\0\0\0\0\x04\0\0\0\0\x13\0\0\0\0\0\0\0\0\0";

pub const IGNORABLE: &[u8] = b"\0\0\0\0\x26\0\0\0\0\x13\0\0\0\0\0\0\0\x80\0";

pub const IGNORABLE_UNFLAGGED: &[u8] = b"\0\0\0\0\x26\0\0\0\0\x13\0\0\0\0\0\0\0\0\0";

pub const LOAD: &[u8] = b"\0\0\0\0\x09\0\0\0\0\x13\0\0\0\0\0\0\0\0\0";

/// Table 7 is `vt_c.t` (id int, v varchar(20)).
pub const MAP: &[u8] = b"\0\0\0\0\x13\0\0\0\0\x2b\0\0\0\0\0\0\0\0\0\
    \x07\0\0\0\0\0\x01\0\x04vt_c\0\x01t\0\x02\x03\x0f\x02\x14\0\x02";

/// Maps of tables 7 that the schema lacks, with another number of columns, that it skips, and one that is cut.
pub const MAP_OF_U: &[u8] = b"\0\0\0\0\x13\0\0\0\0\x28\0\0\0\0\0\0\0\0\0\
    \x07\0\0\0\0\0\x01\0\x04vt_c\0\x01u\0\x01\x03\0\0";

pub const MAP_OF_ONE: &[u8] = b"\0\0\0\0\x13\0\0\0\0\x28\0\0\0\0\0\0\0\0\0\
    \x07\0\0\0\0\0\x01\0\x04vt_c\0\x01t\0\x01\x03\0\0";

pub const MAP_OF_S: &[u8] = b"\0\0\0\0\x13\0\0\0\0\x28\0\0\0\0\0\0\0\0\0\
    \x07\0\0\0\0\0\x01\0\x04vt_c\0\x01s\0\x01\x03\0\0";

pub const CUT_MAP: &[u8] = b"\0\0\0\0\x13\0\0\0\0\x13\0\0\0\0\0\0\0\0\0";

/// Inserts into table 7 of (5, 'a') and (6, NULL), an update of (5, NULL) to (6, NULL), a delete of (5, 'a').
pub const INSERTS: &[u8] = b"\0\0\0\0\x1e\0\0\0\0\x2b\0\0\0\0\0\0\0\0\0\
    \x07\0\0\0\0\0\x01\0\x02\0\x02\x03\0\x05\0\0\0\x01a\x02\x06\0\0\0";

pub const UPDATE: &[u8] = b"\0\0\0\0\x1f\0\0\0\0\x2a\0\0\0\0\0\0\0\0\0\
    \x07\0\0\0\0\0\x01\0\x02\0\x02\x03\x03\x02\x05\0\0\0\x02\x06\0\0\0";

pub const DELETE: &[u8] = b"\0\0\0\0\x20\0\0\0\0\x26\0\0\0\0\0\0\0\0\0\
    \x07\0\0\0\0\0\x01\0\x02\0\x02\x03\0\x05\0\0\0\x01a";

/// Rows against their layout, of table 8, of one column, and rows that end inside a row.
pub const CUT_INSERT: &[u8] = b"\0\0\0\0\x1e\0\0\0\0\x13\0\0\0\0\0\0\0\0\0";

pub const CUT_UPDATE: &[u8] = b"\0\0\0\0\x1f\0\0\0\0\x1f\0\0\0\0\0\0\0\0\0\
    \x07\0\0\0\0\0\x01\0\x02\0\x02\x03";

pub const INSERT_OF_8: &[u8] = b"\0\0\0\0\x1e\0\0\0\0\x1f\0\0\0\0\0\0\0\0\0\
    \x08\0\0\0\0\0\x01\0\x02\0\x02\x03";

pub const INSERT_OF_ONE: &[u8] = b"\0\0\0\0\x1e\0\0\0\0\x1f\0\0\0\0\0\0\0\0\0\
    \x07\0\0\0\0\0\x01\0\x02\0\x02\x01";

pub const CUT_ROW: &[u8] = b"\0\0\0\0\x1e\0\0\0\0\x20\0\0\0\0\0\0\0\0\0\
    \x07\0\0\0\0\0\x01\0\x02\0\x02\x03\0";

pub const CUT_ROW_DELETED: &[u8] = b"\0\0\0\0\x20\0\0\0\0\x20\0\0\0\0\0\0\0\0\0\
    \x07\0\0\0\0\0\x01\0\x02\0\x02\x03\0";

/// Table 9 is `_vt.resharding_journal` (id bigint, db_name varbinary(255), val blob).
pub const JOURNAL: &[u8] = b"\0\0\0\0\x13\0\0\0\0\x3d\0\0\0\0\0\0\0\0\0\
    \t\0\0\0\0\0\x01\0\x03_vt\0\x12resharding_journal\0\x03\x08\x0f\xfc\x03\xff\0\x02\x04";

/// Inserts into table 9 of (7, 'vt_c', '') and (7, 'vt_d', ''), and a delete of the first.
pub const OURS: &[u8] = b"\0\0\0\0\x1e\0\0\0\0\x2f\0\0\0\0\0\0\0\0\0\
    \t\0\0\0\0\0\x01\0\x02\0\x03\x07\0\x07\0\0\0\0\0\0\0\x04vt_c\0\0";

pub const OTHERS: &[u8] = b"\0\0\0\0\x1e\0\0\0\0\x2f\0\0\0\0\0\0\0\0\0\
    \t\0\0\0\0\0\x01\0\x02\0\x03\x07\0\x07\0\0\0\0\0\0\0\x04vt_d\0\0";

pub const OURS_DELETED: &[u8] = b"\0\0\0\0\x20\0\0\0\0\x2f\0\0\0\0\0\0\0\0\0\
    \t\0\0\0\0\0\x01\0\x02\0\x03\x07\0\x07\0\0\0\0\0\0\0\x04vt_c\0\0";

/// Inserts into table 9 for the keyspace c: two rows with no text, a text that is cut, one behind a row with
/// no text, and journal 7, a split of c/-80.
pub const TWO_OURS: &[u8] = b"\0\0\0\0\x1e\0\0\0\0\x3f\0\0\0\0\0\0\0\0\0\
    \t\0\0\0\0\0\x01\0\x02\0\x03\x07\
    \0\x07\0\0\0\0\0\0\0\x04vt_c\0\0\
    \0\x07\0\0\0\0\0\0\0\x04vt_c\0\0";

pub const OURS_CUT: &[u8] = b"\0\0\0\0\x1e\0\0\0\0\x32\0\0\0\0\0\0\0\0\0\
    \t\0\0\0\0\0\x01\0\x02\0\x03\x07\
    \0\x07\0\0\0\0\0\0\0\x04vt_c\x03\0id:";

pub const OURS_CUT_SECOND: &[u8] = b"\0\0\0\0\x1e\0\0\0\0\x42\0\0\0\0\0\0\0\0\0\
    \t\0\0\0\0\0\x01\0\x02\0\x03\x07\
    \0\x07\0\0\0\0\0\0\0\x04vt_c\0\0\
    \0\x07\0\0\0\0\0\0\0\x04vt_c\x03\0id:";

pub const OURS_OF_SPLIT: &[u8] = b"\0\0\0\0\x1e\0\0\0\0\x2d\x01\0\0\0\0\0\0\0\0\
    \t\0\0\0\0\0\x01\0\x02\0\x03\x07\
    \0\x07\0\0\0\0\0\0\0\x04vt_c\xfe\0id:7 migration_type:SHARDS shard_gtids:{keyspace:\"c\" shard:\"-40\" gtid:\"MySQL56/00000000-0000-0000-0000-00000000000b:1\"} shard_gtids:{keyspace:\"c\" shard:\"40-80\" gtid:\"MySQL56/00000000-0000-0000-0000-00000000000d:1\"} participants:{keyspace:\"c\" shard:\"-80\"}";

/// A head with 18 as its length.
pub const SHORT_HEAD: &[u8] = b"\0\0\0\0\x02\0\0\0\0\x12\0\0\0\0\0\0\0\0\0";

/// Heads of a statement and of an event that is passed over, one byte over the limit.
pub const LARGE_QUERY: &[u8] = b"\0\0\0\0\x02\0\0\0\0\x01\0\0\x04\0\0\0\0\0\0";

pub const LARGE_STOP: &[u8] = b"\0\0\0\0\x03\0\0\0\0\x01\0\0\x04\0\0\0\0\0\0";

/// Heads of an event that is passed over and of a statement that fit, and of a statement that doesn't with 44 bytes before it.
pub const LIMIT_STOP: &[u8] = b"\0\0\0\0\x03\0\0\0\0\0\0\0\x04\0\0\0\0\0\0";

pub const LIMIT_QUERY: &[u8] = b"\0\0\0\0\x02\0\0\0\0\xd4\xff\xff\x03\0\0\0\0\0\0";

pub const OVER_QUERY: &[u8] = b"\0\0\0\0\x02\0\0\0\0\xd5\xff\xff\x03\0\0\0\0\0\0";

/// Ten bytes of an event.
pub const TEN_BYTES: &[u8] = b"\0\0\0\0\x1e\0\0\0\0\x2b";
