//! Logs as the events that they are made of, and their frames, as bytes.

/// A binlog's first four bytes, and a format description without checksums.
const FORMAT: &[u8] =
    b"\xfebin\0\0\0\0\x0f\x01\0\0\0Q\0\0\0\0\0\0\0\0\0\x04\0\0\0\0\0\0\0\0\0\0\0\0\0\0\0\0\0\0\
    \0\0\0\0\0\0\0\0\0\0\0\0\0\0\0\0\0\0\0\0\0\0\0\0\0\0\0\0\0\0\0\0\0\0\0\0\0\x13\0\0\0\0\0";

/// The same with checksums.
const FORMAT_WITH_CHECKSUMS: &[u8] =
    b"\xfebin\0\0\0\0\x0f\x01\0\0\0Q\0\0\0\0\0\0\0\0\0\x04\0\0\0\0\0\0\0\0\0\0\0\0\0\0\0\0\0\0\
    \0\0\0\0\0\0\0\0\0\0\0\0\0\0\0\0\0\0\0\0\0\0\0\0\0\0\0\0\0\0\0\0\0\0\0\0\0\x13\x01\0\0\0\
    \0";

/// An empty base.
const EMPTY_BASE: &[u8] = b"\0\0\0\0#\x01\0\0\0\x1b\0\0\0\0\0\0\0\0\0\0\0\0\0\0\0\0\0";

/// A base of the numbers 1 to 5, with the flag that says that servers may pass the event over.
const BASE_OF_FIVE: &[u8] =
    b"\0\0\0\0#\x01\0\0\0C\0\0\0\0\0\0\0\x80\0\x01\0\0\0\0\0\0\0\0\0\0\0\0\0\0\0\0\0\0\0\0\0\0\
    \x01\x01\0\0\0\0\0\0\0\x01\0\0\0\0\0\0\0\x06\0\0\0\0\0\0\0";

/// It without that flag.
const UNFLAGGED_BASE_OF_FIVE: &[u8] =
    b"\0\0\0\0#\x01\0\0\0C\0\0\0\0\0\0\0\0\0\x01\0\0\0\0\0\0\0\0\0\0\0\0\0\0\0\0\0\0\0\0\0\0\
    \x01\x01\0\0\0\0\0\0\0\x01\0\0\0\0\0\0\0\x06\0\0\0\0\0\0\0";

/// The GTID event of the number 1, at the time 100.
const FIRST_GTID: &[u8] =
    b"d\0\0\0!\x01\0\0\0,\0\0\0\0\0\0\0\0\0\0\0\0\0\0\0\0\0\0\0\0\0\0\0\0\0\x01\x01\0\0\0\0\0\
    \0\0";

/// The statement `drop table t` in `vt_c`.
const DROP_T: &[u8] =
    b"d\0\0\0\x02\x01\0\0\0\x31\0\0\0\0\0\0\0\0\0\0\0\0\0\0\0\0\0\x04\0\0\0\0vt_c\0drop table \
    t";

/// The GTID event of the number 2, at the time 101.
const SECOND_GTID: &[u8] =
    b"e\0\0\0!\x01\0\0\0,\0\0\0\0\0\0\0\0\0\0\0\0\0\0\0\0\0\0\0\0\0\0\0\0\0\x01\x02\0\0\0\0\0\
    \0\0";

/// The statement `drop table s`.
const DROP_S: &[u8] =
    b"e\0\0\0\x02\x01\0\0\0\x31\0\0\0\0\0\0\0\0\0\0\0\0\0\0\0\0\0\x04\0\0\0\0vt_c\0drop table \
    s";

/// The front of a statement whose text is `drop table ` and 8,388,608 bytes more.
const LARGE_HEAD: &[u8] =
    b"e\0\0\0\x02\x01\0\0\0\x30\0\x80\0\0\0\0\0\0\0\0\0\0\0\0\0\0\0\x04\0\0\0\0vt_c\0drop table \
    ";

/// The GTID event of the number 5,000, at the time 100.
const FAR_GTID: &[u8] =
    b"d\0\0\0!\x01\0\0\0,\0\0\0\0\0\0\0\0\0\0\0\0\0\0\0\0\0\0\0\0\0\0\0\0\0\x01\x88\x13\0\0\0\
    \0\0\0";

/// The head of an event whose length is 18.
const SHORT_HEAD: &[u8] = b"\0\0\0\0\x02\x01\0\0\0\x12\0\0\0\0\0\0\0\0\0";

/// The statement `BEGIN`.
const BEGIN: &[u8] =
    b"d\0\0\0\x02\x01\0\0\0*\0\0\0\0\0\0\0\0\0\0\0\0\0\0\0\0\0\x04\0\0\0\0vt_c\0BEGIN";

/// The table map of the number 7.
const TABLE_MAP: &[u8] =
    b"d\0\0\0\x13\x01\0\0\0+\0\0\0\0\0\0\0\0\0\x07\0\0\0\0\0\x01\0\x04vt_c\0\x01t\0\x02\x03\
    \x0f\x02\x14\0\x02";

/// An event of rows of the number 7.
const ROWS: &[u8] =
    b"d\0\0\0\x1e\x01\0\0\0+\0\0\0\0\0\0\0\0\0\x07\0\0\0\0\0\x01\0\x02\0\x02\x03\0\x05\0\0\0\
    \x01a\x02\x06\0\0\0";

/// An event of rows of the number 8.
const ROWS_OF_EIGHT: &[u8] =
    b"d\0\0\0\x1e\x01\0\0\0+\0\0\0\0\0\0\0\0\0\x08\0\0\0\0\0\x01\0\x02\0\x02\x03\0\x05\0\0\0\
    \x01a\x02\x06\0\0\0";

/// An event of rows of the number 7 that puts the one row 5 and `a`.
const INSERT: &[u8] =
    b"d\0\0\0\x1e\x01\0\0\0&\0\0\0\0\0\0\0\0\0\x07\0\0\0\0\0\x01\0\x02\0\x02\x03\0\x05\0\0\0\
    \x01a";

/// Its first ten bytes.
const BEGUN_INSERT: &[u8] = b"d\0\0\0\x1e\x01\0\0\0&";

/// An event of rows of the number 7 that turns the row 5 and `a` into 50 and `a`.
const UPDATE: &[u8] =
    b"d\0\0\0\x1f\x01\0\0\0.\0\0\0\0\0\0\0\0\0\x07\0\0\0\0\0\x01\0\x02\0\x02\x03\x03\0\x05\0\
    \0\0\x01a\0\x32\0\0\0\x01a";

/// The event that ends a transaction.
const XID: &[u8] = b"d\0\0\0\x10\x01\0\0\0\x1b\0\0\0\0\0\0\0\0\0\0\0\0\0\0\0\0\0";

/// The table map of the number 9, of the table of journals.
const JOURNAL_MAP: &[u8] =
    b"d\0\0\0\x13\x01\0\0\0=\0\0\0\0\0\0\0\0\0\x09\0\0\0\0\0\x01\0\x03_vt\0\x12resharding_jo\
    urnal\0\x03\x08\x0f\xfc\x03\xff\0\x02\x04";

/// Rows that insert journal 7 of the keyspace c: the shard 0 is replaced.
const OWN_JOURNAL: &[u8] =
    b"d\0\0\0\x1e\x01\0\0\0\xcc\0\0\0\0\0\0\0\0\0\x09\0\0\0\0\0\x01\0\x02\0\x03\x07\0\x07\0\
    \0\0\0\0\0\0\x04vt_c\x9d\0id:7 migration_type:SHARDS shard_gtids:{keyspace:\"c\" shard\
    :\"-80\" gtid:\"MySQL56/00000000-0000-0000-0000-00000000000b:1\"} participants:{keyspa\
    ce:\"c\" shard:\"0\"}";

/// The same of the shard 1.
const FOREIGN_JOURNAL: &[u8] =
    b"d\0\0\0\x1e\x01\0\0\0\xcc\0\0\0\0\0\0\0\0\0\x09\0\0\0\0\0\x01\0\x02\0\x03\x07\0\x07\0\
    \0\0\0\0\0\0\x04vt_c\x9d\0id:7 migration_type:SHARDS shard_gtids:{keyspace:\"c\" shard\
    :\"-80\" gtid:\"MySQL56/00000000-0000-0000-0000-00000000000b:1\"} participants:{keyspa\
    ce:\"c\" shard:\"1\"}";

/// Rows that insert a journal whose text ends too early.
const CUT_JOURNAL: &[u8] =
    b"d\0\0\0\x1e\x01\0\0\x002\0\0\0\0\0\0\0\0\0\x09\0\0\0\0\0\x01\0\x02\0\x03\x07\0\x07\0\0\
    \0\0\0\0\0\x04vt_c\x03\0id:";

/// A log without entries.
pub const WITHOUT_ENTRIES: &[&[u8]] = &[FORMAT, EMPTY_BASE];

/// The statements `drop table t` (time 100) and `drop table s` (time 101) in `vt_c`, of the GTIDs
/// 1 and 2.
pub const LOG: &[&[u8]] = &[FORMAT, EMPTY_BASE, FIRST_GTID, DROP_T, SECOND_GTID, DROP_S];

/// The first statement, and the front of a second one that is too large to be sent.
pub const BEFORE_LARGE: &[&[u8]] = &[
    FORMAT,
    EMPTY_BASE,
    FIRST_GTID,
    DROP_T,
    SECOND_GTID,
    LARGE_HEAD,
];

/// It without its second statement.
pub const FIRST_ALONE: &[&[u8]] = &[FORMAT, EMPTY_BASE, FIRST_GTID, DROP_T];

/// The first statement under the number 5,000.
pub const FAR: &[&[u8]] = &[FORMAT, EMPTY_BASE, FAR_GTID, DROP_T];

/// No entry, and a base of the numbers 1 to 5. Its event has the flag that says that servers may
/// pass it over.
pub const PURGED: &[&[u8]] = &[FORMAT, BASE_OF_FIVE];

/// It without that flag.
pub const PURGED_UNFLAGGED: &[&[u8]] = &[FORMAT, UNFLAGGED_BASE_OF_FIVE];

/// The first statement, and the head of an event whose length is 18.
pub const BAD_LENGTH: &[&[u8]] = &[FORMAT, EMPTY_BASE, FIRST_GTID, DROP_T, SHORT_HEAD];

/// The log where its format says that events have checksums.
pub const CHECKSUMMED: &[&[u8]] = &[
    FORMAT_WITH_CHECKSUMS,
    EMPTY_BASE,
    FIRST_GTID,
    DROP_T,
    SECOND_GTID,
    DROP_S,
];

/// A transaction that changes no row: a GTID event, BEGIN and XID, of the time 100.
pub const NO_ROWS: &[&[u8]] = &[FORMAT, EMPTY_BASE, FIRST_GTID, BEGIN, XID];

/// A transaction that puts two rows into the table t: 5 and `a`, and 6 and NULL.
pub const TWO_ROWS: &[&[u8]] = &[FORMAT, EMPTY_BASE, FIRST_GTID, BEGIN, TABLE_MAP, ROWS, XID];

/// A transaction that puts the row 5 and `a` into the table t.
pub const ONE_ROW: &[&[u8]] = &[
    FORMAT, EMPTY_BASE, FIRST_GTID, BEGIN, TABLE_MAP, INSERT, XID,
];

/// A transaction that turns that row into 50 and `a`.
pub const UPDATED: &[&[u8]] = &[
    FORMAT, EMPTY_BASE, FIRST_GTID, BEGIN, TABLE_MAP, UPDATE, XID,
];

/// The first one, and another that is cut ten bytes into its rows.
pub const CUT_ROWS: &[&[u8]] = &[
    FORMAT,
    EMPTY_BASE,
    FIRST_GTID,
    BEGIN,
    TABLE_MAP,
    INSERT,
    XID,
    SECOND_GTID,
    BEGIN,
    TABLE_MAP,
    BEGUN_INSERT,
];

/// Two rows where the rows are those of a table number that no table map tells.
pub const UNMAPPED_ROWS: &[&[u8]] = &[
    FORMAT,
    EMPTY_BASE,
    FIRST_GTID,
    BEGIN,
    TABLE_MAP,
    ROWS_OF_EIGHT,
    XID,
];

/// The first statement, the shard's own journal, and the second statement.
pub const OWN: &[&[u8]] = &[
    FORMAT,
    EMPTY_BASE,
    FIRST_GTID,
    DROP_T,
    FAR_GTID,
    BEGIN,
    JOURNAL_MAP,
    OWN_JOURNAL,
    XID,
    SECOND_GTID,
    DROP_S,
];

/// A journal of another shard.
pub const FOREIGN: &[&[u8]] = &[
    FORMAT,
    EMPTY_BASE,
    FIRST_GTID,
    BEGIN,
    JOURNAL_MAP,
    FOREIGN_JOURNAL,
    XID,
];

/// A journal that can't be read.
pub const UNREAD: &[&[u8]] = &[
    FORMAT,
    EMPTY_BASE,
    FIRST_GTID,
    BEGIN,
    JOURNAL_MAP,
    CUT_JOURNAL,
    XID,
];

/// A journal beside a row.
pub const NOT_ALONE: &[&[u8]] = &[
    FORMAT,
    EMPTY_BASE,
    FIRST_GTID,
    BEGIN,
    TABLE_MAP,
    INSERT,
    JOURNAL_MAP,
    FOREIGN_JOURNAL,
    XID,
];

/// The schema text of the table t.
pub const TABLE: &[u8] = b"table t\ncolumn id int\ncolumn v varchar(20)\nkey id\n";

/// The frame of the first statement.
pub const FIRST_FRAME: &[u8] =
    b"\0\0\0d\nF\x08\x0f\x10d:8\n6\n\x01c\x12\x010\x1a.MySQL56/00000000-0000-0000-0000-0000000\
    00001:1\xb2\x01\x01c\xba\x01\x010\n\x1a\x08\x05\x10d\x22\x0cdrop table t\xb2\x01\x01c\
    \xba\x01\x010";

/// The frame of the second.
pub const SECOND_FRAME: &[u8] =
    b"\0\0\0f\nH\x08\x0f\x10e::\n8\n\x01c\x12\x010\x1a0MySQL56/00000000-0000-0000-0000-0000000\
    00001:1-2\xb2\x01\x01c\xba\x01\x010\n\x1a\x08\x05\x10e\x22\x0cdrop table s\xb2\x01\x01c\
    \xba\x01\x010";

/// Both frames.
pub const FRAMES: &[u8] =
    b"\0\0\0d\nF\x08\x0f\x10d:8\n6\n\x01c\x12\x010\x1a.MySQL56/00000000-0000-0000-0000-0000000\
    00001:1\xb2\x01\x01c\xba\x01\x010\n\x1a\x08\x05\x10d\x22\x0cdrop table t\xb2\x01\x01c\
    \xba\x01\x010\0\0\0f\nH\x08\x0f\x10e::\n8\n\x01c\x12\x010\x1a0MySQL56/00000000-0000-0000\
    -0000-000000000001:1-2\xb2\x01\x01c\xba\x01\x010\n\x1a\x08\x05\x10e\x22\x0cdrop table s\
    \xb2\x01\x01c\xba\x01\x010";

/// The beginning of a frame.
pub const BEGUN_FRAME: &[u8] =
    b"\0\0\0d\nF\x08\x0f\x10d:8\n6\n\x01c\x12\x010\x1a.MySQL56/00000000-0000-0000-0";

/// The frame of the first statement where the position also has the numbers 1 to 3 and 5 of another
/// server.
pub const BESIDE_OTHERS: &[u8] =
    b"\0\0\0\x8f\nq\x08\x0f\x10d:c\na\n\x01c\x12\x010\x1aYMySQL56/00000000-0000-0000-0000-0000\
    00000001:1,00000000-0000-0000-0000-00000000000a:1-3:5\xb2\x01\x01c\xba\x01\x010\n\x1a\
    \x08\x05\x10d\x22\x0cdrop table t\xb2\x01\x01c\xba\x01\x010";

/// The frame of a transaction that changes no row.
pub const EMPTY_TRANSACTION: &[u8] =
    b"\0\0\0d\n\x0c\x08\x02\x10d\xb2\x01\x01c\xba\x01\x010\nF\x08\x0f\x10d:8\n6\n\x01c\x12\x01\
    0\x1a.MySQL56/00000000-0000-0000-0000-000000000001:1\xb2\x01\x01c\xba\x01\x010\n\x0c\x08\
    \x03\x10d\xb2\x01\x01c\xba\x01\x010";
