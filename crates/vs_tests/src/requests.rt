//! Requests, as bytes.

/// A request for c/0 behind no transaction.
pub const REQUEST: &[u8] =
    b"\x00\x00\x00\x14\x0a\x12\x0a\x10\x0a\x01\x63\x12\x01\x30\x1a\x08MySQL56/";

/// It behind the first one.
pub const BEHIND_FIRST: &[u8] =
    b"\x00\x00\x00\x32\x0a\x30\x0a\x2e\x0a\x01\x63\x12\x01\x30\x1a&00000000-0000-0000-0000\
    -000000000001:1";

/// It behind the first ten.
pub const BEHIND_TEN: &[u8] =
    b"\x00\x00\x00\x3d\x0a\x3b\x0a\x39\x0a\x01\x63\x12\x01\x30\x1a1MySQL56/00000000-0000-0\
    000-0000-000000000001:1-10";

/// It behind the first four.
pub const BEHIND_FOUR: &[u8] =
    b"\x00\x00\x00\x3c\x0a\x3a\x0a\x38\x0a\x01\x63\x12\x01\x30\x1a0MySQL56/00000000-0000-0\
    000-0000-000000000001:1-4";

/// It behind transactions of another server, as a person may write them.
pub const BEHIND_OTHERS: &[u8] =
    b"\x00\x00\x00\x60\x0a\x5e\x0a\x5c\x0a\x01\x63\x12\x01\x30\x1aT00000000-0000-0000-0000\
    -00000000000A:3, 00000000-0000-0000-0000-00000000000a:1-2:5:2";

/// It from the log's end.
pub const FROM_THE_END: &[u8] =
    b"\x00\x00\x00\x13\x0a\x11\x0a\x0f\x0a\x01\x63\x12\x01\x30\x1a\x07current";

/// A request for a shard that the cluster lacks.
pub const UNKNOWN: &[u8] =
    b"\x00\x00\x00\x14\x0a\x12\x0a\x10\x0a\x01\x7a\x12\x01\x30\x1a\x08MySQL56/";

/// The request, and bytes behind it.
pub const WITH_MORE: &[u8] =
    b"\x00\x00\x00\x14\x0a\x12\x0a\x10\x0a\x01\x63\x12\x01\x30\x1a\x08MySQL56/and more";

/// A request without a shard.
pub const NO_SHARD: &[u8] = b"\x00\x00\x00\x02\x0a\x00";

/// A frame whose field is cut.
pub const NO_MESSAGE: &[u8] = b"\x00\x00\x00\x02\x0a\x7f";

/// A frame that is cut.
pub const CUT: &[u8] = b"\x00\x00\x00\x05\x0a\x7f\x01";

/// The beginning of a frame over the limit.
pub const TOO_LONG: &[u8] = b"\x01\x00\x00\x01\x0a";

/// A position for all shards of a keyspace.
pub const NEEDS_SHARD: &[u8] =
    b"\x00\x00\x00\x2f\x0a\x2d\x0a\x2b\x0a\x01\x63\x1a&00000000-0000-0000-0000-00000000000\
    1:1";

/// A name that is no name.
pub const DOTS: &[u8] =
    b"\x00\x00\x00\x15\x0a\x13\x0a\x11\x0a\x01\x63\x12\x02\x2e\x2e\x1a\x08MySQL56/";

/// A position with the number 0.
pub const ZERO: &[u8] =
    b"\x00\x00\x00\x32\x0a\x30\x0a\x2e\x0a\x01\x63\x12\x01\x30\x1a&00000000-0000-0000-0000\
    -000000000001:0";

/// All shards of a keyspace.
pub const ALL_SHARDS: &[u8] = b"\x00\x00\x00\x10\x0a\x0e\x0a\x0c\x0a\x01\x63\x1a\x07current";

/// A copy.
pub const COPY: &[u8] = b"\x00\x00\x00\x0a\x0a\x08\x0a\x06\x0a\x01\x63\x12\x01\x30";

/// A request with a rule.
pub const WITH_RULE: &[u8] =
    b"\x00\x00\x00\x1b\x0a\x12\x0a\x10\x0a\x01\x63\x12\x01\x30\x1a\x08MySQL56/\x12\x05\x0a\
    \x03\x0a\x01\x74";

/// A rule whose match is no pattern.
pub const BAD_PATTERN: &[u8] =
    b"\x00\x00\x00\x1d\x0a\x12\x0a\x10\x0a\x01c\x12\x010\x1a\x08MySQL56/\x12\x07\x0a\
    \x05\x0a\x03/(/";

/// It behind a rule without a fault.
pub const SECOND_BAD_PATTERN: &[u8] =
    b"\x00\x00\x00\x22\x0a\x12\x0a\x10\x0a\x01c\x12\x010\x1a\x08MySQL56/\x12\x0c\x0a\
    \x03\x0a\x01t\x0a\x05\x0a\x03/(/";

/// A rule whose select ends too early.
pub const BAD_RULE: &[u8] =
    b"\x00\x00\x00#\x0a\x12\x0a\x10\x0a\x01c\x12\x010\x1a\x08MySQL56/\x12\x0d\x0a\
    \x0b\x0a\x01t\x12\x06select";

/// A select on a pattern.
pub const SELECT_ON_PATTERN: &[u8] =
    b"\x00\x00\x00.\x0a\x12\x0a\x10\x0a\x01c\x12\x010\x1a\x08MySQL56/\x12\x18\x0a\
    \x16\x0a\x03/t/\x12\x0fselect * from t";

/// A rule that selects a column which the table t lacks.
pub const UNBOUND: &[u8] =
    b"\x00\x00\x00,\x0a\x12\x0a\x10\x0a\x01c\x12\x010\x1a\x08MySQL56/\x12\x16\x0a\
    \x14\x0a\x01t\x12\x0fselect x from t";

/// A rule that drops the table t.
pub const EXCLUDE: &[u8] =
    b"\x00\x00\x00$\x0a\x12\x0a\x10\x0a\x01c\x12\x010\x1a\x08MySQL56/\x12\x0e\x0a\
    \x0c\x0a\x01t\x12\x07exclude";

/// A rule that takes the rows of the table t with a small id.
pub const BELOW_TEN: &[u8] =
    b"\x00\x00\x00>\x0a\x12\x0a\x10\x0a\x01c\x12\x010\x1a\x08MySQL56/\x12(\x0a&\x0a\
    \x01t\x12!select id, v from t where id < 10";

/// A rule that takes the table t by a pattern.
pub const BY_PATTERN: &[u8] =
    b"\x00\x00\x00\x1f\x0a\x12\x0a\x10\x0a\x01c\x12\x010\x1a\x08MySQL56/\x12\x09\x0a\
    \x07\x0a\x05/^t$/";

/// A request with a heartbeat.
pub const WITH_BEAT: &[u8] =
    b"\x00\x00\x00\x18\x0a\x12\x0a\x10\x0a\x01\x63\x12\x01\x30\x1a\x08MySQL56/\x1a\x02\x10\
    \x05";

/// The front of a request, as far as the UUID of its position, which has the odd numbers from 1 to
/// 2,047.
pub const WIDE_HEAD: &[u8] =
    b"\x00\x00\x12\x08\x0a\x85\x24\x0a\x82\x24\x0a\x01\x63\x12\x01\x30\x1a\xf9#00000000-00\
    00-0000-0000-000000000001";

/// The front of a request of 64 shards.
pub const MOST_HEAD: &[u8] = b"\x00\x00\x04\xb9\x0a\xb6\x09";

/// The front of a request of 65 shards.
pub const MANY_HEAD: &[u8] = b"\x00\x00\x04\xcc\x0a\xc9\x09";
