//! Streams in which shards split and merge.
use crate::tests::cases::Content::{AtEnd, Foreign, OwnJournal, Tx};
use crate::tests::cases::Start::At;
use crate::tests::cases::Step::{Begins, Takes, Turns};
use crate::tests::cases::{Case, Told};

pub const NONE: &[u8] = b"MySQL56/";

pub const A1: &[u8] = b"MySQL56/00000000-0000-0000-0000-00000000000a:1";

const B1: &[u8] = b"MySQL56/00000000-0000-0000-0000-00000000000b:1";

const B2: &[u8] = b"MySQL56/00000000-0000-0000-0000-00000000000b:1-2";

const D1: &[u8] = b"MySQL56/00000000-0000-0000-0000-00000000000d:1";

const D2: &[u8] = b"MySQL56/00000000-0000-0000-0000-00000000000d:1-2";

const E1: &[u8] = b"MySQL56/00000000-0000-0000-0000-00000000000e:1";

const E3: &[u8] = b"MySQL56/00000000-0000-0000-0000-00000000000e:1-3";

const F2: &[u8] = b"MySQL56/00000000-0000-0000-0000-00000000000f:1-2";

/// c/-80 is split.
const SPLIT: &[u8] =
    b"id:7 migration_type:SHARDS shard_gtids:{keyspace:'c' shard:'40-80' gtid:'00000000-0000-0000-0000-00000000000d:1'} shard_gtids:{keyspace:'c' shard:'-40' gtid:'00000000-0000-0000-0000-00000000000b:1'} participants:{keyspace:'c' shard:'-80'}";

/// The same split, as journal 1.
const FIRST: &[u8] =
    b"id:1 migration_type:SHARDS shard_gtids:{keyspace:'c' shard:'40-80' gtid:'00000000-0000-0000-0000-00000000000d:1'} shard_gtids:{keyspace:'c' shard:'-40' gtid:'00000000-0000-0000-0000-00000000000b:1'} participants:{keyspace:'c' shard:'-80'}";

/// Behind it one of the halves and c/80- are merged.
const SECOND: &[u8] =
    b"id:2 migration_type:SHARDS shard_gtids:{keyspace:'c' shard:'40-' gtid:'00000000-0000-0000-0000-00000000000f:1'} participants:{keyspace:'c' shard:'40-80'} participants:{keyspace:'c' shard:'80-'}";

/// c/-80 and c/80- are merged.
const MERGE: &[u8] =
    b"id:9 migration_type:SHARDS shard_gtids:{keyspace:'c' shard:'0' gtid:'00000000-0000-0000-0000-00000000000f:1'} participants:{keyspace:'c' shard:'-80'} participants:{keyspace:'c' shard:'80-'}";

/// The same merge, with another position of its successor.
const OTHER_MERGE: &[u8] =
    b"id:9 migration_type:SHARDS shard_gtids:{keyspace:'c' shard:'0' gtid:'00000000-0000-0000-0000-00000000000f:1-2'} participants:{keyspace:'c' shard:'-80'} participants:{keyspace:'c' shard:'80-'}";

/// The frame of a halt in the place of the split, behind a:1.
const HALT: &[u8] =
    b"\0\0\0\xe0\x0a\x89\x01\x08\x10B\x84\x01\x08\x07\x10\x01*8\x0a\x01c\x12\x03-40\x1a.MySQL56/00000000-0000-0000-0000-00000000000b:1*:\x0a\x01c\x12\x0540-80\x1a.MySQL56/00000000-0000-0000-0000-00000000000d:12\x08\x0a\x01c\x12\x03-80\x0aR\x08\x0f:N\x0a8\x0a\x01c\x12\x03-80\x1a.MySQL56/00000000-0000-0000-0000-00000000000a:1\x0a\x12\x0a\x01c\x12\x0380-\x1a\x08MySQL56/";

/// That of one in the place of the merge.
const MERGE_HALT: &[u8] =
    b"\0\0\0\x84\x0aT\x08\x10BP\x08\x09\x10\x01*6\x0a\x01c\x12\x010\x1a.MySQL56/00000000-0000-0000-0000-00000000000f:12\x08\x0a\x01c\x12\x03-802\x08\x0a\x01c\x12\x0380-\x0a,\x08\x0f:(\x0a\x12\x0a\x01c\x12\x03-80\x1a\x08MySQL56/\x0a\x12\x0a\x01c\x12\x0380-\x1a\x08MySQL56/";

/// The frame of the split.
const SWITCH: &[u8] =
    b"\0\0\0\x92\x0a\x8f\x01\x08\x0f:\x8a\x01\x0a\x12\x0a\x01c\x12\x0380-\x1a\x08MySQL56/\x0a8\x0a\x01c\x12\x03-40\x1a.MySQL56/00000000-0000-0000-0000-00000000000b:1\x0a:\x0a\x01c\x12\x0540-80\x1a.MySQL56/00000000-0000-0000-0000-00000000000d:1";

/// The same behind an event of its journal.
const TOLD_SWITCH: &[u8] =
    b"\0\0\x01\x1e\x0a\x89\x01\x08\x10B\x84\x01\x08\x07\x10\x01*8\x0a\x01c\x12\x03-40\x1a.MySQL56/00000000-0000-0000-0000-00000000000b:1*:\x0a\x01c\x12\x0540-80\x1a.MySQL56/00000000-0000-0000-0000-00000000000d:12\x08\x0a\x01c\x12\x03-80\x0a\x8f\x01\x08\x0f:\x8a\x01\x0a\x12\x0a\x01c\x12\x0380-\x1a\x08MySQL56/\x0a8\x0a\x01c\x12\x03-40\x1a.MySQL56/00000000-0000-0000-0000-00000000000b:1\x0a:\x0a\x01c\x12\x0540-80\x1a.MySQL56/00000000-0000-0000-0000-00000000000d:1";

/// A stream without flags, from c/-80 and c/80- at the empty set up to the ends of their logs.
const HALVES: Case = Case {
    name: "two shards",
    starts: &[(b"-80", At(NONE)), (b"80-", At(NONE))],
    skew: 0,
    stops: false,
    journals: false,
    until_end: true,
    steps: &[],
    sent: &[],
    ends: &[],
};

/// The same with a third shard, which takes no part in the merge.
const THREE: Case = Case {
    starts: &[(b"-80", At(NONE)), (b"80-", At(NONE)), (b"1", At(NONE))],
    ..HALVES
};

pub const CASES: &[Case] = &[
    Case {
        name: "a split, and a journal of shards that are gone",
        steps: &[
            Begins(b"-80"),
            Begins(b"80-"),
            Takes(0, Tx(b'a', 1, 100)),
            Takes(0, OwnJournal(SPLIT)),
            Turns(Told::Frame, 0),
            Turns(Told::Switched, 0),
            Begins(b"-40"),
            Begins(b"40-80"),
            Takes(1, Foreign(b'e', 1, SPLIT)),
            Takes(3, Tx(b'd', 2, 100)),
            Takes(2, Tx(b'b', 2, 100)),
            Takes(1, AtEnd),
            Takes(2, AtEnd),
            Takes(3, AtEnd),
            Turns(Told::Frame, 1),
            Turns(Told::Frame, 3),
            Turns(Told::Frame, 2),
            Turns(Told::Ended, 1),
            Turns(Told::Ended, 2),
            Turns(Told::Ended, 3),
            Turns(Told::Done, 0),
        ],
        ends: &[(b"80-", E1), (b"-40", B2), (b"40-80", D2)],
        ..HALVES
    },
    Case {
        name: "the frame of a split",
        starts: &[(b"-80", At(A1)), (b"80-", At(NONE))],
        steps: &[
            Begins(b"-80"),
            Takes(0, OwnJournal(SPLIT)),
            Turns(Told::Switched, 0),
        ],
        sent: SWITCH,
        ends: &[(b"80-", NONE), (b"-40", B1), (b"40-80", D1)],
        ..HALVES
    },
    Case {
        name: "the frame of a split that is told",
        starts: &[(b"-80", At(A1)), (b"80-", At(NONE))],
        journals: true,
        steps: &[
            Begins(b"-80"),
            Takes(0, OwnJournal(SPLIT)),
            Turns(Told::Switched, 0),
        ],
        sent: TOLD_SWITCH,
        ends: &[(b"80-", NONE), (b"-40", B1), (b"40-80", D1)],
        ..HALVES
    },
    Case {
        name: "a halt in the place of a split",
        stops: true,
        steps: &[
            Begins(b"-80"),
            Begins(b"80-"),
            Takes(0, Tx(b'a', 1, 100)),
            Takes(0, OwnJournal(SPLIT)),
            Turns(Told::Frame, 0),
            Turns(Told::Halted, 7),
        ],
        sent: HALT,
        ends: &[(b"-80", A1), (b"80-", NONE)],
        ..HALVES
    },
    Case {
        name: "no halt before all have come",
        stops: true,
        steps: &[
            Begins(b"-80"),
            Begins(b"80-"),
            Takes(1, OwnJournal(MERGE)),
            Takes(0, OwnJournal(MERGE)),
            Turns(Told::Arrived, 1),
            Turns(Told::Halted, 9),
        ],
        sent: MERGE_HALT,
        ends: &[(b"-80", NONE), (b"80-", NONE)],
        ..HALVES
    },
    Case {
        name: "a merge, one shard after the other",
        steps: &[
            Begins(b"-80"),
            Begins(b"80-"),
            Begins(b"1"),
            Takes(0, Tx(b'a', 1, 100)),
            Takes(0, OwnJournal(MERGE)),
            Takes(1, Tx(b'b', 1, 100)),
            Takes(1, OwnJournal(MERGE)),
            Takes(2, Tx(b'e', 1, 100)),
            Takes(2, Tx(b'e', 2, 100)),
            Takes(2, Tx(b'e', 3, 100)),
            Takes(2, AtEnd),
            Turns(Told::Frame, 0),
            Turns(Told::Arrived, 0),
            Turns(Told::Frame, 1),
            Turns(Told::Switched, 1),
            Turns(Told::Frame, 2),
            Turns(Told::Frame, 2),
            Turns(Told::Frame, 2),
            Turns(Told::Ended, 2),
            Begins(b"0"),
            Takes(3, Tx(b'f', 2, 100)),
            Takes(3, AtEnd),
            Turns(Told::Frame, 3),
            Turns(Told::Ended, 3),
            Turns(Told::Done, 0),
        ],
        ends: &[(b"1", E3), (b"0", F2)],
        ..THREE
    },
    Case {
        name: "the same, from the last shard to the first",
        steps: &[
            Begins(b"1"),
            Begins(b"80-"),
            Begins(b"-80"),
            Takes(0, Tx(b'e', 1, 100)),
            Takes(0, Tx(b'e', 2, 100)),
            Takes(0, Tx(b'e', 3, 100)),
            Takes(0, AtEnd),
            Takes(1, Tx(b'b', 1, 100)),
            Takes(1, OwnJournal(MERGE)),
            Takes(2, Tx(b'a', 1, 100)),
            Takes(2, OwnJournal(MERGE)),
            Turns(Told::Frame, 0),
            Turns(Told::Frame, 0),
            Turns(Told::Frame, 0),
            Turns(Told::Ended, 0),
            Turns(Told::Frame, 1),
            Turns(Told::Arrived, 1),
            Turns(Told::Frame, 2),
            Turns(Told::Switched, 2),
            Begins(b"0"),
            Takes(3, Tx(b'f', 2, 100)),
            Takes(3, AtEnd),
            Turns(Told::Frame, 3),
            Turns(Told::Ended, 3),
            Turns(Told::Done, 0),
        ],
        ends: &[(b"1", E3), (b"0", F2)],
        ..THREE
    },
    Case {
        name: "the same, in turns",
        steps: &[
            Begins(b"-80"),
            Begins(b"80-"),
            Begins(b"1"),
            Takes(0, Tx(b'a', 1, 100)),
            Takes(1, Tx(b'b', 1, 100)),
            Takes(2, Tx(b'e', 1, 100)),
            Takes(0, OwnJournal(MERGE)),
            Takes(1, OwnJournal(MERGE)),
            Takes(2, Tx(b'e', 2, 100)),
            Turns(Told::Frame, 0),
            Turns(Told::Frame, 1),
            Turns(Told::Frame, 2),
            Turns(Told::Arrived, 0),
            Turns(Told::Switched, 1),
            Turns(Told::Frame, 2),
            Begins(b"0"),
            Takes(3, Tx(b'f', 2, 100)),
            Turns(Told::Frame, 3),
            Takes(2, Tx(b'e', 3, 100)),
            Takes(3, AtEnd),
            Turns(Told::Frame, 2),
            Turns(Told::Ended, 3),
            Takes(2, AtEnd),
            Turns(Told::Ended, 2),
            Turns(Told::Done, 0),
        ],
        ends: &[(b"1", E3), (b"0", F2)],
        ..THREE
    },
    Case {
        name: "a merge of which one log has another content",
        steps: &[
            Begins(b"-80"),
            Begins(b"80-"),
            Takes(0, OwnJournal(MERGE)),
            Takes(1, Tx(b'b', 1, 100)),
            Takes(1, OwnJournal(OTHER_MERGE)),
            Turns(Told::Arrived, 0),
            Turns(Told::Frame, 1),
            Turns(Told::Differs, 9),
            Turns(Told::Differs, 9),
        ],
        ends: &[(b"-80", NONE), (b"80-", B1)],
        ..HALVES
    },
    Case {
        name: "a merge of which one log has no journal",
        steps: &[
            Begins(b"-80"),
            Begins(b"80-"),
            Takes(0, Tx(b'a', 1, 100)),
            Takes(0, OwnJournal(MERGE)),
            Takes(1, Tx(b'b', 1, 100)),
            Takes(1, AtEnd),
            Turns(Told::Frame, 0),
            Turns(Told::Arrived, 0),
            Turns(Told::Frame, 1),
            Turns(Told::Ended, 1),
            Turns(Told::Stuck, 9),
        ],
        ends: &[(b"-80", A1), (b"80-", B1)],
        ..HALVES
    },
    Case {
        name: "a merge of which one shard isn't in the vector",
        starts: &[(b"-80", At(NONE))],
        steps: &[
            Begins(b"-80"),
            Takes(0, Tx(b'a', 1, 100)),
            Takes(0, OwnJournal(MERGE)),
            Turns(Told::Frame, 0),
            Turns(Told::Arrived, 0),
            Turns(Told::Stuck, 9),
        ],
        ends: &[(b"-80", A1)],
        ..HALVES
    },
    Case {
        name: "a split of which one half is there",
        starts: &[(b"-80", At(NONE)), (b"80-", At(NONE)), (b"-40", At(B1))],
        steps: &[
            Begins(b"-80"),
            Takes(0, OwnJournal(SPLIT)),
            Turns(Told::Clashes, 7),
            Turns(Told::Clashes, 7),
        ],
        ends: &[(b"-80", NONE), (b"80-", NONE), (b"-40", B1)],
        ..HALVES
    },
    Case {
        name: "a split that stands in another log",
        steps: &[
            Begins(b"-80"),
            Begins(b"80-"),
            Takes(1, Foreign(b'e', 1, SPLIT)),
            Takes(0, OwnJournal(SPLIT)),
            Turns(Told::Stranger, 7),
            Turns(Told::Stranger, 7),
        ],
        ends: &[(b"-80", NONE), (b"80-", NONE)],
        ..HALVES
    },
    Case {
        name: "a merge that waits for a split",
        steps: &[
            Begins(b"-80"),
            Begins(b"80-"),
            Takes(1, OwnJournal(SECOND)),
            Takes(0, Tx(b'a', 1, 100)),
            Takes(0, OwnJournal(FIRST)),
            Turns(Told::Arrived, 1),
            Turns(Told::Frame, 0),
            Turns(Told::Switched, 0),
            Begins(b"-40"),
            Begins(b"40-80"),
            Takes(3, Tx(b'd', 2, 100)),
            Takes(3, OwnJournal(SECOND)),
            Takes(2, Tx(b'b', 2, 100)),
            Takes(2, AtEnd),
            Turns(Told::Frame, 3),
            Turns(Told::Switched, 3),
            Turns(Told::Frame, 2),
            Begins(b"40-"),
            Takes(4, Tx(b'f', 2, 100)),
            Takes(4, AtEnd),
            Turns(Told::Ended, 2),
            Turns(Told::Frame, 4),
            Turns(Told::Ended, 4),
            Turns(Told::Done, 0),
        ],
        ends: &[(b"-40", B2), (b"40-", F2)],
        ..HALVES
    },
    Case {
        name: "a merge that comes behind a split",
        steps: &[
            Begins(b"-80"),
            Begins(b"80-"),
            Takes(0, Tx(b'a', 1, 100)),
            Takes(0, OwnJournal(FIRST)),
            Turns(Told::Frame, 0),
            Turns(Told::Switched, 0),
            Begins(b"40-80"),
            Begins(b"-40"),
            Takes(2, Tx(b'd', 2, 100)),
            Takes(2, OwnJournal(SECOND)),
            Takes(3, Tx(b'b', 2, 100)),
            Takes(3, AtEnd),
            Takes(1, OwnJournal(SECOND)),
            Turns(Told::Frame, 2),
            Turns(Told::Arrived, 2),
            Turns(Told::Frame, 3),
            Turns(Told::Ended, 3),
            Turns(Told::Switched, 1),
            Begins(b"40-"),
            Takes(4, Tx(b'f', 2, 100)),
            Takes(4, AtEnd),
            Turns(Told::Frame, 4),
            Turns(Told::Ended, 4),
            Turns(Told::Done, 0),
        ],
        ends: &[(b"-40", B2), (b"40-", F2)],
        ..HALVES
    },
    Case {
        name: "a merge that waits for a split that doesn't come",
        steps: &[
            Begins(b"-80"),
            Begins(b"80-"),
            Takes(0, Tx(b'a', 1, 100)),
            Takes(0, AtEnd),
            Takes(1, OwnJournal(SECOND)),
            Turns(Told::Frame, 0),
            Turns(Told::Ended, 0),
            Turns(Told::Arrived, 1),
            Turns(Told::Stuck, 2),
        ],
        ends: &[(b"-80", A1), (b"80-", NONE)],
        ..HALVES
    },
    Case {
        name: "the oldest head under a skew",
        skew: 5,
        steps: &[
            Begins(b"-80"),
            Begins(b"80-"),
            Begins(b"1"),
            Takes(0, Tx(b'a', 1, 100)),
            Takes(1, Tx(b'b', 1, 105)),
            Takes(2, Tx(b'e', 1, 90)),
            Turns(Told::Frame, 2),
            Turns(Told::Frame, 0),
            Turns(Told::Frame, 1),
            Turns(Told::Nothing, 0),
        ],
        ends: &[(b"-80", A1), (b"80-", B1), (b"1", E1)],
        ..THREE
    },
    Case {
        name: "the first head without a skew",
        steps: &[
            Begins(b"-80"),
            Begins(b"80-"),
            Begins(b"1"),
            Takes(0, Tx(b'a', 1, 100)),
            Takes(1, Tx(b'b', 1, 105)),
            Takes(2, Tx(b'e', 1, 90)),
            Turns(Told::Frame, 0),
            Turns(Told::Frame, 1),
            Turns(Told::Frame, 2),
            Turns(Told::Nothing, 0),
        ],
        ends: &[(b"-80", A1), (b"80-", B1), (b"1", E1)],
        ..THREE
    },
    Case {
        name: "the first lane among heads of one time",
        skew: 5,
        steps: &[
            Begins(b"-80"),
            Begins(b"80-"),
            Takes(1, Tx(b'b', 1, 100)),
            Takes(0, Tx(b'a', 1, 100)),
            Turns(Told::Frame, 0),
            Turns(Told::Frame, 1),
            Turns(Told::Nothing, 0),
        ],
        ends: &[(b"-80", A1), (b"80-", B1)],
        ..HALVES
    },
];
