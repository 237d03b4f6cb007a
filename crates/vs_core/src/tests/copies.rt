//! Streams in which shards are copied, and lanes end.
use crate::tests::cases::Content::{AtEnd, BadLog, Chunk, CopyDone, FeedFault, Idle, Tx};
use crate::tests::cases::Start::{At, Fresh};
use crate::tests::cases::Step::{Begins, Takes, Turns};
use crate::tests::cases::{Case, Told};
use crate::tests::journals::{A1, NONE};

const U1: &[u8] = b"MySQL56/00000000-0000-0000-0000-000000000001:1";

const U2: &[u8] = b"MySQL56/00000000-0000-0000-0000-000000000001:1-2";

/// The frame of the statement `drop table t`, which is the first of the log of c/0.
const DROPPED: &[u8] =
    b"\0\0\0\x64\x0a\x46\x08\x0f\x10\x64\x3a\x38\x0a\x36\x0a\x01c\x12\x010\x1a\x2eMySQL56/00000000-0000-0000-0000-000000000001:1\xb2\x01\x01c\xba\x01\x010\x0a\x1a\x08\x05\x10\x64\x22\x0cdrop table t\xb2\x01\x01c\xba\x01\x010";

/// The frame of the end of the copy of c/0, at u:1-2 and second 101.
const COPIED: &[u8] =
    b"\0\0\0X\x0aH\x08\x0f\x10e::\x0a8\x0a\x01c\x12\x010\x1a0MySQL56/00000000-0000-0000-0000-000000000001:1-2\xb2\x01\x01c\xba\x01\x010\x0a\x0c\x08\x14\x10e\xb2\x01\x01c\xba\x01\x010";

/// That of the end of all copies.
const ALL_COPIED: &[u8] = b"\0\0\0\x04\x0a\x02\x08\x14";

/// A stream of c/0 without flags, from the log's beginning up to its end.
const ONE: Case = Case {
    name: "one shard",
    starts: &[(b"0", At(NONE))],
    skew: 0,
    stops: false,
    journals: false,
    until_end: true,
    steps: &[],
    sent: &[],
    ends: &[],
};

/// A shard whose feed fails as often as may be, and once more.
pub const FAILS: Case = Case {
    name: "a feed that fails four times",
    steps: &[
        Begins(b"0"),
        Takes(0, Tx(b'1', 1, 100)),
        Takes(0, FeedFault),
        Turns(Told::Frame, 0),
        Turns(Told::Restart, 0),
        Begins(b"0"),
        Takes(1, FeedFault),
        Turns(Told::Restart, 1),
        Begins(b"0"),
        Takes(2, Tx(b'1', 2, 100)),
        Takes(2, FeedFault),
        Turns(Told::Frame, 2),
        Turns(Told::Restart, 2),
        Turns(Told::Nothing, 0),
        Begins(b"0"),
        Takes(3, FeedFault),
        Turns(Told::Spent, 0),
        Turns(Told::Spent, 0),
    ],
    ends: &[(b"0", U2)],
    ..ONE
};

pub const CASES: &[Case] = &[
    FAILS,
    Case {
        name: "feeds of two shards fail four times together",
        starts: &[(b"0", At(NONE)), (b"1", At(NONE))],
        steps: &[
            Begins(b"0"),
            Begins(b"1"),
            Takes(0, FeedFault),
            Takes(1, FeedFault),
            Turns(Told::Restart, 0),
            Turns(Told::Restart, 1),
            Begins(b"0"),
            Begins(b"1"),
            Takes(2, FeedFault),
            Takes(3, FeedFault),
            Turns(Told::Restart, 2),
            Turns(Told::Restart, 3),
            Begins(b"0"),
            Begins(b"1"),
            Takes(4, AtEnd),
            Takes(5, AtEnd),
            Turns(Told::Ended, 4),
            Turns(Told::Ended, 5),
            Turns(Told::Done, 0),
        ],
        ends: &[(b"0", NONE), (b"1", NONE)],
        ..ONE
    },
    Case {
        name: "the frame of a statement",
        steps: &[
            Begins(b"0"),
            Takes(0, Tx(b'1', 1, 100)),
            Turns(Told::Frame, 0),
        ],
        sent: DROPPED,
        ends: &[(b"0", U1)],
        ..ONE
    },
    Case {
        name: "a lane that waits and one that ends",
        starts: &[(b"0", At(NONE)), (b"1", At(NONE))],
        steps: &[
            Begins(b"0"),
            Takes(0, Idle),
            Turns(Told::Idled, 0),
            Turns(Told::Nothing, 0),
            Takes(0, AtEnd),
            Turns(Told::Ended, 0),
            Turns(Told::Nothing, 0),
            Begins(b"1"),
            Takes(1, AtEnd),
            Turns(Told::Ended, 1),
            Turns(Told::Done, 0),
            Turns(Told::Done, 0),
        ],
        ends: &[(b"0", NONE), (b"1", NONE)],
        ..ONE
    },
    Case {
        name: "a stream without an end",
        until_end: false,
        steps: &[
            Begins(b"0"),
            Takes(0, AtEnd),
            Turns(Told::Ended, 0),
            Turns(Told::Nothing, 0),
        ],
        ends: &[(b"0", NONE)],
        ..ONE
    },
    Case {
        name: "a log at fault behind a statement",
        steps: &[
            Begins(b"0"),
            Takes(0, Tx(b'1', 1, 100)),
            Takes(0, BadLog(205)),
            Turns(Told::Frame, 0),
            Turns(Told::Lane, 0),
            Turns(Told::Lane, 0),
        ],
        ends: &[(b"0", U1)],
        ..ONE
    },
    Case {
        name: "a copy",
        starts: &[(b"0", Fresh)],
        steps: &[
            Begins(b"0"),
            Takes(0, Chunk(U1, b"100")),
            Takes(0, Tx(b'1', 2, 100)),
            Takes(0, Chunk(U2, b"200")),
            Takes(0, Chunk(U2, b"300")),
            Takes(0, CopyDone(U2)),
            Takes(0, AtEnd),
            Turns(Told::Frame, 0),
            Turns(Told::Frame, 0),
            Turns(Told::Frame, 0),
            Turns(Told::Frame, 0),
            Turns(Told::Frame, 0),
            Turns(Told::AllCopied, 0),
            Turns(Told::Ended, 0),
            Turns(Told::Done, 0),
        ],
        ends: &[(b"0", U2)],
        ..ONE
    },
    Case {
        name: "the frame of the end of a copy",
        starts: &[(b"0", Fresh)],
        steps: &[Begins(b"0"), Takes(0, CopyDone(U2)), Turns(Told::Frame, 0)],
        sent: COPIED,
        ends: &[(b"0", U2)],
        ..ONE
    },
    Case {
        name: "the end of two copies, and a shard that streams",
        starts: &[(b"0", Fresh), (b"1", Fresh), (b"-80", At(NONE))],
        steps: &[
            Begins(b"0"),
            Begins(b"1"),
            Begins(b"-80"),
            Takes(1, CopyDone(NONE)),
            Takes(0, CopyDone(U2)),
            Takes(2, Tx(b'a', 1, 100)),
            Turns(Told::Frame, 1),
            Turns(Told::Frame, 0),
            Turns(Told::AllCopied, 0),
            Turns(Told::Frame, 2),
            Takes(0, AtEnd),
            Turns(Told::Ended, 0),
            Turns(Told::Nothing, 0),
        ],
        ends: &[(b"0", U2), (b"1", NONE), (b"-80", A1)],
        ..ONE
    },
    Case {
        name: "the frame of the end of all copies",
        starts: &[(b"0", Fresh)],
        steps: &[
            Begins(b"0"),
            Takes(0, CopyDone(U2)),
            Takes(0, FeedFault),
            Turns(Told::Frame, 0),
            Turns(Told::AllCopied, 0),
        ],
        sent: ALL_COPIED,
        ends: &[(b"0", U2)],
        ..ONE
    },
    Case {
        name: "a copy whose feed fails goes on",
        starts: &[(b"0", Fresh)],
        steps: &[
            Begins(b"0"),
            Takes(0, Chunk(U1, b"100")),
            Takes(0, FeedFault),
            Turns(Told::Frame, 0),
            Turns(Told::Restart, 0),
            Begins(b"0"),
            Takes(1, Tx(b'1', 2, 100)),
            Takes(1, CopyDone(U2)),
            Takes(1, AtEnd),
            Turns(Told::Frame, 1),
            Turns(Told::Frame, 1),
            Turns(Told::AllCopied, 0),
            Turns(Told::Ended, 1),
            Turns(Told::Done, 0),
        ],
        ends: &[(b"0", U2)],
        ..ONE
    },
];
