//! A shard is streamed, or the reason is told.

use crate::case::{CASE, Case, check};
use crate::logs::{
    BAD_LENGTH, BEFORE_LARGE, BESIDE_OTHERS, CHECKSUMMED, EMPTY_TRANSACTION, FAR, FIRST_ALONE,
    FIRST_FRAME, FOREIGN, FRAMES, NO_ROWS, NOT_ALONE, OWN, PURGED, PURGED_UNFLAGGED, SECOND_FRAME,
    TABLE, TWO_ROWS, UNMAPPED_ROWS, UNREAD, WITHOUT_ENTRIES,
};
use crate::requests::{
    BEHIND_FIRST, BEHIND_FOUR, BEHIND_OTHERS, BEHIND_TEN, FROM_THE_END, UNBOUND, UNKNOWN,
    WIDE_HEAD, WITH_MORE, WITH_RULE,
};
use std::alloc::{AllocError, Global};
use vs_outside::{FeedAnswer, SinkAnswer};

static WHOLE_LOGS: [Case<'static>; 8] = [
    Case {
        what: "a log without an entry",
        log: WITHOUT_ENTRIES,
        ..CASE
    },
    Case {
        what: "a log without a byte",
        log: &[],
        ..CASE
    },
    Case {
        what: "all of a log",
        written: FRAMES,
        ..CASE
    },
    Case {
        what: "a log in pieces",
        feed: &[FeedAnswer::Wait, FeedAnswer::Give(1)],
        written: FRAMES,
        ..CASE
    },
    Case {
        what: "bytes behind the request",
        input: WITH_MORE,
        written: FRAMES,
        ..CASE
    },
    Case {
        what: "a transaction that changes no row",
        log: NO_ROWS,
        written: EMPTY_TRANSACTION,
        ..CASE
    },
    Case {
        what: "statements, whatever the rules",
        input: WITH_RULE,
        written: FRAMES,
        ..CASE
    },
    Case {
        what: "a select on a table that the schema lacks",
        input: UNBOUND,
        written: FRAMES,
        ..CASE
    },
];

#[test]
fn a_whole_log_is_streamed(rt: HostRuntime) -> Result<(), AllocError> {
    check(&rt, rt.alloc(), &WHOLE_LOGS)
}

static POSITIONS: [Case<'static>; 5] = [
    Case {
        what: "behind the first transaction",
        input: BEHIND_FIRST,
        written: SECOND_FRAME,
        ..CASE
    },
    Case {
        what: "behind more than the log has",
        input: BEHIND_TEN,
        ..CASE
    },
    Case {
        what: "behind transactions of another server",
        input: BEHIND_OTHERS,
        log: FIRST_ALONE,
        written: BESIDE_OTHERS,
        ..CASE
    },
    Case {
        what: "purged",
        input: BEHIND_FOUR,
        log: PURGED,
        number: 5,
        line: "purged c/0 00000000-0000-0000-0000-000000000001:5",
        ..CASE
    },
    Case {
        what: "purged, by an event that has to be read",
        input: BEHIND_FOUR,
        log: PURGED_UNFLAGGED,
        number: 5,
        line: "purged c/0 00000000-0000-0000-0000-000000000001:5",
        ..CASE
    },
];

#[test]
fn what_a_position_has_is_not_sent(rt: HostRuntime) -> Result<(), AllocError> {
    check(&rt, rt.alloc(), &POSITIONS)
}

/// The request for c/0 whose position has every second transaction of the first 2,047.
fn wide_request(alloc: Global) -> Result<Vec<u8>, AllocError> {
    let mut request = Vec::from_slice(alloc, WIDE_HEAD)?;
    for i in 0u64..1024 {
        let number = (2 * i + 1).to_string(alloc)?;
        request.extend_from_slice(b":")?;
        request.extend_from_slice(number.as_bytes())?;
    }
    Ok(request)
}

#[test]
fn a_position_ends_at_its_limit(rt: HostRuntime) -> Result<(), AllocError> {
    let alloc = rt.alloc();
    let input = wide_request(alloc)?;
    let case = Case {
        input: &input,
        log: FAR,
        number: 14,
        line: "position too large c/0",
        ..CASE
    };
    check(&rt, alloc, &[case])
}

static FROM_ENDS: [Case<'static>; 3] = [
    Case {
        what: "as the log's end is",
        input: FROM_THE_END,
        ..CASE
    },
    Case {
        what: "as it stood before a transaction",
        input: FROM_THE_END,
        feed: &[FeedAnswer::Give(50), FeedAnswer::Wait],
        ..CASE
    },
    Case {
        what: "as it stood when the feed first waited",
        input: FROM_THE_END,
        feed: &[FeedAnswer::Give(205), FeedAnswer::Wait],
        written: SECOND_FRAME,
        ..CASE
    },
];

#[test]
fn a_shard_is_streamed_from_its_end(rt: HostRuntime) -> Result<(), AllocError> {
    check(&rt, rt.alloc(), &FROM_ENDS)
}

static FAULTS: [Case<'static>; 6] = [
    Case {
        what: "a fault of the log, behind the frames before it",
        log: BAD_LENGTH,
        number: 6,
        line: "bad log c/0 at 205: bad length 18",
        written: FIRST_FRAME,
        ..CASE
    },
    Case {
        what: "the output",
        sink: &[SinkAnswer::Take(5), SinkAnswer::Fail],
        number: 10,
        line: "link fault",
        written: b"\x00\x00\x00\x64\x0a",
        ..CASE
    },
    Case {
        what: "the fetch",
        fetch_fails: true,
        number: 12,
        line: "open fault c/0",
        ..CASE
    },
    Case {
        what: "the input",
        input_fails: true,
        number: 11,
        line: "input fault",
        ..CASE
    },
    Case {
        what: "the feed",
        feed: &[FeedAnswer::Give(9), FeedAnswer::Fail],
        number: 9,
        line: "feed fault c/0",
        ..CASE
    },
    Case {
        what: "a shard that the cluster lacks",
        input: UNKNOWN,
        number: 4,
        line: "unknown shard z/0",
        ..CASE
    },
];

#[test]
fn the_reason_of_an_end_is_told(rt: HostRuntime) -> Result<(), AllocError> {
    check(&rt, rt.alloc(), &FAULTS)
}

static CHANGES: [Case<'static>; 6] = [
    Case {
        what: "a schema text",
        schema: b"column id int",
        number: 16,
        line: "bad schema c/0 line 1",
        ..CASE
    },
    Case {
        what: "the front of a log",
        log: CHECKSUMMED,
        number: 6,
        line: "bad log c/0 at 4: checksummed",
        ..CASE
    },
    Case {
        what: "rows that are not due",
        input: BEHIND_FIRST,
        log: TWO_ROWS,
        schema: TABLE,
        ..CASE
    },
    Case {
        what: "rows before the end",
        input: FROM_THE_END,
        log: TWO_ROWS,
        schema: TABLE,
        ..CASE
    },
    Case {
        what: "rows of a table that no table map tells",
        log: UNMAPPED_ROWS,
        schema: TABLE,
        number: 6,
        line: "bad log c/0 at 241: unknown table id 8",
        ..CASE
    },
    Case {
        what: "such rows before the end",
        input: FROM_THE_END,
        log: UNMAPPED_ROWS,
        schema: TABLE,
        number: 6,
        line: "bad log c/0 at 241: unknown table id 8",
        ..CASE
    },
];

#[test]
fn rows_are_read_under_the_schema_text(rt: HostRuntime) -> Result<(), AllocError> {
    check(&rt, rt.alloc(), &CHANGES)
}

static JOURNALS: [Case<'static>; 5] = [
    Case {
        what: "before the shard's own journal, which isn't sent",
        log: OWN,
        number: 7,
        line: "stopped c/0 at journal 7",
        written: FIRST_FRAME,
        ..CASE
    },
    Case {
        what: "such a journal that is behind the start",
        input: FROM_THE_END,
        log: OWN,
        ..CASE
    },
    Case {
        what: "a journal of another shard, as an empty transaction",
        log: FOREIGN,
        written: EMPTY_TRANSACTION,
        ..CASE
    },
    Case {
        what: "a journal whose text ends too early",
        log: UNREAD,
        number: 6,
        line: "bad log c/0 at 259: bad journal at 3",
        ..CASE
    },
    Case {
        what: "a journal beside a row",
        log: NOT_ALONE,
        schema: TABLE,
        number: 6,
        line: "bad log c/0 at 340: journal not alone",
        ..CASE
    },
];

#[test]
fn a_shard_stops_at_its_own_journal(rt: HostRuntime) -> Result<(), AllocError> {
    check(&rt, rt.alloc(), &JOURNALS)
}

/// A statement of over 8,388,608 bytes behind a small one.
const LARGE: Case<'static> = Case {
    log: BEFORE_LARGE,
    padding: 8_388_608,
    ..CASE
};

static TOO_LARGE: [Case<'static>; 2] = [
    Case {
        what: "too large",
        number: 6,
        line: "bad log c/0 at 205: too large",
        written: FIRST_FRAME,
        ..LARGE
    },
    Case {
        what: "such a one before the end",
        input: FROM_THE_END,
        ..LARGE
    },
];

#[test]
fn a_statement_that_is_too_large_is_told_at_its_place(rt: HostRuntime) -> Result<(), AllocError> {
    check(&rt, rt.alloc(), &TOO_LARGE)
}
