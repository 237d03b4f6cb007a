//! A request is refused by name.

use crate::case::{CASE, Case, check, check_words};
use crate::logs::TABLE;
use crate::requests::{
    ALL_SHARDS, BAD_PATTERN, BAD_RULE, COPY, CUT, DOTS, MANY_HEAD, MOST_HEAD, NEEDS_SHARD,
    NO_MESSAGE, NO_SHARD, SECOND_BAD_PATTERN, SELECT_ON_PATTERN, TOO_LONG, UNBOUND, WITH_BEAT,
    ZERO,
};
use std::alloc::{AllocError, Global};
use vs_outside::FeedAnswer;

/// A request that is refused.
const REFUSED: Case<'static> = Case { number: 3, ..CASE };

static FRAMES: [Case<'static>; 5] = [
    Case {
        input: NO_SHARD,
        line: "request: NoShards",
        ..REFUSED
    },
    Case {
        input: NO_MESSAGE,
        line: "request: Message",
        ..REFUSED
    },
    Case {
        input: CUT,
        line: "request: Cut 7",
        ..REFUSED
    },
    Case {
        input: b"",
        line: "request: Cut 0",
        ..REFUSED
    },
    Case {
        input: TOO_LONG,
        line: "request: TooLong 16777217",
        ..REFUSED
    },
];

#[test]
fn a_frame_is_refused(rt: HostRuntime) -> Result<(), AllocError> {
    check(&rt, rt.alloc(), &FRAMES)
}

static ENTRIES: [Case<'static>; 6] = [
    Case {
        input: NEEDS_SHARD,
        line: "request: NeedsShard 0",
        ..REFUSED
    },
    Case {
        input: DOTS,
        line: "request: BadName 0",
        ..REFUSED
    },
    Case {
        input: ZERO,
        line: "request: BadPosition 0 37",
        ..REFUSED
    },
    Case {
        input: ALL_SHARDS,
        line: "request: NotBuilt 0",
        ..REFUSED
    },
    Case {
        input: COPY,
        line: "request: NotBuilt 0",
        ..REFUSED
    },
    Case {
        input: WITH_BEAT,
        line: "request: NotBuilt 0",
        ..REFUSED
    },
];

#[test]
fn an_entry_is_refused(rt: HostRuntime) -> Result<(), AllocError> {
    check(&rt, rt.alloc(), &ENTRIES)
}

static RULES: [Case<'static>; 8] = [
    Case {
        what: "a match that is no pattern",
        input: BAD_PATTERN,
        line: "request: BadPattern 0",
        ..REFUSED
    },
    Case {
        what: "it, before the log is fetched",
        input: BAD_PATTERN,
        fetch_fails: true,
        line: "request: BadPattern 0",
        ..REFUSED
    },
    Case {
        what: "the second match",
        input: SECOND_BAD_PATTERN,
        line: "request: BadPattern 1",
        ..REFUSED
    },
    Case {
        what: "a filter that is no select",
        input: BAD_RULE,
        line: "request: BadRule 0 6",
        ..REFUSED
    },
    Case {
        what: "a select on a pattern",
        input: SELECT_ON_PATTERN,
        line: "request: BadRule 0 0",
        ..REFUSED
    },
    Case {
        what: "a column that the table lacks",
        input: UNBOUND,
        schema: TABLE,
        line: "request: Unbound 0",
        ..REFUSED
    },
    Case {
        what: "it, before the log is read",
        input: UNBOUND,
        schema: TABLE,
        feed: &[FeedAnswer::Fail],
        line: "request: Unbound 0",
        ..REFUSED
    },
    Case {
        what: "a schema text, before the rules are bound to it",
        input: UNBOUND,
        schema: b"column id int",
        number: 16,
        line: "bad schema c/0 line 1",
        ..REFUSED
    },
];

#[test]
fn a_rule_is_refused(rt: HostRuntime) -> Result<(), AllocError> {
    check(&rt, rt.alloc(), &RULES)
}

/// The entry for a shard of the keyspace c whose name is a number below 100.
fn put_entry(alloc: Global, request: &mut Vec<u8>, shard: u64) -> Result<(), AllocError> {
    let name = shard.to_string(alloc)?;
    request.extend_from_slice(if shard < 10 {
        b"\x0a\x10\x0a\x01c\x12\x01"
    } else {
        b"\x0a\x11\x0a\x01c\x12\x02"
    })?;
    request.extend_from_slice(name.as_bytes())?;
    request.extend_from_slice(b"\x1a\x08MySQL56/")
}

/// A request for so many shards, behind its front.
fn request_for(alloc: Global, head: &[u8], shards: u64) -> Result<Vec<u8>, AllocError> {
    let mut request = Vec::from_slice(alloc, head)?;
    for shard in 0..shards {
        put_entry(alloc, &mut request, shard)?;
    }
    Ok(request)
}

#[test]
fn so_many_shards_are_refused(rt: HostRuntime) -> Result<(), AllocError> {
    let alloc = rt.alloc();
    let many = request_for(alloc, MANY_HEAD, 65)?;
    let case = Case {
        input: &many,
        line: "request: TooManyShards 65",
        ..REFUSED
    };
    check(&rt, alloc, &[case])
}

#[test]
fn more_than_one_shard_is_not_built(rt: HostRuntime) -> Result<(), AllocError> {
    let alloc = rt.alloc();
    let most = request_for(alloc, MOST_HEAD, 64)?;
    let case = Case {
        input: &most,
        line: "request: NotBuilt 1",
        ..REFUSED
    };
    check(&rt, alloc, &[case])
}

#[test]
fn no_words_are_refused(rt: HostRuntime) -> Result<(), AllocError> {
    let alloc = rt.alloc();
    let case = Case {
        number: 2,
        line: "usage: vstreamd stream DIR [--until-end] [--capacity N]",
        ..CASE
    };
    check_words(&rt, alloc, &[], &case)
}
