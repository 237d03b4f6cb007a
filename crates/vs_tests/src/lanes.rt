//! A lane reads a shard's log from its feed.

use crate::logs::{
    BAD_LENGTH, CUT_ROWS, EMPTY_TRANSACTION, FAR, FIRST_ALONE, FIRST_FRAME, FOREIGN, LOG, ONE_ROW,
    OWN, PURGED, SECOND_FRAME, TABLE, UNREAD, UPDATED, WITHOUT_ENTRIES,
};
use std::alloc::{AllocError, Global};
use std::process::Abort;
use vs_base::{List, RuleText, ShardName, Text};
use vs_filter::{Bound, Filter};
use vs_gtid::GtidSet;
use vs_lane::Lane;
use vs_outside::{FeedAnswer, MemFeed, MemTablets};
use vs_pool::Pool;
use vs_proto::{ShardGtid, VGtid};
use vs_render::{EndCause, Piece, Room, put_frame_with};
use vs_request::StartAt;
use vs_schema::Schema;

/// What a piece says: the number of its GTID and its time, or how the lane ends.
#[derive(Debug, Clone, Copy, PartialEq, Eq)]
enum Told {
    Tx(u64, u32),
    /// a journal of other shards
    Foreign(u64, u32, i64),
    /// the shard's own journal
    Own(i64),
    AtEnd,
    FeedFault,
    BadLog(u64),
    Purged(u64),
    Other,
}

/// A log, how its feed gives it, where the lane starts, and what its pieces say; those that are idle
/// are counted.
#[derive(Clone, Copy)]
struct Case<'a> {
    what: &'a str,
    log: &'a [&'a [u8]],
    schema: &'a [u8],
    /// a rule of the table t, where there is one
    rule: Option<&'a [u8]>,
    /// the GTIDs behind which it starts; without them it starts at the end
    start: Option<&'a [u8]>,
    feed: &'a [FeedAnswer],
    told: &'a [Told],
    idle: usize,
}

const CASE: Case<'static> = Case {
    what: "",
    log: LOG,
    schema: b"",
    rule: None,
    start: Some(b""),
    feed: &[],
    told: &[],
    idle: 0,
};

static WHOLE: [Case<'static>; 8] = [
    Case {
        what: "a log without an entry",
        log: WITHOUT_ENTRIES,
        told: &[Told::AtEnd],
        ..CASE
    },
    Case {
        what: "a log without a byte",
        log: &[],
        told: &[Told::AtEnd],
        ..CASE
    },
    Case {
        what: "all of a log",
        told: &[Told::Tx(1, 100), Told::Tx(2, 101), Told::AtEnd],
        ..CASE
    },
    Case {
        what: "behind the first transaction",
        start: Some(b"00000000-0000-0000-0000-000000000001:1"),
        told: &[Told::Tx(2, 101), Told::AtEnd],
        ..CASE
    },
    Case {
        what: "behind more than there are",
        start: Some(b"00000000-0000-0000-0000-000000000001:1-10"),
        told: &[Told::AtEnd],
        ..CASE
    },
    Case {
        what: "from the end",
        start: None,
        told: &[Told::AtEnd],
        ..CASE
    },
    Case {
        what: "a log whose base is missing",
        log: PURGED,
        start: Some(b"00000000-0000-0000-0000-000000000001:1-4"),
        told: &[Told::Purged(5)],
        ..CASE
    },
    Case {
        what: "a head that is too short",
        log: BAD_LENGTH,
        told: &[Told::Tx(1, 100), Told::BadLog(205)],
        ..CASE
    },
];

static FED: [Case<'static>; 5] = [
    Case {
        what: "a feed that waits at the front",
        log: FIRST_ALONE,
        feed: &[FeedAnswer::Wait, FeedAnswer::Give(1), FeedAnswer::Wait],
        told: &[Told::Tx(1, 100), Told::AtEnd],
        idle: 2,
        ..CASE
    },
    Case {
        what: "a feed that fails at its first read",
        feed: &[FeedAnswer::Fail],
        told: &[Told::FeedFault],
        ..CASE
    },
    Case {
        what: "a feed that fails before an entry is whole",
        feed: &[FeedAnswer::Give(100), FeedAnswer::Fail],
        told: &[Told::FeedFault],
        ..CASE
    },
    Case {
        what: "a feed that fails before the next is whole",
        feed: &[FeedAnswer::Give(180), FeedAnswer::Fail],
        told: &[Told::FeedFault],
        ..CASE
    },
    Case {
        what: "from the end, where the feed waits before its base is known",
        start: None,
        feed: &[FeedAnswer::Give(50), FeedAnswer::Wait],
        told: &[Told::AtEnd],
        ..CASE
    },
];

static PICKED: [Case<'static>; 3] = [
    Case {
        what: "a table that is left out",
        log: ONE_ROW,
        schema: TABLE,
        rule: Some(b"exclude"),
        told: &[Told::Tx(1, 100), Told::AtEnd],
        ..CASE
    },
    Case {
        what: "a row that leaves the select",
        log: UPDATED,
        schema: TABLE,
        rule: Some(b"select id, v from t where id < 10"),
        told: &[Told::Tx(1, 100), Told::AtEnd],
        ..CASE
    },
    Case {
        what: "a log that is cut in a transaction",
        log: CUT_ROWS,
        schema: TABLE,
        rule: Some(b""),
        told: &[Told::Tx(1, 100), Told::AtEnd],
        ..CASE
    },
];

static JOURNALS: [Case<'static>; 3] = [
    Case {
        what: "the shard's own journal, behind which nothing is given",
        log: OWN,
        told: &[Told::Tx(1, 100), Told::Own(7)],
        ..CASE
    },
    Case {
        what: "a journal of another shard",
        log: FOREIGN,
        told: &[Told::Foreign(1, 100, 7), Told::AtEnd],
        ..CASE
    },
    Case {
        what: "a journal whose text ends too early",
        log: UNREAD,
        told: &[Told::BadLog(259)],
        ..CASE
    },
];

fn name_of(alloc: Global) -> Result<ShardName, AllocError> {
    let keyspace = Text::from_bytes(alloc, b"c")?;
    ShardName::new(keyspace, Text::from_bytes(alloc, b"0")?).ok_or(AllocError)
}

fn log_of(alloc: Global, events: &[&[u8]]) -> Result<Vec<u8>, AllocError> {
    let mut log = Vec::new(alloc);
    for event in events {
        log.extend_from_slice(event)?;
    }
    Ok(log)
}

fn room_of(alloc: Global) -> Result<Room, AllocError> {
    let mut pool = Pool::new(alloc, 1, 64)?;
    let buf = pool.take().ok_or(AllocError)?;
    Ok(Room {
        buf,
        rest: Vec::new(alloc),
    })
}

/// The filter of the rule, bound to the schema.
fn bound_of(alloc: Global, schema: &Schema, rule: Option<&[u8]>) -> Result<Bound, AllocError> {
    let Some(filter) = rule else {
        return Ok(Bound {
            tables: List::new(alloc),
        });
    };
    let mut tablets = MemTablets::new(alloc)?;
    let mut rules = Vec::new(alloc);
    rules.push(RuleText {
        pattern: Text::from_bytes(alloc, b"t")?,
        filter: Text::from_bytes(alloc, filter)?,
    })?;
    let Ok(filter) = Filter::build(alloc, rules.as_slice(), &mut tablets) else {
        return Err(AllocError);
    };
    filter.bind(alloc, schema).map_err(|_| AllocError)
}

/// The lane of the case, whose log's end is its end.
fn lane_of(alloc: Global, case: &Case<'_>) -> Result<Lane<MemFeed>, AllocError> {
    let Ok(schema) = Schema::read(alloc, case.schema) else {
        return Err(AllocError);
    };
    let bound = bound_of(alloc, &schema, case.rule)?;
    let script = Vec::from_slice(alloc, case.feed)?;
    let feed = MemFeed::new(name_of(alloc)?, log_of(alloc, case.log)?, script);
    let from = match case.start {
        Some(text) => StartAt::At(GtidSet::parse(alloc, text).map_err(|_| AllocError)?),
        None => StartAt::Current,
    };
    let name = name_of(alloc)?;
    Lane::start(alloc, &name, feed, &schema, bound, from, true).map_err(|_| AllocError)
}

/// Finds where a lane starts that begins at the end; the feed waits at most once.
fn found(alloc: Global, lane: &mut Lane<MemFeed>) -> Result<(), AllocError> {
    for _ in 0..2 {
        if lane.is_seeking() && !lane.has_ended() {
            lane.find_end(alloc).map_err(|_| AllocError)?;
        }
    }
    Ok(())
}

/// What the piece says, and its room; none where it is idle.
fn told_of(piece: Piece) -> (Option<Told>, Option<Room>) {
    match piece {
        Piece::Tx { gtid, time, body } => (Some(Told::Tx(gtid.number, time)), Some(body.room())),
        Piece::Foreign {
            gtid,
            time,
            journal,
            body,
        } => {
            let told = Told::Foreign(gtid.number, time, journal.id);
            (Some(told), Some(body.room()))
        }
        Piece::Idle { room } => (None, Some(room)),
        Piece::End { cause, room } => {
            let told = match cause {
                EndCause::AtEnd => Told::AtEnd,
                EndCause::OwnJournal { journal } => Told::Own(journal.id),
                EndCause::FeedFault => Told::FeedFault,
                EndCause::BadLog { offset, .. } => Told::BadLog(offset),
                EndCause::Purged { missing } => Told::Purged(missing.number),
                _ => Told::Other,
            };
            (Some(told), Some(room))
        }
        _ => (Some(Told::Other), None),
    }
}

/// What the pieces of the lane say, up to its end, and how many were idle.
fn pieces_of(alloc: Global, lane: &mut Lane<MemFeed>) -> Result<(Vec<Told>, usize), AllocError> {
    let mut told = Vec::new(alloc);
    let mut idle = 0usize;
    let mut room = room_of(alloc)?;
    for _ in 0..1000 {
        if lane.has_ended() || lane.is_seeking() {
            break;
        }
        let (said, back) = told_of(lane.step(alloc, room));
        room = back.ok_or(AllocError)?;
        match said {
            Some(said) => told.push(said)?,
            None => idle = idle.wrapping_add(1),
        }
    }
    Ok((told, idle))
}

fn check(rt: &impl Abort, alloc: Global, case: &Case<'_>) -> Result<(), AllocError> {
    let mut lane = lane_of(alloc, case)?;
    found(alloc, &mut lane)?;
    let (told, idle) = pieces_of(alloc, &mut lane)?;
    assert_eq!(rt; told.as_slice(), case.told, "{}", case.what);
    assert_eq!(rt; idle, case.idle, "{}", case.what);
    assert!(rt; lane.held() < 67_174_400);
    let _feed = lane.finish();
    Ok(())
}

#[test]
fn a_lane_gives_what_is_due(rt: HostRuntime) -> Result<(), AllocError> {
    for case in WHOLE {
        check(&rt, rt.alloc(), &case)?;
    }
    Ok(())
}

#[test]
fn a_lane_reads_as_its_feed_gives(rt: HostRuntime) -> Result<(), AllocError> {
    for case in FED {
        check(&rt, rt.alloc(), &case)?;
    }
    Ok(())
}

#[test]
fn a_lane_picks_by_its_filter(rt: HostRuntime) -> Result<(), AllocError> {
    for case in PICKED {
        check(&rt, rt.alloc(), &case)?;
    }
    Ok(())
}

#[test]
fn a_lane_ends_at_its_own_journal(rt: HostRuntime) -> Result<(), AllocError> {
    for case in JOURNALS {
        check(&rt, rt.alloc(), &case)?;
    }
    Ok(())
}

/// A feed that waits before each byte: a lane is idle as often, and gives the same.
#[test]
fn a_lane_waits_at_each_byte(rt: HostRuntime) -> Result<(), AllocError> {
    let alloc = rt.alloc();
    let mut feed = Vec::new(alloc);
    for _ in 0..400 {
        feed.push(FeedAnswer::Wait)?;
        feed.push(FeedAnswer::Give(1))?;
    }
    let length = log_of(alloc, LOG)?.len();
    let case = Case {
        what: "a feed that waits at each byte",
        feed: feed.as_slice(),
        told: &[Told::Tx(1, 100), Told::Tx(2, 101), Told::AtEnd],
        idle: length.wrapping_add(1),
        ..CASE
    };
    check(&rt, alloc, &case)
}

/// A start of 1,024 intervals is no hindrance to a lane.
#[test]
fn a_lane_knows_no_limit(rt: HostRuntime) -> Result<(), AllocError> {
    let alloc = rt.alloc();
    let mut text = Vec::new(alloc);
    text.extend_from_slice(b"00000000-0000-0000-0000-000000000001")?;
    for n in 0..1024u32 {
        let part = format!(in alloc; ":{}", n.wrapping_mul(2).wrapping_add(1))?;
        text.extend_from_slice(part.as_bytes())?;
    }
    let case = Case {
        what: "a start of 1,024 intervals",
        log: FAR,
        start: Some(text.as_slice()),
        told: &[Told::Tx(5000, 100), Told::AtEnd],
        ..CASE
    };
    check(&rt, alloc, &case)
}

/// The frame of a piece behind the GTIDs up to this number of the one server.
fn frame_of(alloc: Global, piece: &Piece, position: &[u8]) -> Result<Vec<u8>, AllocError> {
    let mut shards = Vec::new(alloc);
    shards.push(ShardGtid {
        keyspace: Text::from_bytes(alloc, b"c")?,
        shard: Text::from_bytes(alloc, b"0")?,
        gtid: Text::from_bytes(alloc, position)?,
        table_p_ks: List::new(alloc),
    })?;
    let vgtid = VGtid {
        shard_gtids: List::from_vec(shards),
    };
    let mut out = Vec::new(alloc);
    if let Piece::Tx { time, body, .. } = piece {
        let name = name_of(alloc)?;
        put_frame_with(alloc, &mut out, &name, *time, &vgtid, body)?;
    }
    Ok(out)
}

/// The frame of the lane's next piece.
fn next_frame(
    alloc: Global,
    lane: &mut Lane<MemFeed>,
    position: &[u8],
) -> Result<Vec<u8>, AllocError> {
    if lane.has_ended() || lane.is_seeking() {
        return Err(AllocError);
    }
    let piece = lane.step(alloc, room_of(alloc)?);
    frame_of(alloc, &piece, position)
}

#[test]
fn bodies_are_those_of_the_frames(rt: HostRuntime) -> Result<(), AllocError> {
    let alloc = rt.alloc();
    let mut lane = lane_of(alloc, &CASE)?;
    let first = next_frame(
        alloc,
        &mut lane,
        b"MySQL56/00000000-0000-0000-0000-000000000001:1",
    )?;
    assert_eq!(rt; first.as_slice(), FIRST_FRAME);
    let second = next_frame(
        alloc,
        &mut lane,
        b"MySQL56/00000000-0000-0000-0000-000000000001:1-2",
    )?;
    assert_eq!(rt; second.as_slice(), SECOND_FRAME);
    Ok(())
}

#[test]
fn a_picked_body_is_that_of_its_frame(rt: HostRuntime) -> Result<(), AllocError> {
    let alloc = rt.alloc();
    let mut lane = lane_of(alloc, &PICKED[0])?;
    let frame = next_frame(
        alloc,
        &mut lane,
        b"MySQL56/00000000-0000-0000-0000-000000000001:1",
    )?;
    assert_eq!(rt; frame.as_slice(), EMPTY_TRANSACTION);
    Ok(())
}

#[test]
fn laws_are_called() {
    vs_lane::law_leads();
    vs_lane::law_posted();
    vs_lane::law_spelled();
    vs_lane::law_step();
}
