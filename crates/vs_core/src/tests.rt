//! Streams of a core: steps of tables, and what the turns answer.
mod cases;
mod copies;
mod journals;
mod pieces;

use crate::{
    Core, CoreRefusal, Turn, law_bytes, law_copies, law_final, law_next, law_resume, law_runs,
    put_beat,
};
use cases::{Case, Start, Step, Told};
use pieces::{piece, shard_name};
use std::alloc::Global;
use std::process::Abort;
use vs_gather::GatherRefusal;
use vs_gtid::GtidSet;
use vs_render::Piece;
use vs_request::Flags;
use vs_vector::{Place, ShardAt, Vector};

/// The frame of a heartbeat at second 110.
const BEAT: &[u8] = b"\0\0\0\x07\x0a\x05\x08\x0e\xa0\x01\x6e";

fn place(rt: &impl Abort, alloc: Global, start: &Start) -> Place {
    match start {
        Start::Fresh => Place::Fresh,
        Start::At(text) => Place::At(GtidSet::parse(alloc, text).expect(rt, "no position")),
    }
}

/// The first vector of the case.
fn first_vector(rt: &impl Abort, alloc: Global, case: &Case) -> Vector {
    let mut vector = Vector::new(alloc);
    for (shard, start) in case.starts {
        let at = ShardAt {
            start: place(rt, alloc, start),
            last_key: None,
        };
        assert!(rt; vector.push(shard_name(rt, alloc, shard), at).is_ok());
    }
    vector
}

fn core_over(rt: &impl Abort, alloc: Global, case: &Case) -> Core {
    let flags = Flags {
        max_skew: case.skew,
        heartbeat_interval: 0,
        stop_on_reshard: case.stops,
        include_journals: case.journals,
    };
    let vector = first_vector(rt, alloc, case);
    Core::new(alloc, vector, flags, case.until_end).expect(rt, "out of memory")
}

fn begin(rt: &impl Abort, alloc: Global, core: &mut Core, shard: &[u8]) {
    let name = shard_name(rt, alloc, shard);
    assert!(rt; core.may_begin(&name));
    assert!(rt; core.begin(&name).is_ok());
}

fn take(rt: &impl Abort, core: &mut Core, lane: usize, piece: Piece) {
    assert!(rt; core.may_take(lane));
    assert!(rt; core.take(lane, piece).is_ok());
}

/// What a turn told, and the lane, the number of a journal or the count that it names.
fn told(turn: &Turn) -> (Told, u64) {
    match turn {
        Turn::Frame { lane, .. } => (Told::Frame, *lane as u64),
        Turn::Switched { lane, .. } => (Told::Switched, *lane as u64),
        Turn::Halted { id, .. } => (Told::Halted, id.unsigned_abs()),
        Turn::AllCopied => (Told::AllCopied, 0),
        Turn::Arrived { lane, .. } => (Told::Arrived, *lane as u64),
        Turn::Ended { lane, .. } => (Told::Ended, *lane as u64),
        Turn::Idled { lane, .. } => (Told::Idled, *lane as u64),
        Turn::Restart { lane, .. } => (Told::Restart, *lane as u64),
        Turn::Nothing => (Told::Nothing, 0),
        Turn::Done => (Told::Done, 0),
        Turn::Stuck { ids } => match ids.as_slice() {
            [id] => (Told::Stuck, id.unsigned_abs()),
            _ => (Told::Stuck, 0),
        },
    }
}

/// Why a turn wasn't made.
fn refused(why: &CoreRefusal) -> (Told, u64) {
    match why {
        CoreRefusal::Gathering(GatherRefusal::Differs { id, .. }) => (
            Told::Differs,
            id.unsigned_abs(),
        ),
        CoreRefusal::Gathering(GatherRefusal::Clash { id, .. }) => (
            Told::Clashes,
            id.unsigned_abs(),
        ),
        CoreRefusal::Gathering(GatherRefusal::Memory) => (Told::Memory, 0),
        CoreRefusal::Stranger { id, .. } => (Told::Stranger, id.unsigned_abs()),
        CoreRefusal::PositionTooLarge { .. } => (Told::PositionTooLarge, 0),
        CoreRefusal::TooManyShards { n } => (Told::TooManyShards, *n as u64),
        CoreRefusal::Lane { .. } => (Told::Lane, 0),
        CoreRefusal::Spent { .. } => (Told::Spent, 0),
        CoreRefusal::Memory => (Told::Memory, 0),
    }
}

fn turn(alloc: Global, core: &mut Core, out: &mut Vec<u8>) -> (Told, u64) {
    out.clear();
    match core.turn(alloc, out) {
        Ok(turn) => told(&turn),
        Err(why) => refused(&why),
    }
}

fn go(rt: &impl Abort, alloc: Global, core: &mut Core, out: &mut Vec<u8>, step: &Step) {
    match step {
        Step::Begins(shard) => begin(rt, alloc, core, shard),
        Step::Takes(lane, content) => take(rt, core, *lane, piece(rt, alloc, content)),
        Step::Turns(expected, number) => {
            assert_eq!(rt; turn(alloc, core, out), (*expected, *number));
        }
    }
}

fn expect_vector(rt: &impl Abort, alloc: Global, core: &Core, ends: &[(&[u8], &[u8])]) {
    let message = core.vector().message(alloc).expect(rt, "out of memory");
    let shards = message.shard_gtids.as_slice();
    assert_eq!(rt; shards.len(), ends.len());
    for (shard, (name, position)) in shards.iter().zip(ends) {
        assert_eq!(rt; shard.shard.as_bytes(), *name);
        assert_eq!(rt; shard.gtid.as_bytes(), *position);
    }
}

fn expect(rt: &impl Abort, alloc: Global, case: &Case) {
    let mut core = core_over(rt, alloc, case);
    let mut out = Vec::new(alloc);
    for step in case.steps {
        go(rt, alloc, &mut core, &mut out, step);
    }
    assert_eq!(rt; out.as_slice(), case.sent, "{}", case.name);
    expect_vector(rt, alloc, &core, case.ends);
}

#[test]
fn pieces_and_journals_of_lanes(rt: HostRuntime) {
    for case in journals::CASES {
        expect(&rt, rt.alloc(), case);
    }
}

#[test]
fn copies_and_ends_of_lanes(rt: HostRuntime) {
    for case in copies::CASES {
        expect(&rt, rt.alloc(), case);
    }
}

#[test]
fn what_is_held_comes_back(rt: HostRuntime) {
    let alloc = rt.alloc();
    let mut core = core_over(&rt, alloc, &copies::FAILS);
    begin(&rt, alloc, &mut core, b"0");
    take(&rt, &mut core, 0, piece(&rt, alloc, &cases::Content::AtEnd));
    let mut rest = core.close();
    assert!(rt; matches!(rest.next_room(), Some((0, _))));
    assert!(rt; rest.next_room().is_none());
}

#[test]
fn a_heartbeat_is_written(rt: HostRuntime) {
    let mut out = Vec::new(rt.alloc());
    assert!(rt; put_beat(rt.alloc(), &mut out, 110).is_ok());
    assert_eq!(rt; out.as_slice(), BEAT);
}

#[test]
fn laws_are_called() {
    law_runs();
    law_bytes();
    law_next();
    law_resume();
    law_final();
    law_copies();
}
