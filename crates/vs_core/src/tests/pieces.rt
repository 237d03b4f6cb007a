//! Pieces of lanes.
use crate::tests::cases::Content;
use std::alloc::Global;
use std::process::Abort;
use vs_base::{Cell, Gtid, Image, LastKey, List, ShardName, Text, Why};
use vs_filter::Bound;
use vs_gtid::{Entry, GtidSet, JournalValue, Work};
use vs_journal::read_text;
use vs_pool::Pool;
use vs_render::{Body, EndCause, Piece, Room, render};

fn text(rt: &impl Abort, alloc: Global, bytes: &[u8]) -> Text {
    Text::from_bytes(alloc, bytes).expect(rt, "out of memory")
}

/// The shard of the keyspace c.
pub fn shard_name(rt: &impl Abort, alloc: Global, shard: &[u8]) -> ShardName {
    let keyspace = text(rt, alloc, b"c");
    ShardName::new(keyspace, text(rt, alloc, shard)).expect(rt, "the name is too long")
}

fn room(rt: &impl Abort, alloc: Global) -> Room {
    let mut pool = Pool::new(alloc, 1, 8).expect(rt, "out of memory");
    Room {
        buf: pool.take().expect(rt, "no buffer"),
        rest: Vec::new(alloc),
    }
}

/// The last byte of the UUID that a letter stands for.
fn digit(letter: u8) -> u8 {
    match letter {
        b'a' => 10,
        b'b' => 11,
        b'd' => 13,
        b'e' => 14,
        b'f' => 15,
        _ => 1,
    }
}

fn gtid(rt: &impl Abort, letter: u8, number: u64) -> Gtid {
    let mut uuid = [0; 16];
    uuid[15] = digit(letter);
    Gtid::new(uuid, number).expect(rt, "the number is out of range")
}

fn position(rt: &impl Abort, alloc: Global, text: &[u8]) -> GtidSet {
    GtidSet::parse(alloc, text).expect(rt, "no position")
}

fn journal(rt: &impl Abort, alloc: Global, text: &[u8]) -> JournalValue {
    read_text(alloc, text).expect(rt, "no journal")
}

fn entry(rt: &impl Abort, alloc: Global, gtid: Gtid, time: u32) -> Entry {
    Entry {
        gtid,
        time,
        work: Work::Ddl(text(rt, alloc, b"drop table t")),
    }
}

/// The body of a statement of c/0. A core looks into no body, so it serves for each piece.
fn body(rt: &impl Abort, alloc: Global, gtid: Gtid, time: u32) -> Body {
    let entry = entry(rt, alloc, gtid, time);
    let name = shard_name(rt, alloc, b"0");
    let bound = Bound {
        tables: List::new(alloc),
    };
    match render(alloc, &entry, &name, &bound, room(rt, alloc)) {
        Ok(body) => body,
        Err(_) => panic!(rt; "no body"),
    }
}

fn statement(rt: &impl Abort, alloc: Global, gtid: Gtid, time: u32) -> Piece {
    Piece::Tx {
        gtid,
        time,
        body: body(rt, alloc, gtid, time),
    }
}

fn foreign(rt: &impl Abort, alloc: Global, gtid: Gtid, text: &[u8]) -> Piece {
    Piece::Foreign {
        gtid,
        time: 100,
        journal: journal(rt, alloc, text),
        body: body(rt, alloc, gtid, 100),
    }
}

fn last_key(rt: &impl Abort, alloc: Global, key: &[u8]) -> LastKey {
    let mut row = Image::new(alloc);
    assert!(rt; row.push(Cell::Bytes(text(rt, alloc, key))).is_ok());
    LastKey::new(text(rt, alloc, b"t"), row).expect(rt, "the key is too long")
}

fn chunk(rt: &impl Abort, alloc: Global, at: &[u8], key: &[u8]) -> Piece {
    Piece::Chunk {
        position: position(rt, alloc, at),
        last_key: last_key(rt, alloc, key),
        time: 100,
        body: body(rt, alloc, gtid(rt, b'1', 1), 100),
    }
}

fn end(rt: &impl Abort, alloc: Global, cause: EndCause) -> Piece {
    Piece::End {
        cause,
        room: room(rt, alloc),
    }
}

pub fn piece(rt: &impl Abort, alloc: Global, content: &Content) -> Piece {
    match content {
        Content::Tx(letter, number, time) => {
            statement(rt, alloc, gtid(rt, *letter, *number), *time)
        }
        Content::Foreign(letter, number, text) => {
            foreign(rt, alloc, gtid(rt, *letter, *number), text)
        }
        Content::Chunk(at, key) => chunk(rt, alloc, at, key),
        Content::CopyDone(at) => Piece::CopyDone {
            position: position(rt, alloc, at),
            time: 101,
            room: room(rt, alloc),
        },
        Content::Idle => Piece::Idle {
            room: room(rt, alloc),
        },
        Content::AtEnd => end(rt, alloc, EndCause::AtEnd),
        Content::OwnJournal(text) => {
            let journal = journal(rt, alloc, text);
            end(rt, alloc, EndCause::OwnJournal { journal })
        }
        Content::FeedFault => end(rt, alloc, EndCause::FeedFault),
        Content::BadLog(offset) => {
            let why = Why::BadLength { length: 18 };
            end(
                rt,
                alloc,
                EndCause::BadLog {
                    offset: *offset,
                    why,
                },
            )
        }
    }
}
