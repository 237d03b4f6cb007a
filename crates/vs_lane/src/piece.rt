//! The piece of what came of a log.
ghost use Rattle.std.specs.Prelude.{◌≡◌, MatchResult, None, Some, ℕ};
ghost use Rattle.vs_base.specs.declared.ShardName.{ShardName};
ghost use Rattle.vs_filter.specs.declared.bound.Bound.{Bound};
ghost use Rattle.vs_model.specs.Logs.{own_journal};
ghost use Rattle.vs_model.specs.Names.{is_in};
ghost use Rattle.vs_render.specs.Bodies.{entry_body};
ghost use Rattle.vs_lane.specs.Answers.{EndsAtEntry, GivesPiece, SaysCame};
ghost use Rattle.vs_lane.specs.Pieces.{buffer_size};

use crate::entries::Came;
use std::alloc::Global;
use vs_base::{ShardName, Why};
use vs_filter::Bound;
use vs_gtid::{Entry, JournalValue, Work};
use vs_render::{Body, EndCause, Piece, RenderRefusal, Room, render};

/// Whether the journal names the shard as a participant.
fn is_participant(name: &ShardName, journal: &JournalValue) -> bool
    ensures { result ≡ is_in name.now journal.now.participants }
{
    journal
        .participants
        .as_slice()
        .iter()
        .any(|participant| name.is_same(participant))
}

/// The entry, or the own journal of the shard that it is.
fn or_own(name: &ShardName, entry: Entry) -> Result<Entry, JournalValue>
    ensures { MatchResult result (λ e. (e ≡ entry) × (own_journal name.now entry ≡ None)) (λ j. own_journal name.now entry ≡ Some j) }
{
    let Entry { gtid, time, work } = entry;
    match work {
        Work::Journal(journal) => {
            if journal.shards && is_participant(name, &journal) {
                return Err(journal);
            }
            Ok(Entry {
                gtid,
                time,
                work: Work::Journal(journal),
            })
        }
        work => Ok(Entry { gtid, time, work }),
    }
}

/// The piece of an entry that is no own journal, and whose body is there.
fn with_body(entry: Entry, body: Body) -> Piece
    ensures size { buffer_size result ≡ body.size }
    ensures piece { (name : ShardName) (bound : Bound) (at : ℕ) → body.body ≡ entry_body bound.tables name entry → own_journal name entry ≡ None → GivesPiece name bound entry at result }
{
    let Entry { gtid, time, work } = entry;
    match work {
        Work::Journal(journal) => {
            if journal.shards {
                return Piece::Foreign {
                    gtid,
                    time,
                    journal,
                    body,
                };
            }
            Piece::Tx { gtid, time, body }
        }
        _ => Piece::Tx { gtid, time, body },
    }
}

/// The piece of an entry that the lane's place lacks, whose GTID event stands at this place.
fn piece_of(
    alloc: Global,
    name: &ShardName,
    bound: &Bound,
    entry: Entry,
    at: u64,
    room: Room,
) -> Piece
    ensures piece { GivesPiece name.now bound.now entry at result }
    ensures size { buffer_size result ≡ room.buf.size }
{
    let entry = match or_own(name, entry) {
        Ok(entry) => entry,
        Err(journal) => {
            return Piece::End {
                cause: EndCause::OwnJournal { journal },
                room,
            };
        }
    };
    match render(alloc, &entry, name, bound, room) {
        Ok(body) => with_body(entry, body),
        Err(refused) => {
            let (room, refusal) = refused;
            let cause = match refusal {
                RenderRefusal::TooLarge { bytes } => EndCause::BadLog {
                    offset: at,
                    why: Why::TooLarge { bytes },
                },
                RenderRefusal::Memory => EndCause::Memory,
            };
            Piece::End { cause, room }
        }
    }
}

/// The piece of what came.
pub(crate) fn piece_said(
    alloc: Global,
    name: &ShardName,
    bound: &Bound,
    until_end: bool,
    came: Came,
    room: Room,
) -> Piece
    ensures piece { SaysCame name.now bound.now until_end came result }
    ensures size { buffer_size result ≡ room.buf.size }
{
    let cause = match came {
        Came::Entry { entry, at } => return piece_of(alloc, name, bound, entry, at, room),
        Came::NotYet => return Piece::Idle { room },
        Came::End => {
            if !until_end {
                return Piece::Idle { room };
            }
            EndCause::AtEnd
        }
        Came::FeedFault => EndCause::FeedFault,
        Came::BadLog { offset, why } => EndCause::BadLog { offset, why },
        Came::Memory => EndCause::Memory,
    };
    Piece::End { cause, room }
}
