//! A lane.
ghost use Rattle.std.specs.Prelude.{◌≡◌, ◌<◌, ◌∷◌, [], IfErr, IfOk, IfSome, Some, false, true};
ghost use Rattle.vs_lane.specs.Answers.{PieceComes};
ghost use Rattle.vs_lane.specs.Ends.{BeginsAt, FindsEndOf, IsToStream, StartsAt};
ghost use Rattle.vs_lane.specs.Pieces.{buffer_size};
ghost use Rattle.vs_lane.specs.Stands.{IsSameLane, Leads, Stands};

use crate::OutOfMemory;
use crate::course::Course;
use crate::ending::answer;
use crate::entries::Entries;
use crate::laws::law_step;
use crate::seek::{next_due, seek_end};
use std::alloc::{AllocError, Global};
use std::marker::Model;
use vs_base::ShardName;
use vs_filter::Bound;
use vs_gtid::GtidSet;
use vs_outside::Feed;
use vs_render::{EndCause, Piece, Room};
use vs_request::StartAt;
use vs_schema::Schema;

/// One shard's reader: it reads the shard's log from its feed, and gives the pieces of the entries
/// that its start lacks. It holds less than an event of the log and one read of the feed.
#[derive(Drop)]
pub struct Lane<F: Feed> {
    name: ShardName,
    bound: Bound,
    start: GtidSet,
    until_end: bool,
    entries: Entries<F>,
    /// whether the log's base is known, and lies in the start
    checked: bool,
    course: Course,
}

impl<F: Feed> Model for Lane<F> {
    ghost use Rattle.vs_lane.specs.Stands.{Seen};
    ghost use Rattle.vs_lane.specs.Steps.{Keeps, seen_as};

    ghost Value = { Seen };

    ghost view = { λ l. seen_as l.name l.bound l.start l.until_end l.entries l.course };

    ghost invariant = { λ l. Keeps l.name l.start l.entries l.checked l.course };
}

/// The start of a lane, as far as it is known, and its course.
fn begin_at(alloc: Global, from: StartAt) -> (GtidSet, Course)
    requires { IsToStream from }
    ensures { BeginsAt from result.0 result.1 }
{
    match from {
        StartAt::At(start) => (start, Course::GoesOn),
        StartAt::Current => (GtidSet::new(alloc), Course::Seeks),
        StartAt::Fresh => unreachable!(),
    }
}

impl<F: Feed> Lane<F> {
    /// A lane that has given no piece, of a feed at its front. From `Current` on it first seeks its
    /// start: `find_end`.
    pub fn start(
        alloc: Global,
        name: &ShardName,
        feed: F,
        schema: &Schema,
        bound: Bound,
        from: StartAt,
        until_end: bool,
    ) -> Result<Lane<F>, (F, OutOfMemory)>
        requires fresh { IfSome (F.all feed) (λ _. F.given feed ≡ Some []) }
        requires streams { IsToStream from }
        ensures feed { IfErr result (λ e. e.0 ≡ feed) }
        ensures lane { IfOk result (λ l. (l.shard ≡ name.now) × (l.schema ≡ schema.now) × (l.bound ≡ bound) × (l.until_end ≡ until_end)) }
        ensures from { IfOk result (StartsAt from) }
        ensures told { IfOk result (λ l. (l.origin ≡ F.origin feed) × (l.all ≡ F.all feed) × (l.given ≡ F.given feed) × (l.sound ≡ F.sound feed) × (l.faults ≡ F.faults feed) × (l.waits ≡ F.waits feed)) }
        ensures goes_on { IfOk result (λ l. l.ended ≡ false) }
        ensures stands { IfOk result (λ l. Stands l []) }
    {
        let Ok(name) = name.copy(alloc) else {
            return Err((feed, AllocError));
        };
        let entries = match Entries::new(alloc, feed, schema, name.keyspace.as_bytes()) {
            Ok(entries) => entries,
            Err(feed) => return Err((feed, AllocError)),
        };
        let (start, course) = begin_at(alloc, from);
        Ok(Lane {
            name,
            bound,
            start,
            until_end,
            entries,
            checked: false,
            course,
        })
    }

    /// Whether it has given an End, or found no start: it gives no more pieces.
    pub fn has_ended(&self) -> bool
        ensures { result ≡ self.now.ended }
    {
        self.course.is_over()
    }

    /// Whether its start is the end of the log, and wasn't found yet.
    pub fn is_seeking(&self) -> bool
        ensures { result ≡ self.now.seeks }
    {
        self.course.is_seeking()
    }

    /// How many bytes of the log it holds unread.
    pub fn held(&self) -> usize
        ensures held { result ≡ self.now.held }
        ensures bound { result < 67174400 }
    {
        self.entries.held()
    }

    /// The end of the log, where the lane is to start there: it is found where the feed has nothing yet
    /// and the log's base is known, or has ended. None where the base isn't known yet. After an error
    /// the lane has ended.
    pub fn find_end(&mut self, alloc: Global) -> Result<Option<GtidSet>, EndCause>
        requires seeks { self.old.seeks ≡ true }
        requires goes_on { self.old.ended ≡ false }
        ensures same { IsSameLane self.old self.new }
        ensures finds { FindsEndOf self.old result self.new }
    {
        match seek_end(alloc, &mut self.entries) {
            Ok(Some(start)) => match start.copy(alloc) {
                Ok(copied) => {
                    self.start = start;
                    self.course = Course::GoesOn;
                    Ok(Some(copied))
                }
                Err(_) => {
                    self.course = Course::Ended;
                    Err(EndCause::Memory)
                }
            },
            Ok(None) => Ok(None),
            Err(cause) => {
                self.course = Course::Ended;
                Err(cause)
            }
        }
    }

    /// The next piece. It has the room that was handed in, or its body has.
    pub fn step(&mut self, alloc: Global, room: Room) -> Piece
        requires goes_on { self.old.ended ≡ false }
        requires found { self.old.seeks ≡ false }
        ensures leads { Leads self.old self.new (result ∷ []) }
        ensures comes { PieceComes self.old self.new result }
        ensures room { buffer_size result ≡ room.buf.size }
    {
        law_step();
        let came = next_due(&mut self.entries, &self.start);
        let at_entry = came.is_entry();
        let piece = answer(
            alloc,
            &self.name,
            &self.bound,
            &self.start,
            self.until_end,
            &self.entries,
            &mut self.checked,
            came,
            room,
        );
        self.course = Course::behind(at_entry, &piece);
        piece
    }

    /// Hands the feed back.
    pub fn finish(self) -> F
        ensures told { (F.origin result ≡ self.origin) × (F.all result ≡ self.all) × (F.given result ≡ self.given) × (F.sound result ≡ self.sound) }
        ensures counts { (F.faults result ≡ self.faults) × (F.waits result ≡ self.waits) }
    {
        let Lane {
            name: _,
            bound: _,
            start: _,
            until_end: _,
            entries,
            checked: _,
            course: _,
        } = self;
        entries.finish()
    }
}
