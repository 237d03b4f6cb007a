//! The entries of a shard's log, as its feed gives the bytes.
ghost use Rattle.std.specs.Prelude.{◌≡◌, [], IfErr, IfOk, IfSome, MatchOption, Some, false, true};
ghost use Rattle.vs_log.specs.Meaning.{knows_base};
ghost use Rattle.vs_lane.specs.Feeding.{Comes, IsHeldWithin, IsLater, IsSound, log_read, rules_read};

use std::alloc::Global;
use std::marker::Model;
use vs_base::Why;
use vs_entries::{LogRefusal, Reader, Took, law_part};
use vs_gtid::{Entry, GtidSet};
use vs_outside::{Failed, Feed, Got};
use vs_schema::Schema;

/// How many bytes a read asks for.
const READ_SIZE: usize = 65536;

/// What comes next of a log.
#[derive(Drop)]
pub(crate) enum Came {
    /// the next entry, and the place of its GTID event
    Entry { entry: Entry, at: u64 },
    /// nothing now
    NotYet,
    /// nothing, for all was read
    End,
    FeedFault,
    BadLog { offset: u64, why: Why },
    Memory,
}

impl Came {
    ghost use Rattle.std.specs.Prelude.{◌≡◌};
    ghost use Rattle.vs_lane.specs.Feeding.{is_entry, tells_log};

    pub fn is_entry(&self) -> bool
        ensures { result ≡ is_entry self.now }
    {
        matches!(self, Came::Entry { .. })
    }

    /// Whether it says something of the log: no failed read, and no want of memory.
    pub fn tells_log(&self) -> bool
        ensures { result ≡ tells_log self.now }
    {
        !matches!(self, Came::FeedFault | Came::Memory)
    }
}

/// The entries of a shard's log. The feed is read only where no entry is whole.
#[derive(Drop)]
pub(crate) struct Entries<F: Feed> {
    feed: F,
    reader: Reader,
    /// where a read writes
    buf: Vec<u8>,
    /// whether memory ran out as bytes were taken, so that the reader lacks some
    spent: bool,
}

impl<F: Feed> Model for Entries<F> {
    ghost use Rattle.std.specs.Prelude.{length};
    ghost use Rattle.vs_lane.specs.Feeding.{IsReading, Read, read_as};

    ghost Value = { Read };

    ghost view = { λ e. read_as (F.origin e.feed) (F.all e.feed) (F.given e.feed) (F.sound e.feed) (F.faults e.feed) (F.waits e.feed) e.reader e.spent };

    ghost invariant = { λ e. IsReading (F.all e.feed) (F.given e.feed) e.reader e.spent (length e.buf.items) };
}

impl<F: Feed> Entries<F> {
    /// Of a feed that has given nothing.
    pub fn new(alloc: Global, feed: F, schema: &Schema, keyspace: &[u8]) -> Result<Entries<F>, F>
        requires { IfSome (F.all feed) (λ _. F.given feed ≡ Some []) }
        ensures feed { IfErr result (λ f. f ≡ feed) }
        ensures counts { IfOk result (λ e. (e.faults ≡ F.faults feed) × (e.waits ≡ F.waits feed)) }
        ensures told { IfOk result (λ e. (e.origin ≡ F.origin feed) × (e.all ≡ F.all feed) × (e.given ≡ F.given feed) × (e.sound ≡ F.sound feed)) }
        ensures rules { IfOk result (λ e. (e.keyspace ≡ keyspace.now) × (e.schema ≡ schema.now)) }
        ensures nothing { IfOk result (λ e. (e.bytes ≡ []) × (e.read ≡ []) × (e.spent ≡ false)) }
        ensures sound { IfOk result IsSound }
    {
        let Ok(reader) = Reader::new(alloc, schema, keyspace) else {
            return Err(feed);
        };
        let Ok(buf) = vec![in alloc; 0u8; READ_SIZE] else {
            return Err(feed);
        };
        Ok(Entries {
            feed,
            reader,
            buf,
            spent: false,
        })
    }

    /// One turn: the next entry, where one is whole, else one read of the feed. None where bytes came.
    fn turn(&mut self) -> Option<Came>
        ensures later { IsLater self.old self.new }
        ensures comes { MatchOption result ((self.new.read ≡ self.old.read) × (self.new.spent ≡ self.old.spent)) (λ said. Comes self.old said self.new) }
        ensures sound { IsSound self.new }
    {
        law_part();
        match self.reader.next_entry() {
            Ok(Took::Entry { entry, at, .. }) => return Some(Came::Entry { entry, at }),
            Ok(Took::More) => {}
            Err(LogRefusal::BadLog { offset, why }) => return Some(Came::BadLog { offset, why }),
            Err(LogRefusal::Memory) => return Some(Came::Memory),
        }
        match self.feed.read(self.buf.as_mut_slice()) {
            Ok(Got::Bytes(n)) => match self.reader.feed(&self.buf[..n]) {
                Ok(()) => None,
                Err(_) => {
                    self.spent = true;
                    Some(Came::Memory)
                }
            },
            Ok(Got::NotYet) => Some(Came::NotYet),
            Ok(Got::End) => Some(Came::End),
            Err(Failed) => Some(Came::FeedFault),
        }
    }

    /// The next entry, or what comes in its place.
    pub fn next(&mut self) -> Came
        requires { IsSound self.old }
        ensures later { IsLater self.old self.new }
        ensures comes { Comes self.old result self.new }
        ensures sound { IsSound self.new }
    {
        for _ in 0..u64::MAX {
            if let Some(came) = self.turn() {
                return came;
            }
        }
        Came::Memory
    }

    /// The GTIDs before the log, once the bytes that came tell them.
    pub fn base(&self) -> Option<&GtidSet>
        ensures { MatchOption result ((knows_base (rules_read self.now) self.now.bytes ≡ false) × ((log_read self.now).base ≡ [])) (λ b. (knows_base (rules_read self.now) self.now.bytes ≡ true) × (b.now ≡ (log_read self.now).base)) }
    {
        self.reader.base()
    }

    /// How many bytes are held unread.
    pub fn held(&self) -> usize
        ensures { result ≡ self.now.held }
    {
        self.reader.held()
    }

    /// Hands the feed back.
    pub fn finish(self) -> F
        ensures told { (F.origin result ≡ self.origin) × (F.all result ≡ self.all) × (F.given result ≡ self.given) × (F.sound result ≡ self.sound) }
        ensures counts { (F.faults result ≡ self.faults) × (F.waits result ≡ self.waits) }
    {
        let Entries {
            feed,
            reader: _,
            buf: _,
            spent: _,
        } = self;
        feed
    }
}
