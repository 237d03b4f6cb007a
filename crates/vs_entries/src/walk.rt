//! A walk over the events of a log's bytes, of which more may come.
ghost use Rattle.std.specs.Prelude.{◌≡◌, ◌≤◌, ◌<◌, ◌⊎◌, IfOk, OnErr, OnOk, length, true};
ghost use Rattle.vs_log.specs.Events.{last_place};

use crate::front::front_event;
use crate::laws::laws;
use crate::magic::{MAGIC, Magic, read_magic};
use crate::out::{Out, Stop, Turn};
use crate::progress::Progress;
use crate::took::Took;
use crate::window::Window;
use std::alloc::{AllocError, Global};
use vs_base::OutOfMemory;
use vs_journal::Entry;
use vs_schema::Schema;

/// Where a walk stands.
#[derive(Debug, Drop)]
pub struct Walk {
    /// the place of the next event
    pub at: usize,
    /// the place of the last event that was taken where no entry was open
    pub begun: usize,
    /// how many entries ended
    pub given: usize,
    pub progress: Progress,
}

/// What a walk comes to.
#[derive(Debug, Clone, Copy)]
pub enum Next {
    /// An entry ends: it is in the `Out`.
    Gave,
    /// No whole event is left, or what is wrong with the next one is in the `Out`.
    Ended,
}

impl Walk {
    ghost use Rattle.vs_entries.specs.Reading.{is_early};
    ghost use Rattle.vs_entries.specs.Walks.{IsBack, IsEarly, IsFresh, IsStuck, IsWalk, ReadsEntry, Stands, TurnsTo};
    ghost use Rattle.vs_entries.specs.Rules.{rules_of};
    ghost use Rattle.vs_entries.specs.declared.took.Took.TheVariants.{Entry as Given};

    /// A walk that stands behind the magic.
    pub fn new(alloc: Global) -> Walk
        ensures { IsFresh result }
    {
        Walk {
            at: MAGIC.len(),
            begun: 0,
            given: 0,
            progress: Progress::new(alloc),
        }
    }

    /// The entry that ended last, with its places.
    #[inline(always)]
    pub fn took(&self, entry: Entry) -> Took
        ensures { result ≡ Given entry self.now.begun self.now.at }
    {
        Took::Entry {
            entry,
            at: self.begun as u64,
            end: self.at as u64,
        }
    }

    /// Takes the next event of the bytes, if it is whole. It stops where none is, too.
    pub fn take_turn(
        &mut self,
        alloc: Global,
        window: &Window,
        keyspace: &[u8],
        schema: &Schema,
        out: &mut Out,
    ) -> Result<Turn, Stop>
        requires from { window.now.from ≤ self.old.at }
        requires place { self.old.at ≤ length window.now.bytes }
        requires early { self.old.at ≤ last_place }
        requires few { self.old.given ≤ self.old.at }
        ensures { TurnsTo (rules_of keyspace.now schema.now) window.now.bytes self.old self.new out.new result }
    {
        let at = self.at;
        let rest = window.rest(at);
        let Some(event) = front_event(rest, at) else {
            out.why = self.progress.head_fault(rest, at);
            return Err(Stop::Wrong);
        };
        let begun = self.progress.standing.begun_after(at, self.begun);
        match self.progress.take(alloc, event, keyspace, schema, out) {
            Ok(Turn::Goes) => {
                self.begun = begun;
                self.at = at + event.len();
                Ok(Turn::Goes)
            }
            Ok(Turn::Ends) => {
                self.begun = begun;
                self.at = at + event.len();
                self.given += 1;
                Ok(Turn::Ends)
            }
            Err(Stop::Wrong) => Err(Stop::Wrong),
            Err(Stop::Memory) => Err(Stop::Memory),
        }
    }

    /// Goes on to the end of the next entry, or as far as events are whole and in order.
    pub fn read_entry(
        &mut self,
        alloc: Global,
        window: &Window,
        keyspace: &[u8],
        schema: &Schema,
        out: &mut Out,
    ) -> Result<Next, OutOfMemory>
        requires from { window.now.from ≤ self.old.at }
        requires stands { Stands (rules_of keyspace.now schema.now) window.now.bytes self.old }
        ensures stands { Stands (rules_of keyspace.now schema.now) window.now.bytes self.new }
        ensures reads { ReadsEntry (rules_of keyspace.now schema.now) window.now.bytes self.old self.new out.new result }
        ensures early { is_early self.new.progress.standing ≡ true → is_early self.old.progress.standing ≡ true }
        ensures given { is_early self.new.progress.standing ≡ true → self.new.given ≡ self.old.given }
        ensures later { self.old.at ≤ self.new.at }
        ensures stuck { IsStuck (rules_of keyspace.now schema.now) window.now.bytes self.old → IsStuck (rules_of keyspace.now schema.now) window.now.bytes self.new }
    {
        laws();
        'events: loop {
            match self.take_turn(alloc, window, keyspace, schema, out) {
                Ok(Turn::Goes) => {}
                Ok(Turn::Ends) => return Ok(Next::Gave),
                Err(Stop::Wrong) => return Ok(Next::Ended),
                Err(Stop::Memory) => return Err(AllocError),
            }
        }
    }

    /// Goes on up to the first event that tells of the base; whether that one is refused. Where memory
    /// runs out, the walk is back where it was.
    #[tactic(auto, using(crate::proofs::OverLemmas::front_back))]
    pub fn read_front(
        &mut self,
        alloc: Global,
        window: &Window,
        keyspace: &[u8],
        schema: &Schema,
    ) -> Result<bool, OutOfMemory>
        requires from { window.now.from ≤ self.old.at }
        requires begun { (window.now.from ≡ 0) ⊎ (4 < self.old.at) }
        requires early { is_early self.old.progress.standing ≡ true }
        requires given { self.old.given ≡ 0 }
        requires stands { IsFresh self.old ⊎ Stands (rules_of keyspace.now schema.now) window.now.bytes self.old }
        ensures ok { IfOk result (λ refused. IsWalk (rules_of keyspace.now schema.now) window.now.bytes self.new refused) }
        ensures given { OnOk result (self.new.given ≡ self.old.given) }
        ensures later { self.old.at ≤ self.new.at }
        ensures err { OnErr result (IsBack self.old self.new) }
    {
        laws();
        match read_magic(window) {
            Magic::Whole => {}
            _ => return Ok(false),
        }
        let at = self.at;
        let begun = self.begun;
        let standing = self.progress.standing;
        match self.read_early(alloc, window, keyspace, schema) {
            Ok(refused) => Ok(refused),
            Err(error) => {
                self.at = at;
                self.begun = begun;
                self.progress.standing = standing;
                Err(error)
            }
        }
    }

    /// The same behind the magic. Where memory runs out, events were taken that tell of no base.
    fn read_early(
        &mut self,
        alloc: Global,
        window: &Window,
        keyspace: &[u8],
        schema: &Schema,
    ) -> Result<bool, OutOfMemory>
        requires from { window.now.from ≤ self.old.at }
        requires early { IsEarly (rules_of keyspace.now schema.now) window.now.bytes self.old self.old }
        ensures ok { IfOk result (λ refused. IsWalk (rules_of keyspace.now schema.now) window.now.bytes self.new refused) }
        ensures given { OnOk result (self.new.given ≡ self.old.given) }
        ensures later { self.old.at ≤ self.new.at }
        ensures err { OnErr result (IsEarly (rules_of keyspace.now schema.now) window.now.bytes self.old self.new) }
    {
        laws();
        let mut out = Out::new();
        'events: loop {
            match self.take_turn(alloc, window, keyspace, schema, &mut out) {
                Ok(Turn::Goes) => {
                    if !self.progress.standing.is_early() {
                        return Ok(false);
                    }
                }
                Ok(Turn::Ends) => unreachable!(),
                Err(Stop::Wrong) => return Ok(self.progress.standing.is_refused(&out.why)),
                Err(Stop::Memory) => return Err(AllocError),
            }
        }
    }
}
