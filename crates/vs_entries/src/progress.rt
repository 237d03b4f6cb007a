//! What the events of a log, from the first on, have come to.
ghost use Rattle.std.specs.Prelude.{◌≡◌, ◌≤◌, ◌+◌, ◌++◌, IfOk, IsSome, Ok, OnErr, OnOk, Some, length, map, true};
ghost use Rattle.vs_base.specs.declared.Why.TheVariants.{JournalNotAlone};
ghost use Rattle.vs_binlog.specs.Heads.{length_of};
ghost use Rattle.vs_log.specs.Events.{last_place, limit, sort_of};
ghost use Rattle.vs_log.specs.Meaning.{front, head_refusal};
ghost use Rattle.vs_rows.specs.Tables.{Tables};
ghost use Rattle.vs_log.specs.Table.{bytes_with, ended, line, size, step};
ghost use Rattle.vs_entries.specs.declared.out.Stop.TheVariants.{Wrong};

use crate::body::{format_fault, named_gtid, read_base};
use crate::event::{body_of, misplaced, sort_in};
use crate::front::LAST_PLACE;
use crate::kind::StatementKind;
use crate::out::{Out, Stop, Turn};
use crate::query::read_statement;
use crate::row::{Added, read_rows, refused};
use crate::standing::Standing;
use std::alloc::Global;
use std::mem::replace;
use vs_base::{Change, Gtid, List, OutOfMemory, Text, Why};
use vs_binlog::{Step, next_event, read_head};
use vs_gtid::{GtidRefusal, GtidSet};
use vs_journal::{Entry, JournalValue, Work};
use vs_log::{LIMIT, Sort, law_changes};
use vs_rows::Maps;
use vs_schema::Schema;

/// What the events of a log so far have come to, but for the entries that ended.
#[derive(Debug, Drop)]
pub struct Progress {
    pub base: GtidSet,
    /// the base and all GTIDs that stood so far
    pub known: GtidSet,
    pub standing: Standing,
    /// what the table maps of the open transaction told
    pub maps: Maps,
    /// the changes of the open transaction
    pub changes: List<Change>,
    /// the journal that is all its work
    pub journal: Option<JournalValue>,
}

/// Appends changes to those of a transaction, or leaves them as they were.
fn append_changes(
    alloc: Global,
    changes: &mut List<Change>,
    more: List<Change>,
) -> Result<(), OutOfMemory>
    ensures ok { OnOk result (changes.new ≡ changes.old ++ more) }
    ensures err { OnErr result (changes.new ≡ changes.old) }
{
    let mut all = replace(changes, List::new(alloc)).into_vec();
    let mut more = more.into_vec();
    let appended = all.append(&mut more);
    *changes = List::from_vec(all);
    appended
}

/// Leaves in the `Out` that a journal stands beside something else that counts.
fn not_alone(out: &mut Out) -> Stop
    ensures stop { result ≡ Wrong }
    ensures why { out.new.why ≡ Some JournalNotAlone }
{
    out.why = Some(Why::JournalNotAlone);
    Stop::Wrong
}

impl Progress {
    ghost use Rattle.vs_log.specs.States.Place.{Between, Front, Inside, Named};
    ghost use Rattle.vs_log.specs.States.Counted.{Changed, Journaled};
    ghost use Rattle.vs_entries.specs.declared.out.Turn.TheVariants.{Goes};
    ghost use Rattle.vs_entries.specs.Reading.{
      Adds,
      MovesTo,
      TakesTo,
      any_rules,
      counted_in,
      has_no_work,
      is_early,
      no_schema,
      state_of,
      with_gtid,
      with_later_query,
      with_previous,
      with_query,
      with_rows,
      with_table_map,
      with_xid,
      work_in,
    };
    ghost use Rattle.vs_entries.specs.Rules.{rules_of};

    pub fn new(alloc: Global) -> Progress
        ensures { state_of result ≡ front }
    {
        Progress {
            base: GtidSet::new(alloc),
            known: GtidSet::new(alloc),
            standing: Standing::Front,
            maps: Maps::new(alloc),
            changes: List::new(alloc),
            journal: None,
        }
    }

    /// The bytes of the entry that is open.
    fn size(&self) -> u32
        ensures { result ≡ size (state_of self.now).place }
    {
        match self.standing {
            Standing::Front => 0,
            Standing::Between { .. } => 0,
            Standing::Named { bytes, .. } => bytes,
            Standing::Inside { bytes, .. } => bytes,
        }
    }

    /// The bytes that an event makes with the entry that is open, or alone where it is passed over.
    #[tactic(auto, unfolding(vs_log::specs::Table::bytes_with), using(crate::proofs::Lines::sum_with_counted))]
    fn bytes_with(&self, event: &[u8], sort: Sort) -> u64
        requires head { 19 ≤ length event.now }
        requires kind { sort ≡ sort_of event.now }
        ensures { result ≡ bytes_with (state_of self.now).place event.now }
    {
        let length = read_head(event).length as u64;
        match sort {
            Sort::PassedOver => length,
            _ => self.size() as u64 + length,
        }
    }

    /// What is wrong with an event of which not all bytes are there, by its head alone.
    // Not inlined: a function makes room at its entry for all that is inlined into it.
    #[inline(never)]
    #[tactic(auto, unfolding(vs_log::specs::Meaning::head_refusal))]
    pub fn head_fault(&self, rest: &[u8], at: usize) -> Option<Why>
        requires { at ≤ last_place }
        ensures { result ≡ head_refusal at (state_of self.now).place rest.now }
    {
        let length = match next_event(rest) {
            Step::Short => return None,
            Step::Bad { length } => return Some(Why::BadLength { length }),
            Step::Event(head) => head.length,
        };
        let bytes = self.bytes_with(rest, sort_in(rest));
        if bytes > LIMIT {
            return Some(Why::TooLarge { bytes });
        }
        if at as u64 + length as u64 > LAST_PLACE {
            return Some(Why::TooLarge {
                bytes: length as u64,
            });
        }
        None
    }

    /// Takes an event, and gives the entry that ends with it; or leaves all as it was.
    #[tactic(auto, unfolding(vs_log::specs::Table::step))]
    pub fn take(
        &mut self,
        alloc: Global,
        event: &[u8],
        keyspace: &[u8],
        schema: &Schema,
        out: &mut Out,
    ) -> Result<Turn, Stop>
        requires { 19 ≤ length event.now }
        ensures takes { TakesTo result self.old self.new out.new (step (rules_of keyspace.now schema.now) (state_of self.old) event.now) }
        ensures early { is_early self.old.standing ≡ true → IfOk result (λ turn. turn ≡ Goes) }
    {
        let sort = sort_in(event);
        let bytes = self.bytes_with(event, sort);
        if bytes > LIMIT {
            out.why = Some(Why::TooLarge { bytes });
            return Err(Stop::Wrong);
        }
        match self.standing {
            Standing::Front => {
                self.take_first(event, sort, out)?;
                Ok(Turn::Goes)
            }
            Standing::Between { first } => {
                self.take_between(alloc, event, sort, first, out)?;
                Ok(Turn::Goes)
            }
            Standing::Named { gtid, bytes } => {
                self.take_named(alloc, event, sort, keyspace, gtid, bytes, out)
            }
            Standing::Inside { gtid, bytes } => {
                self.take_inside(alloc, event, sort, keyspace, schema, gtid, bytes, out)
            }
        }
    }

    /// Takes the first event of a log.
    #[inline(never)]
    #[tactic(auto, using(crate::proofs::Lines::line_front_other))]
    fn take_first(&mut self, event: &[u8], sort: Sort, out: &mut Out) -> Result<(), Stop>
        requires head { 19 ≤ length event.now }
        requires kind { sort ≡ sort_of event.now }
        ensures { MovesTo result self.old self.new out.new (line any_rules (state_of self.old) event.now Front (sort_of event.now)) }
    {
        match sort {
            Sort::FormatEvent => match format_fault(body_of(event)) {
                Some(why) => {
                    out.why = Some(why);
                    Err(Stop::Wrong)
                }
                None => {
                    self.standing = Standing::Between { first: true };
                    Ok(())
                }
            },
            _ => {
                out.why = Some(Why::NoFormat);
                Err(Stop::Wrong)
            }
        }
    }

    /// Takes an event between entries.
    fn take_between(
        &mut self,
        alloc: Global,
        event: &[u8],
        sort: Sort,
        first: bool,
        out: &mut Out,
    ) -> Result<(), Stop>
        requires head { 19 ≤ length event.now }
        requires kind { sort ≡ sort_of event.now }
        ensures { MovesTo result self.old self.new out.new (line any_rules (state_of self.old) event.now (Between first) (sort_of event.now)) }
    {
        match sort {
            Sort::PassedOver => Ok(()),
            Sort::PreviousEvent if first => self.take_base(alloc, event, out),
            Sort::GtidEvent => self.take_gtid(event, out),
            _ => {
                out.why = Some(misplaced(event, sort));
                Err(Stop::Wrong)
            }
        }
    }

    /// Takes an event behind the GTID event of an entry.
    #[inline(never)]
    #[tactic(auto, unfolding(vs_log::specs::Table::bytes_with), using(crate::proofs::Lines::sum_with_counted))]
    fn take_named(
        &mut self,
        alloc: Global,
        event: &[u8],
        sort: Sort,
        keyspace: &[u8],
        gtid: Gtid,
        bytes: u32,
        out: &mut Out,
    ) -> Result<Turn, Stop>
        requires head { 19 ≤ length event.now }
        requires kind { sort ≡ sort_of event.now }
        requires size { bytes_with {M = Tables} (Named gtid bytes) event.now ≤ limit }
        ensures { TakesTo result self.old self.new out.new (line (rules_of keyspace.now no_schema) (state_of self.old) event.now (Named gtid bytes) (sort_of event.now)) }
    {
        match sort {
            Sort::PassedOver => Ok(Turn::Goes),
            Sort::QueryEvent => self.take_query(alloc, event, keyspace, gtid, bytes, out),
            _ => {
                out.why = Some(misplaced(event, sort));
                Err(Stop::Wrong)
            }
        }
    }

    /// Takes an event inside a transaction.
    #[inline(never)]
    #[tactic(auto, unfolding(vs_log::specs::Table::bytes_with), using(crate::proofs::Lines::sum_with_counted))]
    fn take_inside(
        &mut self,
        alloc: Global,
        event: &[u8],
        sort: Sort,
        keyspace: &[u8],
        schema: &Schema,
        gtid: Gtid,
        bytes: u32,
        out: &mut Out,
    ) -> Result<Turn, Stop>
        requires head { 19 ≤ length event.now }
        requires kind { sort ≡ sort_of event.now }
        requires size { bytes_with (Inside gtid bytes self.old.maps (work_in self.old)) event.now ≤ limit }
        ensures { TakesTo result self.old self.new out.new (line (rules_of keyspace.now schema.now) (state_of self.old) event.now (Inside gtid bytes self.old.maps (work_in self.old)) (sort_of event.now)) }
    {
        match sort {
            Sort::PassedOver => Ok(Turn::Goes),
            Sort::QueryEvent => self.take_later_query(alloc, event, keyspace, gtid, bytes, out),
            Sort::XidEvent => self.take_xid(alloc, event, gtid, out),
            Sort::MapEvent => {
                self.take_table_map(event, keyspace, schema, gtid, bytes, out)?;
                Ok(Turn::Goes)
            }
            Sort::RowsEvent => {
                self.take_rows(alloc, event, keyspace, gtid, bytes, out)?;
                Ok(Turn::Goes)
            }
            _ => {
                out.why = Some(misplaced(event, sort));
                Err(Stop::Wrong)
            }
        }
    }

    /// Takes a PREVIOUS_GTIDS event.
    #[inline(never)]
    fn take_base(&mut self, alloc: Global, event: &[u8], out: &mut Out) -> Result<(), Stop>
        requires { 19 ≤ length event.now }
        ensures { MovesTo result self.old self.new out.new (with_previous (state_of self.old) event.now) }
    {
        let base = match read_base(alloc, body_of(event)) {
            Ok(base) => base,
            Err(refusal) => return Err(refusal.leave_in(out)),
        };
        let known = base.copy(alloc)?;
        self.base = base;
        self.known = known;
        self.standing = Standing::Between { first: false };
        Ok(())
    }

    /// Takes a GTID event, which begins an entry.
    fn take_gtid(&mut self, event: &[u8], out: &mut Out) -> Result<(), Stop>
        requires { 19 ≤ length event.now }
        ensures { MovesTo result self.old self.new out.new (with_gtid (state_of self.old) event.now) }
    {
        let gtid = match named_gtid(body_of(event)) {
            Ok(gtid) => gtid,
            Err(why) => {
                out.why = Some(why);
                return Err(Stop::Wrong);
            }
        };
        if self.known.contains(&gtid) {
            out.why = Some(Why::RepeatedGtid { gtid });
            return Err(Stop::Wrong);
        }
        match self.known.add(gtid) {
            Ok(()) => {
                self.standing = Standing::Named {
                    gtid,
                    bytes: read_head(event).length,
                };
                Ok(())
            }
            Err(GtidRefusal::TooManyIntervals) => {
                out.why = Some(Why::TooManyIntervals);
                Err(Stop::Wrong)
            }
            Err(_) => Err(Stop::Memory),
        }
    }

    /// Takes a query event behind the GTID event of an entry.
    fn take_query(
        &mut self,
        alloc: Global,
        event: &[u8],
        keyspace: &[u8],
        gtid: Gtid,
        bytes: u32,
        out: &mut Out,
    ) -> Result<Turn, Stop>
        requires head { 19 ≤ length event.now }
        requires size { bytes + length_of event.now ≤ limit }
        ensures { TakesTo result self.old self.new out.new (with_query keyspace.now (state_of self.old) event.now gtid bytes) }
    {
        let Some(told) = read_statement(body_of(event), keyspace) else {
            out.why = Some(Why::BadEvent { kind: 2 });
            return Err(Stop::Wrong);
        };
        match told.kind {
            StatementKind::Begin => {
                self.maps.clear();
                self.changes = List::new(alloc);
                self.journal = None;
                self.standing = Standing::Inside {
                    gtid,
                    bytes: bytes + read_head(event).length,
                };
                Ok(Turn::Goes)
            }
            StatementKind::Xa => {
                out.why = Some(Why::UnsupportedStatement);
                Err(Stop::Wrong)
            }
            StatementKind::Ddl => {
                let work = Work::Ddl(Text::from_bytes(alloc, told.text)?);
                Ok(self.end_entry(event, gtid, work, out))
            }
            StatementKind::Commit => Ok(self.end_entry(event, gtid, Work::Other, out)),
            StatementKind::Savepoint => Ok(self.end_entry(event, gtid, Work::Other, out)),
            StatementKind::Other => Ok(self.end_entry(event, gtid, Work::Other, out)),
        }
    }

    /// Takes a query event inside a transaction.
    fn take_later_query(
        &mut self,
        alloc: Global,
        event: &[u8],
        keyspace: &[u8],
        gtid: Gtid,
        bytes: u32,
        out: &mut Out,
    ) -> Result<Turn, Stop>
        requires head { 19 ≤ length event.now }
        requires size { bytes + length_of event.now ≤ limit }
        ensures { TakesTo result self.old self.new out.new (with_later_query keyspace.now (state_of self.old) event.now gtid bytes self.old.maps (work_in self.old)) }
    {
        let Some(told) = read_statement(body_of(event), keyspace) else {
            out.why = Some(Why::BadEvent { kind: 2 });
            return Err(Stop::Wrong);
        };
        match told.kind {
            StatementKind::Commit => Ok(self.end_transaction(alloc, event, gtid, out)),
            StatementKind::Savepoint => {
                self.standing = Standing::Inside {
                    gtid,
                    bytes: bytes + read_head(event).length,
                };
                Ok(Turn::Goes)
            }
            StatementKind::Begin => {
                out.why = Some(Why::NestedBegin);
                Err(Stop::Wrong)
            }
            _ => {
                out.why = Some(Why::UnsupportedStatement);
                Err(Stop::Wrong)
            }
        }
    }

    /// Takes an XID event, which ends a transaction.
    fn take_xid(
        &mut self,
        alloc: Global,
        event: &[u8],
        gtid: Gtid,
        out: &mut Out,
    ) -> Result<Turn, Stop>
        requires { 19 ≤ length event.now }
        ensures { TakesTo result self.old self.new out.new (with_xid (state_of self.old) event.now gtid (work_in self.old)) }
    {
        if body_of(event).len() < 8 {
            out.why = Some(Why::BadEvent { kind: 16 });
            return Err(Stop::Wrong);
        }
        Ok(self.end_transaction(alloc, event, gtid, out))
    }

    /// Takes a table map.
    fn take_table_map(
        &mut self,
        event: &[u8],
        keyspace: &[u8],
        schema: &Schema,
        gtid: Gtid,
        bytes: u32,
        out: &mut Out,
    ) -> Result<(), Stop>
        requires head { 19 ≤ length event.now }
        requires size { bytes + length_of event.now ≤ limit }
        ensures { MovesTo result self.old self.new out.new (with_table_map keyspace.now schema.now (state_of self.old) event.now gtid bytes self.old.maps (work_in self.old)) }
    {
        match self.maps.put(body_of(event), schema, keyspace) {
            Ok(()) => {
                self.standing = Standing::Inside {
                    gtid,
                    bytes: bytes + read_head(event).length,
                };
                Ok(())
            }
            Err(refusal) => Err(refused(19, refusal).leave_in(out)),
        }
    }

    /// Takes a rows event.
    fn take_rows(
        &mut self,
        alloc: Global,
        event: &[u8],
        keyspace: &[u8],
        gtid: Gtid,
        bytes: u32,
        out: &mut Out,
    ) -> Result<(), Stop>
        requires head { 19 ≤ length event.now }
        requires size { bytes + length_of event.now ≤ limit }
        ensures { MovesTo result self.old self.new out.new (with_rows keyspace.now (state_of self.old) event.now gtid bytes self.old.maps (work_in self.old)) }
    {
        let kind = read_head(event).kind;
        let added = match read_rows(alloc, &self.maps, kind, body_of(event), keyspace) {
            Ok(added) => added,
            Err(refusal) => return Err(refusal.leave_in(out)),
        };
        self.add(alloc, added, out)?;
        self.standing = Standing::Inside {
            gtid,
            bytes: bytes + read_head(event).length,
        };
        Ok(())
    }

    /// Adds what counts of a rows event to the work of the open transaction, or leaves all as it was.
    fn add(&mut self, alloc: Global, added: Added, out: &mut Out) -> Result<(), Stop>
        ensures { Adds result self.old self.new out.new (counted_in added) }
    {
        match added {
            Added::Changes(changes) => self.add_changes(alloc, changes, out),
            Added::Journals(journals) => self.add_journals(journals, out),
        }
    }

    /// Adds changes. They can't stand beside a journal.
    #[tactic(auto, using(crate::proofs::JournalLemmas::changes_refused))]
    fn add_changes(
        &mut self,
        alloc: Global,
        changes: List<Change>,
        out: &mut Out,
    ) -> Result<(), Stop>
        ensures { Adds result self.old self.new out.new (map Changed changes) }
    {
        law_changes();
        if self.journal.is_some() {
            if changes.as_slice().is_empty() {
                return Ok(());
            }
            return Err(not_alone(out));
        }
        append_changes(alloc, &mut self.changes, changes)?;
        Ok(())
    }

    /// Whether nothing counted yet in the open transaction.
    fn has_no_work(&self) -> bool
        ensures { result ≡ has_no_work (work_in self.now) }
    {
        self.journal.is_none() && self.changes.as_slice().is_empty()
    }

    /// Adds journals, of which a transaction has one at most, and then no change.
    #[inline(never)]
    #[tactic(auto, using(crate::proofs::JournalLemmas::journals_refused))]
    fn add_journals(&mut self, journals: List<JournalValue>, out: &mut Out) -> Result<(), Stop>
        ensures { Adds result self.old self.new out.new (map Journaled journals) }
    {
        let mut journals = journals.into_vec();
        let Some(journal) = journals.pop() else {
            return Ok(());
        };
        if !journals.is_empty() {
            return Err(not_alone(out));
        }
        if !self.has_no_work() {
            return Err(not_alone(out));
        }
        self.journal = Some(journal);
        Ok(())
    }

    /// Ends the open transaction with its last event.
    fn end_transaction(&mut self, alloc: Global, event: &[u8], gtid: Gtid, out: &mut Out) -> Turn
        requires { 19 ≤ length event.now }
        ensures { TakesTo (Ok result) self.old self.new out.new (Ok (ended (state_of self.old) event.now gtid (work_in self.old))) }
    {
        if self.journal.is_some() {
            return self.end_journal(event, gtid, out);
        }
        let changes = replace(&mut self.changes, List::new(alloc));
        self.standing = Standing::Between { first: false };
        out.entry = Some(Entry {
            gtid,
            time: read_head(event).time,
            work: Work::Rows(changes),
        });
        Turn::Ends
    }

    /// Ends the open transaction, whose work is a journal.
    #[inline(never)]
    fn end_journal(&mut self, event: &[u8], gtid: Gtid, out: &mut Out) -> Turn
        requires head { 19 ≤ length event.now }
        requires journal { IsSome self.old.journal }
        ensures { TakesTo (Ok result) self.old self.new out.new (Ok (ended (state_of self.old) event.now gtid (work_in self.old))) }
    {
        let work = match self.journal.take() {
            Some(journal) => Work::Journal(journal),
            None => unreachable!(),
        };
        self.end_entry(event, gtid, work, out)
    }

    /// Ends the open entry with its last event.
    fn end_entry(&mut self, event: &[u8], gtid: Gtid, work: Work, out: &mut Out) -> Turn
        requires { 19 ≤ length event.now }
        ensures { TakesTo (Ok result) self.old self.new out.new (Ok (ended (state_of self.old) event.now gtid work)) }
    {
        self.standing = Standing::Between { first: false };
        out.entry = Some(Entry {
            gtid,
            time: read_head(event).time,
            work,
        });
        Turn::Ends
    }
}
