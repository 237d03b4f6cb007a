ghost use Rattle.std.specs.Prelude.{
  ◌≡◌,
  ◌≢◌,
  ◌≤◌,
  ℕ,
  List as Items,
  [],
  Some,
  None,
  Err,
  IfOk,
  IfSome,
  MatchOption,
  OnOk,
  false,
  map,
};
ghost use Rattle.vs_base.specs.declared.ShardName.{ShardName};
ghost use Rattle.vs_base.specs.Names.{same_name};
ghost use Rattle.vs_outside.specs.Clusters.{Shard, find_shard};
ghost use Rattle.vs_outside.specs.Counts.{Rose};
ghost use Rattle.vs_outside.specs.Feeds.{GivesAllBack};
ghost use Rattle.vs_schema.specs.Rules.{schema_of};
ghost use Rattle.vs_filter.specs.Causes.{meant_as};
ghost use Rattle.vs_filter.specs.Rules.{first_unbound, picked_by};
ghost use Rattle.vs_log.specs.Laws.{HasNewGtids};
ghost use Rattle.vs_log.specs.Meaning.{log_meant};
ghost use Rattle.vs_log.specs.Productions.{StandsAt};
ghost use Rattle.vs_entries.specs.Pieces.{log_fed};
ghost use Rattle.vs_entries.specs.Rules.{rules_of};
ghost use Rattle.vs_command.specs.declared.status.RequestFault.{RequestFault};
ghost use Rattle.vs_command.specs.Causes.{IsBindingFault};
ghost use Rattle.vs_command.specs.Fetched.{
  ArePlaced,
  HasGiven,
  HasGivenAll,
  IsFetchedOf,
  IsOfShard,
  IsSameLog,
  read_as,
};
ghost use Rattle.vs_command.specs.Outside.{GoesOn, KeepsName};
ghost use Rattle.vs_command.specs.Stages.{HasBinding};
ghost use Rattle.vs_command.specs.Streaming.{HasBadSchema, IsFaultOfBinding, IsUnboundFault};

use crate::fetched::{Fetched, FetchedShard, LogFault, Placed};
use crate::status::RequestFault;
use std::alloc::{AllocError, Global};
use std::sync::Wait;
use vs_base::{List, OutOfMemory, ShardName};
use vs_entries::{LogRefusal, Reader, Took};
use vs_filter::{Bound, Filter, FilterRefusal};
use vs_gtid::GtidSet;
use vs_log::{law_distinct, law_growth};
use vs_outside::{AskEnd, Failed, Feed, Got, Opened, Tablets};
use vs_rows::Maps;
use vs_schema::{Schema, SchemaRefusal};

/// Why a feed was not read to its end.
#[derive(Debug, Clone, Copy, PartialEq, Eq)]
pub enum FeedEnd {
    Failed,
    Memory,
}

/// Why a shard's log was not fetched.
#[derive(Debug, Drop)]
pub enum FetchEnd {
    Memory,
    /// The schema text is refused at this line.
    BadSchema { line: usize },
    /// The select of a rule doesn't stand on its table.
    Refused(RequestFault),
    /// The log could not be opened.
    OpenFault,
    /// A read of the log failed.
    FeedFault,
}

/// How many bytes a read asks for.
const READ_SIZE: usize = 65536;

/// Takes the entries that a reader has whole, behind those that it gave before.
fn drain(reader: &mut Reader, entries: &mut List<Placed>) -> Result<Option<LogFault>, OutOfMemory>
    requires { HasGiven reader.old entries.old }
    ensures given { OnOk result (HasGiven reader.new entries.new) }
    ensures same { OnOk result (IsSameLog reader.old reader.new) }
    ensures all { IfOk result (λ fault. HasGivenAll reader.new entries.new fault) }
{
    'entries: loop {
        match reader.next_entry() {
            Ok(Took::Entry { entry, at, .. }) => entries.push(Placed { entry, at })?,
            Ok(Took::More) => return Ok(None),
            Err(LogRefusal::BadLog { offset, why }) => return Ok(Some(LogFault { offset, why })),
            Err(LogRefusal::Memory) => return Err(AllocError),
        }
    }
}

/// The base of the log that a reader was fed.
fn base_of(alloc: Global, reader: &Reader) -> Result<GtidSet, OutOfMemory>
    ensures { IfOk result (λ b. b ≡ (log_fed reader.now).base) }
{
    match reader.base() {
        Some(base) => base.copy(alloc),
        None => Ok(GtidSet::new(alloc)),
    }
}

/// How many entries are whole, where the base is known.
fn mark_of(reader: &mut Reader, entries: &mut List<Placed>) -> Result<Option<usize>, OutOfMemory>
    requires { HasGiven reader.old entries.old }
    ensures given { OnOk result (HasGiven reader.new entries.new) }
    ensures same { OnOk result (IsSameLog reader.old reader.new) }
{
    if reader.base().is_none() {
        return Ok(None);
    }
    drain(reader, entries)?;
    Ok(Some(entries.as_slice().len()))
}

/// What was fetched, where a reader was fed the whole log.
fn finish(
    alloc: Global,
    reader: Reader,
    entries: List<Placed>,
    mark: Option<usize>,
) -> Result<Fetched, OutOfMemory>
    requires { HasGiven reader entries }
    ensures log { IfOk result (λ f. read_as f ≡ log_fed reader) }
    ensures places { IfOk result (λ f. ArePlaced (StandsAt (rules_of reader.keyspace reader.schema) reader.bytes) f.entries) }
    ensures mark { IfOk result (λ f. f.mark ≡ mark) }
{
    let mut reader = reader;
    let mut entries = entries;
    let fault = drain(&mut reader, &mut entries)?;
    let base = base_of(alloc, &reader)?;
    Ok(Fetched {
        base,
        entries,
        fault,
        mark,
    })
}

/// Reads a feed from its front to its end, again and again while it has nothing yet.
fn read_feed<R: Wait, F: Feed>(
    rt: &R,
    alloc: Global,
    feed: &mut F,
    schema: &Schema,
    keyspace: &[u8],
) -> Result<Fetched, FeedEnd>
    requires { IfSome (F.all feed.old) (λ _. F.given feed.old ≡ Some []) }
    ensures log { IfOk result (λ f. (bytes : Items ℕ) × (read_as f ≡ log_meant (rules_of keyspace.now schema.now) bytes) × ArePlaced (StandsAt (rules_of keyspace.now schema.now) bytes) f.entries × IfSome (F.all feed.old) (λ all. bytes ≡ all)) }
    ensures marked { IfOk result (λ f. f.mark ≢ None → Rose (F.waits feed.old) (F.waits feed.new)) }
    ensures origin { F.origin feed.new ≡ F.origin feed.old }
    ensures sound { F.sound feed.new ≡ F.sound feed.old }
    ensures later { F.faults feed.old ≤ F.faults feed.new }
    ensures failed { result ≡ Err FeedEnd.Failed → Rose (F.faults feed.old) (F.faults feed.new) }
{
    law_growth::<Maps>();
    let Ok(mut reader) = Reader::new(alloc, schema, keyspace) else {
        return Err(FeedEnd::Memory);
    };
    let mut buf = [0u8; READ_SIZE];
    let mut entries = List::new(alloc);
    let mut mark = None;
    for _ in rt.forever() {
        match feed.read(&mut buf) {
            Ok(Got::Bytes(n)) => match reader.feed(&buf[..n]) {
                Ok(()) => {}
                Err(_) => return Err(FeedEnd::Memory),
            },
            Ok(Got::NotYet) => {
                if mark.is_none() {
                    let Ok(now) = mark_of(&mut reader, &mut entries) else {
                        return Err(FeedEnd::Memory);
                    };
                    mark = now;
                }
            }
            Ok(Got::End) => {
                let Ok(fetched) = finish(alloc, reader, entries, mark) else {
                    return Err(FeedEnd::Memory);
                };
                return Ok(fetched);
            }
            Err(Failed) => return Err(FeedEnd::Failed),
        }
    }
    unreachable!()
}

/// A schema that was read, and the filter bound to it.
#[derive(Drop)]
struct Binding {
    schema: Schema,
    bound: Bound,
}

/// Reads a schema text, and binds the filter to it.
fn read_schema(alloc: Global, filter: &Filter, text: &[u8]) -> Result<Binding, FetchEnd>
    ensures reads { IfOk result (λ b. schema_of text.now ≡ Ok b.schema) }
    ensures binds { IfOk result (λ b. first_unbound (map meant_as filter.now.rules) b.schema.tables ≡ None) }
    ensures picks { IfOk result (λ b. b.bound.tables ≡ picked_by (map meant_as filter.now.rules) b.schema.tables) }
    ensures bad { (line : ℕ) → result ≡ Err (FetchEnd.BadSchema line) → schema_of text.now ≡ Err (SchemaRefusal.BadSchema line) }
    ensures refused { (fault : RequestFault) → result ≡ Err (FetchEnd.Refused fault) → IsFaultOfBinding text.now (map meant_as filter.now.rules) fault }
    ensures no_open { result ≡ Err FetchEnd.OpenFault → ⊥ }
    ensures no_feed { result ≡ Err FetchEnd.FeedFault → ⊥ }
{
    let schema = match Schema::read(alloc, text) {
        Ok(schema) => schema,
        Err(SchemaRefusal::BadSchema { line }) => return Err(FetchEnd::BadSchema { line }),
        Err(SchemaRefusal::Memory) => return Err(FetchEnd::Memory),
    };
    match filter.bind(alloc, &schema) {
        Ok(bound) => Ok(Binding { schema, bound }),
        Err(FilterRefusal::Unbound { index, why }) => {
            Err(FetchEnd::Refused(RequestFault::Unbound { index, why }))
        }
        Err(_) => Err(FetchEnd::Memory),
    }
}

/// The log of a shard, read to its end, and the filter bound to the shard's schema; or none where the
/// cluster lacks the shard. The feed is given back, unread where the schema text or a rule is refused.
pub fn fetch_log<R: Wait, T: Tablets>(
    rt: &R,
    alloc: Global,
    tablets: &mut T,
    name: &ShardName,
    filter: &Filter,
) -> Result<Option<FetchedShard>, FetchEnd>
    ensures log { IfOk result (λ o. MatchOption o (IfSome (T.cluster tablets.old) (λ c. find_shard c name.now ≡ None)) (λ f. (text bytes : Items ℕ) × IsFetchedOf name.now (map meant_as filter.now.rules) text bytes f.log f.bound.tables × IfSome (T.cluster tablets.old) (λ c. IsOfShard (find_shard c name.now) text bytes))) }
    ensures new_gtids { IfOk result (λ o. IfSome o (λ f. HasNewGtids (read_as f.log))) }
    ensures marked { IfOk result (λ o. IfSome o (λ f. f.log.mark ≢ None → Rose (T.waits tablets.old name.now) (T.waits tablets.new name.now))) }
    ensures cluster { T.cluster tablets.new ≡ T.cluster tablets.old }
    ensures bad_schema { (line : ℕ) → result ≡ Err (FetchEnd.BadSchema line) → IfSome (T.cluster tablets.old) (λ c. HasBadSchema (find_shard c name.now) line) }
    ensures binding { (fault : RequestFault) → result ≡ Err (FetchEnd.Refused fault) → IsBindingFault fault }
    ensures refused { (fault : RequestFault) → result ≡ Err (FetchEnd.Refused fault) → IfSome (T.cluster tablets.old) (λ c. IsUnboundFault (find_shard c name.now) (map meant_as filter.now.rules) fault) }
    ensures open_failed { result ≡ Err FetchEnd.OpenFault → Rose (T.open_faults tablets.old name.now) (T.open_faults tablets.new name.now) }
    ensures feed_opened { result ≡ Err FetchEnd.FeedFault → IfSome (T.cluster tablets.old) (λ c. HasBinding (find_shard c name.now) (map meant_as filter.now.rules)) }
    ensures feed_failed { result ≡ Err FetchEnd.FeedFault → Rose (T.faults tablets.old name.now) (T.faults tablets.new name.now) }
    ensures patterns { T.pattern_faults tablets.new ≡ T.pattern_faults tablets.old }
    ensures goes_on { GoesOn T.cluster T.faults T.waits T.open_faults T.list_faults T.sound tablets.old tablets.new }
    ensures gives_back { GivesAllBack (T.opened tablets.old) (T.returned tablets.old) (T.opened tablets.new) (T.returned tablets.new) }
    ensures folder { T.folder tablets.new ≡ T.folder tablets.old }
    ensures others { (n : ShardName) → same_name name.now n ≡ false → KeepsName T.faults T.waits T.open_faults tablets.old tablets.new n }
{
    law_distinct::<Maps>();
    let opened = match tablets.open_log(alloc, name) {
        Ok(Some(opened)) => opened,
        Ok(None) => return Ok(None),
        Err(AskEnd::Failed) => return Err(FetchEnd::OpenFault),
        Err(AskEnd::Memory) => return Err(FetchEnd::Memory),
    };
    let Opened {
        mut feed,
        schema: text,
    } = opened;
    let binding = match read_schema(alloc, filter, text.as_bytes()) {
        Ok(binding) => binding,
        Err(end) => {
            tablets.give_back(name, feed);
            return Err(end);
        }
    };
    let Binding { schema, bound } = binding;
    let read = read_feed(rt, alloc, &mut feed, &schema, name.keyspace.as_bytes());
    tablets.give_back(name, feed);
    match read {
        Ok(log) => Ok(Some(FetchedShard { log, bound })),
        Err(FeedEnd::Memory) => Err(FetchEnd::Memory),
        Err(FeedEnd::Failed) => Err(FetchEnd::FeedFault),
    }
}
