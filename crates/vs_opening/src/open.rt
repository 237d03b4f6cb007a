ghost use Rattle.std.specs.Prelude.{
  ◌≡◌,
  ◌≤◌,
  ◌<◌,
  ◌++◌,
  ◌∷◌,
  [],
  Ok,
  Err,
  None,
  Some,
  IfErr,
  IfOk,
  IfSome,
  IsSomeAnd,
  IsTrue,
  OnErr,
  OnOk,
  map,
  ℕ,
  List as Items,
};
ghost use Rattle.vs_outside.specs.Clusters.{find_shard};
ghost use Rattle.vs_outside.specs.Counts.{KeepsCounts, KeepsOthers, NoneFell, Rose};
ghost use Rattle.vs_outside.specs.Feeds.{GivesAllBack, times};
ghost use Rattle.vs_schema.specs.Laws.{IsLawful};
ghost use Rattle.vs_schema.specs.Rules.{schema_of};
ghost use Rattle.vs_filter.specs.Causes.{meant_as};
ghost use Rattle.vs_filter.specs.Rules.{first_unbound, picked_by};
ghost use Rattle.vs_opening.specs.Shards.{IsNotOpened, IsOpened, IsRefused};

use std::alloc::Global;
use thiserror::Error;
use vs_base::ShardName;
use vs_filter::{Bound, Filter, FilterRefusal};
use vs_outside::{AskEnd, Opened, Tablets};
use vs_schema::{Schema, SchemaRefusal};
use vs_select::SelectRefusal;

/// A feed at the front of a shard's log, the schema of that log, and the filter bound to it.
#[derive(Drop)]
pub struct Ready<F> {
    pub feed: F,
    pub schema: Schema,
    pub bound: Bound,
}

/// Why a shard isn't opened.
#[derive(Debug, Drop, Error)]
pub enum OpenEnd {
    /// The cluster lacks the shard.
    #[error("the cluster lacks the shard")]
    Unknown,
    /// The log could not be opened.
    #[error("the fetch failed")]
    Failed,
    /// The schema text is refused at this line.
    #[error("bad schema in line {line}")]
    BadSchema { line: usize },
    /// The select of this rule, counted from 0, doesn't stand on its table.
    #[error("unbound rule {index}")]
    Unbound { index: usize, why: SelectRefusal },
    #[error("out of memory")]
    Memory,
}

/// A schema that was read, and the filter bound to it.
#[derive(Drop)]
struct Binding {
    schema: Schema,
    bound: Bound,
}

/// Reads a schema text, and binds the filter to it.
fn bind_to(alloc: Global, filter: &Filter, text: &[u8]) -> Result<Binding, OpenEnd>
    ensures reads { IfOk result (λ b. schema_of text.now ≡ Ok b.schema) }
    ensures lawful { IfOk result (λ b. IsLawful b.schema) }
    ensures binds { IfOk result (λ b. first_unbound (map meant_as filter.now.rules) b.schema.tables ≡ None) }
    ensures picks { IfOk result (λ b. b.bound.tables ≡ picked_by (map meant_as filter.now.rules) b.schema.tables) }
    ensures refused { IfErr result (IsRefused text.now (map meant_as filter.now.rules)) }
{
    let schema = match Schema::read(alloc, text) {
        Ok(schema) => schema,
        Err(SchemaRefusal::BadSchema { line }) => return Err(OpenEnd::BadSchema { line }),
        Err(SchemaRefusal::Memory) => return Err(OpenEnd::Memory),
    };
    match filter.bind(alloc, &schema) {
        Ok(bound) => Ok(Binding { schema, bound }),
        Err(FilterRefusal::Unbound { index, why }) => Err(OpenEnd::Unbound { index, why }),
        Err(_) => Err(OpenEnd::Memory),
    }
}

/// Opens the log of a shard, and binds the filter to the shard's schema text. A feed is given back,
/// unread, where the text or a rule is refused.
pub fn open_shard<T: Tablets>(
    alloc: Global,
    tablets: &mut T,
    filter: &Filter,
    name: &ShardName,
) -> Result<Ready<T::Feed>, OpenEnd>
    // what is opened
    ensures told { IfOk result (λ r. IfSome (T.cluster tablets.old) (λ c. IsSomeAnd (find_shard c name.now) (IsOpened (T.Feed.all r.feed) (T.Feed.given r.feed) r.schema))) }
    ensures front { IfOk result (λ r. IfSome (T.Feed.all r.feed) (λ _. T.Feed.given r.feed ≡ Some [])) }
    ensures origin { IfOk result (λ r. T.Feed.origin r.feed ≡ name.now) }
    ensures fresh { IfOk result (λ r. (T.Feed.faults r.feed ≡ 0) × (T.Feed.waits r.feed ≡ 0)) }
    ensures sound_feed { IfOk result (λ r. IsTrue (T.sound tablets.old) → IsTrue (T.Feed.sound r.feed)) }
    ensures reads { IfOk result (λ r. (text : Items ℕ) × (schema_of text ≡ Ok r.schema)) }
    ensures lawful { IfOk result (λ r. IsLawful r.schema) }
    ensures binds { IfOk result (λ r. first_unbound (map meant_as filter.now.rules) r.schema.tables ≡ None) }
    ensures picks { IfOk result (λ r. r.bound.tables ≡ picked_by (map meant_as filter.now.rules) r.schema.tables) }

    // why not
    ensures cause { IfErr result (λ e. IfSome (T.cluster tablets.old) (λ c. IsNotOpened (find_shard c name.now) (map meant_as filter.now.rules) e)) }
    ensures failed { result ≡ Err OpenEnd.Failed → Rose (T.open_faults tablets.old name.now) (T.open_faults tablets.new name.now) }

    // which feeds are out
    ensures opened { OnOk result (T.opened tablets.new ≡ T.opened tablets.old ++ name.now ∷ []) }
    ensures returned { OnOk result (KeepsCounts (T.returned tablets.old) (T.returned tablets.new)) }
    ensures lent { OnOk result (T.returned tablets.new name.now < times name.now (T.opened tablets.new)) }
    ensures gives_back { OnErr result (GivesAllBack (T.opened tablets.old) (T.returned tablets.old) (T.opened tablets.new) (T.returned tablets.new)) }
    ensures other_returned { KeepsOthers name.now (T.returned tablets.old) (T.returned tablets.new) }

    // what stays
    ensures later { NoneFell (T.open_faults tablets.old) (T.open_faults tablets.new) }
    ensures others { KeepsOthers name.now (T.open_faults tablets.old) (T.open_faults tablets.new) }
    ensures steady { IsTrue (T.sound tablets.old) → KeepsCounts (T.open_faults tablets.old) (T.open_faults tablets.new) }
    ensures faults { KeepsCounts (T.faults tablets.old) (T.faults tablets.new) }
    ensures waits { KeepsCounts (T.waits tablets.old) (T.waits tablets.new) }
    ensures cluster { T.cluster tablets.new ≡ T.cluster tablets.old }
    ensures list_faults { T.list_faults tablets.new ≡ T.list_faults tablets.old }
    ensures pattern_faults { T.pattern_faults tablets.new ≡ T.pattern_faults tablets.old }
    ensures folder { T.folder tablets.new ≡ T.folder tablets.old }
    ensures sound { T.sound tablets.new ≡ T.sound tablets.old }
{
    let opened = match tablets.open_log(alloc, name) {
        Ok(Some(opened)) => opened,
        Ok(None) => return Err(OpenEnd::Unknown),
        Err(AskEnd::Failed) => return Err(OpenEnd::Failed),
        Err(AskEnd::Memory) => return Err(OpenEnd::Memory),
    };
    let Opened { feed, schema: text } = opened;
    match bind_to(alloc, filter, text.as_bytes()) {
        Ok(Binding { schema, bound }) => Ok(Ready {
            feed,
            schema,
            bound,
        }),
        Err(end) => {
            tablets.give_back(name, feed);
            Err(end)
        }
    }
}
