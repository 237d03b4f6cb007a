ghost use Rattle.std.specs.Prelude.{
  ◌≡◌,
  ◌≤◌,
  ◌++◌,
  All,
  Err,
  IfErr,
  IfOk,
  OnOk,
  length,
  List as Items,
  true,
  false,
};
ghost use Rattle.std.specs.List.{AllByRecursion, AllZip};
ghost use Rattle.vs_base.specs.Names.{FitsName, names_differ};
ghost use Rattle.vs_outside.specs.Counts.{Rose};
ghost use Rattle.vs_opening.specs.declared.named.Named.{Named};
ghost use Rattle.vs_opening.specs.declared.names.NamesEnd.TheVariants.{Failed};
ghost use Rattle.vs_opening.specs.Asked.{
  AreAsked,
  AreNotNamed,
  IsAskedBy,
  IsNamedBy,
  IsListed,
  IsUnlisted,
  StandsForAll,
  asks_for_all,
  shards_named,
};
ghost use Rattle.vs_opening.specs.Outside.{OnlyLists};

use crate::OutOfMemory;
use crate::named::{Named, name_by};
use crate::repeated::first_repeated;
use std::alloc::Global;
use thiserror::Error;
use vs_base::{List, ShardName, Text};
use vs_outside::{AskEnd, Tablets};
use vs_request::Wanted;

/// Why a request's entries don't name shards for a stream. A name without a shard stands for all shards
/// of its keyspace.
#[derive(Debug, Drop, Error)]
pub enum NamesEnd {
    /// The cluster has no shard of the keyspace.
    #[error("the cluster lacks the keyspace")]
    Unknown { name: ShardName },
    /// The shards of the keyspace could not be listed.
    #[error("the listing failed")]
    Failed { name: ShardName },
    /// So many shards are asked for.
    #[error("{n} shards are too many")]
    TooMany { n: usize },
    /// The first name that stands there for the second time.
    #[error("a shard is asked for twice")]
    Repeated { name: ShardName },
    #[error("out of memory")]
    Memory,
}

impl From<OutOfMemory> for NamesEnd {
    ghost use Rattle.vs_opening.specs.declared.names.NamesEnd.TheVariants.{Memory};

    ghost from_gives = { λ _ e. e ≡ Memory };

    fn from(_refused: OutOfMemory) -> NamesEnd {
        NamesEnd::Memory
    }
}

/// How many shards a stream has, at most.
const MOST_SHARDS: usize = 64;

/// The name that stands for all shards of the entry's keyspace.
fn name_of_all(alloc: Global, wanted: &Wanted) -> Result<ShardName, OutOfMemory>
    requires fits { length wanted.now.keyspace ≤ 64 }
    requires all { asks_for_all wanted.now ≡ true }
    ensures { IfOk result (StandsForAll wanted.now) }
{
    Ok(ShardName {
        keyspace: wanted.keyspace.copy(alloc)?,
        shard: Text::new(alloc),
    })
}

/// All shards of the entry's keyspace, ascending.
fn list_shards<T: Tablets>(
    alloc: Global,
    tablets: &mut T,
    wanted: &Wanted,
) -> Result<Vec<Text>, NamesEnd>
    requires fits { length wanted.now.keyspace ≤ 64 }
    requires all { asks_for_all wanted.now ≡ true }
    ensures listed { IfOk result (λ shards. IsListed (T.cluster tablets.old) wanted.now.keyspace shards.items) }
    ensures unlisted { IfErr result (IsUnlisted (T.cluster tablets.old) wanted.now) }
    ensures failed { (name : ShardName) → result ≡ Err (Failed name) → Rose (T.list_faults tablets.old) (T.list_faults tablets.new) }
    ensures only { OnlyLists T.cluster T.opened T.returned T.faults T.waits T.open_faults T.list_faults T.pattern_faults T.folder T.sound tablets.old tablets.new }
{
    match tablets.list(alloc, wanted.keyspace.as_bytes()) {
        Ok(Some(shards)) => Ok(shards),
        Ok(None) => Err(NamesEnd::Unknown {
            name: name_of_all(alloc, wanted)?,
        }),
        Err(AskEnd::Failed) => Err(NamesEnd::Failed {
            name: name_of_all(alloc, wanted)?,
        }),
        Err(AskEnd::Memory) => Err(NamesEnd::Memory),
    }
}

/// Appends shards of the entry's keyspace.
fn push_shards(
    alloc: Global,
    wanted: &Wanted,
    shards: &[Text],
    named: &mut List<Named>,
) -> Result<(), OutOfMemory>
    requires keyspace { length wanted.now.keyspace ≤ 64 }
    requires shards { AllByRecursion (λ shard. length shard ≤ 64) shards.now }
    ensures { OnOk result ((part : Items Named) × (named.new ≡ named.old ++ part) × AllZip (IsNamedBy wanted.now) shards.now part) }
{
    for shard in shards {
        named.push(name_by(alloc, wanted, shard)?)?;
    }
    Ok(())
}

/// Appends the shards that an entry asks for.
fn push_asked<T: Tablets>(
    alloc: Global,
    tablets: &mut T,
    wanted: &Wanted,
    named: &mut List<Named>,
) -> Result<(), NamesEnd>
    requires { FitsName wanted.now.keyspace wanted.now.shard }
    ensures asked { OnOk result ((part : Items Named) × (named.new ≡ named.old ++ part) × IsAskedBy (T.cluster tablets.old) wanted.now part) }
    ensures unlisted { IfErr result (IsUnlisted (T.cluster tablets.old) wanted.now) }
    ensures failed { (name : ShardName) → result ≡ Err (Failed name) → Rose (T.list_faults tablets.old) (T.list_faults tablets.new) }
    ensures quiet { asks_for_all wanted.now ≡ false → T.list_faults tablets.new ≡ T.list_faults tablets.old }
    ensures only { OnlyLists T.cluster T.opened T.returned T.faults T.waits T.open_faults T.list_faults T.pattern_faults T.folder T.sound tablets.old tablets.new }
{
    if wanted.shard.as_bytes().is_empty() {
        let shards = list_shards(alloc, tablets, wanted)?;
        push_shards(alloc, wanted, shards.as_slice(), named)?;
    } else {
        named.push(name_by(alloc, wanted, &wanted.shard)?)?;
    }
    Ok(())
}

/// All shards that the entries ask for.
fn ask_all<T: Tablets>(
    alloc: Global,
    tablets: &mut T,
    entries: &[Wanted],
) -> Result<List<Named>, NamesEnd>
    requires { AllByRecursion (λ w. FitsName w.keyspace w.shard) entries.now }
    ensures asked { IfOk result (AreAsked (T.cluster tablets.old) entries.now) }
    ensures cause { IfErr result (AreNotNamed (T.cluster tablets.old) entries.now) }
    ensures failed { (name : ShardName) → result ≡ Err (Failed name) → Rose (T.list_faults tablets.old) (T.list_faults tablets.new) }
    ensures quiet { All (λ w. asks_for_all w ≡ false) entries.now → T.list_faults tablets.new ≡ T.list_faults tablets.old }
    ensures only { OnlyLists T.cluster T.opened T.returned T.faults T.waits T.open_faults T.list_faults T.pattern_faults T.folder T.sound tablets.old tablets.new }
{
    let mut named = List::new(alloc);
    for wanted in entries {
        push_asked(alloc, tablets, wanted, &mut named)?;
    }
    Ok(named)
}

/// The shards that a request's entries ask for, in their order: of an entry without a shard all that its
/// keyspace has, ascending.
pub fn names_of<T: Tablets>(
    alloc: Global,
    tablets: &mut T,
    entries: &[Wanted],
) -> Result<Vec<Named>, NamesEnd>
    requires { AllByRecursion (λ w. FitsName w.keyspace w.shard) entries.now }
    ensures asked { IfOk result (λ named. AreAsked (T.cluster tablets.old) entries.now named.items) }
    ensures few { IfOk result (λ named. length named.items ≤ 64) }
    ensures differ { IfOk result (λ named. names_differ (shards_named named.items) ≡ true) }
    ensures cause { IfErr result (AreNotNamed (T.cluster tablets.old) entries.now) }
    ensures failed { (name : ShardName) → result ≡ Err (Failed name) → Rose (T.list_faults tablets.old) (T.list_faults tablets.new) }
    ensures quiet { All (λ w. asks_for_all w ≡ false) entries.now → T.list_faults tablets.new ≡ T.list_faults tablets.old }
    ensures only { OnlyLists T.cluster T.opened T.returned T.faults T.waits T.open_faults T.list_faults T.pattern_faults T.folder T.sound tablets.old tablets.new }
{
    let named = ask_all(alloc, tablets, entries)?;
    let n = named.as_slice().len();
    if n > MOST_SHARDS {
        return Err(NamesEnd::TooMany { n });
    }
    if let Some(name) = first_repeated(alloc, named.as_slice())? {
        return Err(NamesEnd::Repeated { name });
    }
    Ok(named.into_vec())
}
