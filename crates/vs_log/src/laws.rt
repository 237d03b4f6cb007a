//! Each law holds whatever is known of tables, at any type `M` of it. The functions do nothing.
ghost use Rattle.vs_log.specs.Laws.{
  AddsChanges,
  AlwaysGrows,
  AlwaysKnowsItsBase,
  AlwaysMeansByProductions,
  AlwaysNewGtids,
  AlwaysOfWholeLog,
  AlwaysOnePlace,
  AlwaysReadsInSteps,
  AlwaysTakesBeginnings,
  AlwaysTellsEntries,
};

/// The table takes an event where, and only where, the beginning of a log goes on with it.
#[tactic(auto, using(crate::proofs::Beginnings::takes_beginnings))]
#[inline(always)]
pub fn law_beginnings<M>()
    ensures { AlwaysTakesBeginnings M }
{}

/// Each list of bytes means one log by the productions: the one that the table gives.
#[inline(always)]
pub fn law_meaning<M>()
    ensures { AlwaysMeansByProductions M }
{}

/// With more bytes entries come behind those that stood, at the same places, and a fault stays.
#[inline(always)]
pub fn law_growth<M>()
    ensures { AlwaysGrows M }
{}

/// The base is known where the beginning of a log that the bytes are tells it, and is then the log's,
/// whatever bytes come. Where the log has an entry, it is known.
#[tactic(auto, using(crate::proofs::Bases::knows_its_base))]
#[inline(always)]
pub fn law_base<M>()
    ensures { AlwaysKnowsItsBase M }
{}

/// The base and the entries are those of the longest front of the bytes that is a whole log.
/// Where no front is one, there are none.
#[inline(always)]
pub fn law_longest<M>()
    ensures { AlwaysOfWholeLog M }
{}

/// No GTID of a log stands twice, or lies in its base; and with the base, the GTIDs of its front never
/// make a set of over 1,024 intervals.
#[tactic(auto, using(crate::proofs::Distinct::new_gtids))]
#[inline(always)]
pub fn law_distinct<M>()
    ensures { AlwaysNewGtids M }
{}

/// The GTID event of an entry stands at one place, and an entry ends at one.
#[inline(always)]
pub fn law_places<M>()
    ensures { AlwaysOnePlace M }
{}

/// What a reader that takes one event after the other has of the log's meaning, and what the log means
/// where it takes none.
#[inline(always)]
pub fn law_steps<M>()
    ensures { AlwaysReadsInSteps M }
{}

/// Which entry is open behind each event, and where entries begin and end.
#[inline(always)]
pub fn law_entries<M>()
    ensures { AlwaysTellsEntries M }
{}

/// The changes of further rows events come behind those of the transaction.
#[inline(always)]
pub fn law_changes()
    ensures { AddsChanges }
{}
