//! The names and positions of a journal text that is in form.
ghost use Rattle.std.specs.Prelude.{◌≡◌, ◌≤◌, [], true, IfOk, MatchResult, length, map, option_map};
ghost use Rattle.std.specs.BTreeMap.{keys};
ghost use Rattle.std.specs.List.Sorted.{IsStrictlySortedBy};
ghost use Rattle.vs_base.specs.Names.{names_differ};
ghost use Rattle.vs_journal.specs.Judgement.{
  PlainName,
  all_some,
  by_names,
  by_order,
  gathered_entries,
  gathered_keys,
  is_lawful_name,
  judged_journal,
  lawful_name,
  lawful_successor,
  plain_journal,
  plain_name,
  plain_successor,
  position_in,
  shards_journal,
};
ghost use Rattle.vs_journal.specs.NameOrder.{entry_of, name_cmp, plain_entry};
ghost use Rattle.vs_journal.specs.Refusals.{IsJudged, is_want_of_memory};

use crate::JournalRefusal;
use crate::parsed::{Member, ParsedJournal};
use std::alloc::Global;
use std::collections::{BTreeMap, BTreeSet};
use vs_base::{List, OutOfMemory, ShardName};
use vs_gtid::{GtidRefusal, GtidSet, JournalValue, Successor};
use vs_outside::{names_keyspace, names_shard};

/// How many participants a journal may have, and how many successors.
const MOST_MEMBERS: usize = 64;

/// The name, where it is lawful.
fn lawful_name(alloc: Global, member: &Member) -> Result<Option<ShardName>, OutOfMemory>
    ensures { IfOk result (λ o. option_map plain_name o ≡ lawful_name member.now) }
{
    if !(names_keyspace(member.keyspace.as_bytes()) && names_shard(member.shard.as_bytes())) {
        return Ok(None);
    }
    Ok(Some(ShardName {
        keyspace: member.keyspace.copy(alloc)?,
        shard: member.shard.copy(alloc)?,
    }))
}

fn is_want_of_memory(refusal: &GtidRefusal) -> bool
    ensures { result ≡ is_want_of_memory refusal.now }
{
    matches!(refusal, GtidRefusal::Memory)
}

/// The set of GTIDs of a text that isn't empty.
fn position_in(alloc: Global, text: &[u8]) -> Result<Option<GtidSet>, JournalRefusal>
    ensures { MatchResult result (λ o. o ≡ position_in text.now) (λ e. e ≡ JournalRefusal.Memory) }
{
    if text.is_empty() {
        return Ok(None);
    }
    match GtidSet::parse(alloc, text) {
        Ok(set) => Ok(Some(set)),
        Err(refusal) => {
            if is_want_of_memory(&refusal) {
                return Err(JournalRefusal::Memory);
            }
            Ok(None)
        }
    }
}

fn lawful_successor(alloc: Global, member: &Member) -> Result<Option<Successor>, JournalRefusal>
    ensures { MatchResult result (λ o. option_map plain_successor o ≡ lawful_successor member.now) (λ e. e ≡ JournalRefusal.Memory) }
{
    let Some(name) = lawful_name(alloc, member)? else {
        return Ok(None);
    };
    let Some(position) = position_in(alloc, member.gtid.as_bytes())? else {
        return Ok(None);
    };
    Ok(Some(Successor { name, position }))
}

/// The names, where all are lawful.
fn lawful_names(alloc: Global, members: &[Member]) -> Result<Option<Vec<ShardName>>, JournalRefusal>
    ensures { MatchResult result (λ o. option_map (λ v. map plain_name v.items) o ≡ all_some lawful_name members.now) (λ e. e ≡ JournalRefusal.Memory) }
{
    let mut names = Vec::new(alloc);
    for member in members {
        match lawful_name(alloc, member)? {
            Some(name) => names.push(name)?,
            None => return Ok(None),
        }
    }
    Ok(Some(names))
}

/// The successors, where all are lawful.
fn lawful_successors(
    alloc: Global,
    members: &[Member],
) -> Result<Option<Vec<Successor>>, JournalRefusal>
    ensures { MatchResult result (λ o. option_map (λ v. map plain_successor v.items) o ≡ all_some lawful_successor members.now) (λ e. e ≡ JournalRefusal.Memory) }
{
    let mut successors = Vec::new(alloc);
    for member in members {
        match lawful_successor(alloc, member)? {
            Some(successor) => successors.push(successor)?,
            None => return Ok(None),
        }
    }
    Ok(Some(successors))
}

/// The names in order, or none where one comes twice.
fn gathered_names(
    alloc: Global,
    names: Vec<ShardName>,
) -> Result<Option<BTreeSet<ShardName>>, JournalRefusal>
    ensures { MatchResult result (λ o. option_map (λ s. s.keys) o ≡ gathered_keys name_cmp [] names.items) (λ e. e ≡ JournalRefusal.Memory) }
{
    let mut gathered = BTreeSet::new(alloc);
    for name in names {
        if !gathered.insert(name)? {
            return Ok(None);
        }
    }
    Ok(Some(gathered))
}

/// The successors in the order of their names, or none where one comes twice.
fn gathered_successors(
    alloc: Global,
    successors: Vec<Successor>,
) -> Result<Option<BTreeMap<ShardName, GtidSet>>, JournalRefusal>
    ensures { MatchResult result (λ o. option_map (λ m. m.entries) o ≡ gathered_entries name_cmp [] (map entry_of successors.items)) (λ e. e ≡ JournalRefusal.Memory) }
{
    let mut gathered = BTreeMap::new(alloc);
    for successor in successors {
        let Successor { name, position } = successor;
        if gathered.insert(name, position)?.is_some() {
            return Ok(None);
        }
    }
    Ok(Some(gathered))
}

/// The names as a list.
fn listed_names(alloc: Global, names: BTreeSet<ShardName>) -> Result<List<ShardName>, OutOfMemory>
    ensures same { IfOk result (λ l. l ≡ names.keys) }
    ensures differ { IfOk result (λ l. names_differ l ≡ true) }
{
    Ok(List::from_vec(names.into_iter().collect(alloc)?))
}

fn collected_successors(
    alloc: Global,
    successors: BTreeMap<ShardName, GtidSet>,
) -> Result<List<Successor>, OutOfMemory>
    ensures { IfOk result (λ l. map entry_of l ≡ successors.entries) }
{
    let mut listed = Vec::new(alloc);
    for (name, position) in successors {
        listed.push(Successor { name, position })?;
    }
    Ok(List::from_vec(listed))
}

/// The successors as a list.
fn listed_successors(
    alloc: Global,
    successors: BTreeMap<ShardName, GtidSet>,
) -> Result<List<Successor>, OutOfMemory>
    requires { IsStrictlySortedBy name_cmp (keys successors) }
    ensures same { IfOk result (λ l. map entry_of l ≡ successors.entries) }
    ensures differ { IfOk result (λ l. names_differ (map (λ s. s.name) l) ≡ true) }
{
    let listed = collected_successors(alloc, successors)?;
    Ok(listed)
}

/// The journal of shards with these names.
fn shards_journal(
    alloc: Global,
    id: i64,
    participants: BTreeSet<ShardName>,
    successors: BTreeMap<ShardName, GtidSet>,
) -> Result<JournalValue, OutOfMemory>
    requires few_participants { length participants.keys ≤ 64 }
    requires few_successors { length successors.entries ≤ 64 }
    requires ordered { IsStrictlySortedBy name_cmp (keys successors) }
    ensures { IfOk result (λ j. plain_journal j ≡ shards_journal id (map plain_name participants.keys) (map plain_entry successors.entries)) }
{
    let participants = listed_names(alloc, participants)?;
    let successors = listed_successors(alloc, successors)?;
    Ok(JournalValue {
        id,
        shards: true,
        participants,
        successors,
    })
}

/// The journal of shards with these names, none where one comes twice.
fn by_order(
    alloc: Global,
    id: i64,
    participants: Option<BTreeSet<ShardName>>,
    successors: Option<BTreeMap<ShardName, GtidSet>>,
) -> Result<JournalValue, JournalRefusal>
    ensures { IsJudged (by_order id (option_map (map plain_name) (option_map (λ s. s.keys) participants)) (option_map (map plain_entry) (option_map (λ m. m.entries) successors))) result }
{
    let Some(participants) = participants else {
        return Err(JournalRefusal::RepeatedParticipant);
    };
    let Some(successors) = successors else {
        return Err(JournalRefusal::RepeatedSuccessor);
    };
    if participants.len() > MOST_MEMBERS || successors.len() > MOST_MEMBERS {
        return Err(JournalRefusal::TooManyNames);
    }
    Ok(shards_journal(alloc, id, participants, successors)?)
}

/// The journal of shards with these names, none where one is unlawful.
fn by_names(
    alloc: Global,
    size: usize,
    id: i64,
    participants: Option<Vec<ShardName>>,
    successors: Option<Vec<Successor>>,
) -> Result<JournalValue, JournalRefusal>
    ensures { IsJudged (by_names size id (option_map (λ v. map plain_name v.items) participants) (option_map (λ v. map plain_successor v.items) successors)) result }
{
    let Some(participants) = participants else {
        return Err(JournalRefusal::BadJournal { at: size });
    };
    let Some(successors) = successors else {
        return Err(JournalRefusal::BadJournal { at: size });
    };
    if participants.is_empty() || successors.is_empty() {
        return Err(JournalRefusal::BadJournal { at: size });
    }
    let participants = gathered_names(alloc, participants)?;
    let successors = gathered_successors(alloc, successors)?;
    by_order(alloc, id, participants, successors)
}

/// The journal that a text of so many bytes says, which is in form.
pub(crate) fn judged_journal(
    alloc: Global,
    size: usize,
    journal: &ParsedJournal,
) -> Result<JournalValue, JournalRefusal>
    ensures { IsJudged (judged_journal size journal.now) result }
{
    if !journal.shards {
        return Ok(JournalValue {
            id: journal.id,
            shards: false,
            participants: List::new(alloc),
            successors: List::new(alloc),
        });
    }
    let participants = lawful_names(alloc, journal.participants.as_slice())?;
    let successors = lawful_successors(alloc, journal.successors.as_slice())?;
    by_names(alloc, size, journal.id, participants, successors)
}
