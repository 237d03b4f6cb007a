ghost use Rattle.std.specs.Prelude.{◌≡◌, true};
ghost use Rattle.vs_outside.specs.Memory.{HaveNoFaults, is_quiet};

use crate::mem_shard::Held;
use crate::mem_shards::{advance, names_of, open_held};
use crate::scripted::{fails_at, push_copy};
use crate::{AskEnd, BuiltPatterns, FeedAnswer, MemFeed, Opened, Openings, PatternEnd, Tablets};
use regex::bytes::Regex;
use std::alloc::Global;
use vs_base::{OutOfMemory, ShardName, Text};

/// The logs of a cluster in memory. Feeds, fetches and listings fail by scripts.
#[derive(Drop)]
pub struct MemTablets {
    alloc: Global,
    folder: String,
    held: Vec<Held>,
    openings: Openings,
    /// The names whose fetch failed, each as often as it did.
    failed: Vec<ShardName>,
    fetches: Vec<bool>,
    next_fetch: usize,
    lists: Vec<bool>,
    next_list: usize,
    list_faults: u64,
    patterns: BuiltPatterns,
    ghost quiet: { is_quiet held.items fetches.items lists.items ≡ true → HaveNoFaults openings.openings.items failed.items list_faults },
}

impl MemTablets {
    ghost use Rattle.std.specs.Prelude.{
      ◌≡◌,
      ◌&&◌,
      ◌++◌,
      ◌∷◌,
      [],
      IsTrue,
      not,
      OnOk,
      OnErr,
      IfOk,
      Some,
    };
    ghost use Rattle.std.specs.List.{list_all};
    ghost use Rattle.vs_base.specs.declared.shard_name.ShardName.{ShardName};
    ghost use Rattle.vs_outside.specs.Clusters.{ClusterBytes};
    ghost use Rattle.vs_outside.specs.Counts.{KeepsCounts};
    ghost use Rattle.vs_outside.specs.Names.{is_keyspace_text, is_shard_text};
    ghost use Rattle.vs_outside.specs.Scripts.{has_no_failure};

    /// Tablets without a shard.
    pub fn new(alloc: Global) -> Result<MemTablets, OutOfMemory>
        ensures cluster { IfOk result (λ t. ⟦<MemTablets as Tablets>⟧.cluster t ≡ Some []) }
        ensures opened { IfOk result (λ t. ⟦<MemTablets as Tablets>⟧.opened t ≡ []) }
        ensures returned { IfOk result (λ t. (n : ShardName) → ⟦<MemTablets as Tablets>⟧.returned t n ≡ 0) }
        ensures faults { IfOk result (λ t. (n : ShardName) → ⟦<MemTablets as Tablets>⟧.faults t n ≡ 0) }
        ensures waits { IfOk result (λ t. (n : ShardName) → ⟦<MemTablets as Tablets>⟧.waits t n ≡ 0) }
        ensures open_faults { IfOk result (λ t. (n : ShardName) → ⟦<MemTablets as Tablets>⟧.open_faults t n ≡ 0) }
        ensures list_faults { IfOk result (λ t. ⟦<MemTablets as Tablets>⟧.list_faults t ≡ 0) }
        ensures pattern_faults { IfOk result (λ t. ⟦<MemTablets as Tablets>⟧.pattern_faults t ≡ 0) }
        ensures folder { IfOk result (λ t. ⟦<MemTablets as Tablets>⟧.folder t ≡ []) }
        ensures sound { IfOk result (λ t. ⟦<MemTablets as Tablets>⟧.sound t ≡ true) }
    {
        Ok(MemTablets {
            alloc,
            folder: String::new(alloc),
            held: Vec::new(alloc),
            openings: Openings::new(alloc),
            failed: Vec::new(alloc),
            fetches: Vec::new(alloc),
            next_fetch: 0,
            lists: Vec::new(alloc),
            next_list: 0,
            list_faults: 0,
            patterns: BuiltPatterns::new(),
        })
    }

    /// Adds a shard. The k-th opening of its log reads by the k-th script, a later one by the
    /// empty script. A name that was added before keeps its first log.
    pub fn add(
        &mut self,
        name: ShardName,
        log: &[u8],
        schema: &[u8],
        scripts: Vec<Vec<FeedAnswer>>,
    ) -> Result<(), OutOfMemory>
        requires keyspace { IsTrue (is_keyspace_text name.keyspace) }
        requires shard { IsTrue (is_shard_text name.shard) }
        ensures ok { OnOk result ((c : ClusterBytes) × (⟦<MemTablets as Tablets>⟧.cluster self.old ≡ Some c) × (⟦<MemTablets as Tablets>⟧.cluster self.new ≡ Some (c ++ record { name = name; log = log.now; schema = schema.now } ∷ []))) }
        ensures sound { OnOk result (⟦<MemTablets as Tablets>⟧.sound self.new ≡ (list_all (λ s. has_no_failure s.items) scripts.items && ⟦<MemTablets as Tablets>⟧.sound self.old)) }
        ensures err { OnErr result ((⟦<MemTablets as Tablets>⟧.cluster self.new ≡ ⟦<MemTablets as Tablets>⟧.cluster self.old) × (⟦<MemTablets as Tablets>⟧.sound self.new ≡ ⟦<MemTablets as Tablets>⟧.sound self.old)) }
        ensures opened { ⟦<MemTablets as Tablets>⟧.opened self.new ≡ ⟦<MemTablets as Tablets>⟧.opened self.old }
        ensures returned { KeepsCounts (⟦<MemTablets as Tablets>⟧.returned self.old) (⟦<MemTablets as Tablets>⟧.returned self.new) }
        ensures faults { KeepsCounts (⟦<MemTablets as Tablets>⟧.faults self.old) (⟦<MemTablets as Tablets>⟧.faults self.new) }
        ensures waits { KeepsCounts (⟦<MemTablets as Tablets>⟧.waits self.old) (⟦<MemTablets as Tablets>⟧.waits self.new) }
        ensures open_faults { KeepsCounts (⟦<MemTablets as Tablets>⟧.open_faults self.old) (⟦<MemTablets as Tablets>⟧.open_faults self.new) }
        ensures list_faults { ⟦<MemTablets as Tablets>⟧.list_faults self.new ≡ ⟦<MemTablets as Tablets>⟧.list_faults self.old }
        ensures pattern_faults { ⟦<MemTablets as Tablets>⟧.pattern_faults self.new ≡ ⟦<MemTablets as Tablets>⟧.pattern_faults self.old }
        ensures folder { ⟦<MemTablets as Tablets>⟧.folder self.new ≡ ⟦<MemTablets as Tablets>⟧.folder self.old }
    {
        let alloc = self.alloc;
        let held = Held {
            name,
            log: Vec::from_slice(alloc, log)?,
            schema: Text::from_bytes(alloc, schema)?,
            scripts,
            next: 0,
        };
        self.held.push(held)?;
        Ok(())
    }

    /// Lets fetches and listings fail: of all values that were given so, over all names, the k-th
    /// says whether the k-th `open_log` fails, and likewise `list`.
    pub fn fails(
        &mut self,
        _alloc: Global,
        fetches: &[bool],
        lists: &[bool],
    ) -> Result<(), OutOfMemory>
        ensures sound { OnOk result (⟦<MemTablets as Tablets>⟧.sound self.new ≡ (⟦<MemTablets as Tablets>⟧.sound self.old && (list_all not fetches.now && list_all not lists.now))) }
        ensures err { OnErr result (⟦<MemTablets as Tablets>⟧.sound self.new ≡ ⟦<MemTablets as Tablets>⟧.sound self.old) }
        ensures cluster { ⟦<MemTablets as Tablets>⟧.cluster self.new ≡ ⟦<MemTablets as Tablets>⟧.cluster self.old }
        ensures opened { ⟦<MemTablets as Tablets>⟧.opened self.new ≡ ⟦<MemTablets as Tablets>⟧.opened self.old }
        ensures returned { KeepsCounts (⟦<MemTablets as Tablets>⟧.returned self.old) (⟦<MemTablets as Tablets>⟧.returned self.new) }
        ensures faults { KeepsCounts (⟦<MemTablets as Tablets>⟧.faults self.old) (⟦<MemTablets as Tablets>⟧.faults self.new) }
        ensures waits { KeepsCounts (⟦<MemTablets as Tablets>⟧.waits self.old) (⟦<MemTablets as Tablets>⟧.waits self.new) }
        ensures open_faults { KeepsCounts (⟦<MemTablets as Tablets>⟧.open_faults self.old) (⟦<MemTablets as Tablets>⟧.open_faults self.new) }
        ensures list_faults { ⟦<MemTablets as Tablets>⟧.list_faults self.new ≡ ⟦<MemTablets as Tablets>⟧.list_faults self.old }
        ensures pattern_faults { ⟦<MemTablets as Tablets>⟧.pattern_faults self.new ≡ ⟦<MemTablets as Tablets>⟧.pattern_faults self.old }
        ensures folder { ⟦<MemTablets as Tablets>⟧.folder self.new ≡ ⟦<MemTablets as Tablets>⟧.folder self.old }
    {
        let before = self.fetches.len();
        self.fetches.extend_from_slice(fetches)?;
        if let Err(refused) = self.lists.extend_from_slice(lists) {
            self.fetches.truncate(before);
            return Err(refused);
        }
        Ok(())
    }
}

impl Tablets for MemTablets {
    ghost use Rattle.std.specs.Prelude.{Some, string_bytes};
    ghost use Rattle.vs_outside.specs.Memory.{cluster_of, counts_below_last, failures_of};
    ghost use Rattle.vs_outside.specs.Openings.{faults_of, opened_names, returned_of, waits_of};

    type Feed = MemFeed;

    ghost cluster = { λ t. Some (cluster_of t.held.items) };

    ghost opened = { λ t. opened_names t.openings.openings.items };

    ghost returned = { λ t. returned_of t.openings.openings.items };

    ghost faults = { λ t. faults_of t.openings.openings.items };

    ghost waits = { λ t. waits_of t.openings.openings.items };

    ghost open_faults = { λ t. failures_of t.failed.items };

    ghost list_faults = { λ t. t.list_faults };

    ghost pattern_faults = { λ t. t.patterns.refused };

    ghost folder = { λ t. string_bytes t.folder };

    ghost sound = { λ t. is_quiet t.held.items t.fetches.items t.lists.items };

    ghost below_last = { λ t sound. counts_below_last t.openings.openings.items t.failed.items t.list_faults (t.quiet sound) };

    ghost within = { λ t. t.openings.within };

    fn point(&mut self, alloc: Global, path: &str) -> Result<(), OutOfMemory> {
        self.folder = String::from_str(alloc, path)?;
        Ok(())
    }

    fn list(&mut self, alloc: Global, keyspace: &[u8]) -> Result<Option<Vec<Text>>, AskEnd> {
        if fails_at(&self.lists, self.next_list) {
            self.next_list = self.next_list.saturating_add(1);
            self.list_faults = self.list_faults.saturating_add(1);
            return Err(AskEnd::Failed);
        }
        let names = names_of(alloc, &self.held, keyspace)?;
        self.next_list = self.next_list.saturating_add(1);
        if names.is_empty() {
            return Ok(None);
        }
        Ok(Some(names))
    }

    fn open_log(
        &mut self,
        alloc: Global,
        name: &ShardName,
    ) -> Result<Option<Opened<MemFeed>>, AskEnd> {
        if fails_at(&self.fetches, self.next_fetch) {
            push_copy(&mut self.failed, alloc, name)?;
            self.next_fetch = self.next_fetch.saturating_add(1);
            return Err(AskEnd::Failed);
        }
        let Some(opened) = open_held(alloc, &self.held, name)? else {
            self.next_fetch = self.next_fetch.saturating_add(1);
            return Ok(None);
        };
        self.openings.push(alloc, name)?;
        self.next_fetch = self.next_fetch.saturating_add(1);
        advance(&mut self.held, name);
        Ok(Some(opened))
    }

    fn give_back(&mut self, name: &ShardName, feed: MemFeed) {
        self.openings.add(name, feed.faults(), feed.waits());
    }

    fn pattern(&mut self, alloc: Global, text: &[u8]) -> Result<Regex, PatternEnd> {
        self.patterns.pattern(alloc, text)
    }
}
