ghost use Rattle.std.specs.Prelude.{◌≡◌};

use crate::{Feed, PatternEnd};
use regex::bytes::Regex;
use std::alloc::Global;
use thiserror::Error;
use vs_base::{OutOfMemory, ShardName, Text};

/// Why an ask of the tablets gave nothing.
#[derive(Debug, Clone, Copy, PartialEq, Eq, Error)]
pub enum AskEnd {
    #[error("the tablets failed")]
    Failed,
    #[error("out of memory")]
    Memory,
}

impl From<OutOfMemory> for AskEnd {
    ghost use Rattle.vs_outside.specs.declared.tablets.AskEnd.TheVariants.{Memory};

    ghost from_gives = { λ _ e. e ≡ Memory };

    fn from(_refused: OutOfMemory) -> AskEnd {
        AskEnd::Memory
    }
}

/// A feed at the front of its log, and the schema text of its shard.
#[derive(Drop)]
pub struct Opened<F> {
    pub feed: F,
    pub schema: Text,
}

/// The logs of a cluster.
pub trait Tablets {
    ghost use Rattle.std.specs.Prelude.{
      ◌≡◌,
      ◌≤◌,
      ◌<◌,
      ◌+◌,
      ℕ,
      Bool,
      List,
      [],
      ◌∷◌,
      ◌++◌,
      Option,
      Some,
      None,
      Err,
      IsTrue,
      IfOk,
      IfSome,
      OnOk,
      MatchOption,
      MatchResult,
    };
    ghost use Rattle.std.specs.Option.{ForSome};
    ghost use Rattle.vs_base.specs.declared.shard_name.ShardName.{ShardName};
    ghost use Rattle.vs_outside.specs.declared.tablets.AskEnd.TheVariants.{Failed};
    ghost use Rattle.vs_outside.specs.Clusters.{
      AreNamesOf,
      ClusterBytes,
      IsListing,
      Shard,
      find_shard,
      shard_names,
    };
    ghost use Rattle.vs_outside.specs.Counts.{
      IsBelowLast,
      KeepsCounts,
      KeepsOthers,
      NoneFell,
      Rose,
      raised,
    };
    ghost use Rattle.vs_outside.specs.Feeds.{times};
    ghost use Rattle.vs_outside.specs.Patterns.{IsNoPattern, IsPattern, byte_config};
    ghost use Rattle.vs_outside.specs.declared.built_patterns.PatternEnd.TheVariants.{Refused, Syntax};
    ghost use Rattle.regex.specs.Bytes.{IsReadFromSource, regex_config, regex_source};

    type Feed: Feed + Send + 'static;

    /// The cluster, where the tablets tell it.
    ghost cluster: { Self → Option ClusterBytes };

    /// The names whose logs were opened, oldest first.
    ghost opened: { Self → List ShardName };

    /// How often a feed of a name was given back.
    ghost returned: { Self → ShardName → ℕ };

    /// How many reads failed of a name's feeds that were given back.
    ghost faults: { Self → ShardName → ℕ };

    /// How many reads had nothing yet of a name's feeds that were given back.
    ghost waits: { Self → ShardName → ℕ };

    /// How many fetches of a name's log failed.
    ghost open_faults: { Self → ShardName → ℕ };

    /// How many listings failed.
    ghost list_faults: { Self → ℕ };

    /// How many patterns were refused for another reason than their text.
    ghost pattern_faults: { Self → ℕ };

    /// The folder that was named last.
    ghost folder: { Self → List ℕ };

    /// Whether no call but `pattern`, and no read of a feed, can fail but for want of memory.
    ghost sound: { Self → Bool };

    /// Names the folder that holds the logs. A told cluster stays.
    fn point(&mut self, alloc: Global, path: &str) -> Result<(), OutOfMemory>
        ensures folder { MatchResult result (λ _. folder self.new ≡ path.now) (λ _. folder self.new ≡ folder self.old) }
        ensures cluster { cluster self.new ≡ cluster self.old }
        ensures opened { opened self.new ≡ opened self.old }
        ensures returned { KeepsCounts (returned self.old) (returned self.new) }
        ensures faults { KeepsCounts (faults self.old) (faults self.new) }
        ensures waits { KeepsCounts (waits self.old) (waits self.new) }
        ensures open_faults { KeepsCounts (open_faults self.old) (open_faults self.new) }
        ensures list_faults { list_faults self.new ≡ list_faults self.old }
        ensures pattern_faults { pattern_faults self.new ≡ pattern_faults self.old }
        ensures sound { sound self.new ≡ sound self.old };

    /// The shards of a keyspace, ascending; or none where the cluster has none.
    fn list(&mut self, alloc: Global, keyspace: &[u8]) -> Result<Option<Vec<Text>>, AskEnd>
        ensures listing { IfOk result (λ o. IfSome o (λ names. IsListing names.items)) }
        ensures names { IfOk result (λ o. ForSome (cluster self.old) (λ c. MatchOption o (shard_names c keyspace.now ≡ []) (λ names. AreNamesOf c keyspace.now names.items))) }
        ensures later { list_faults self.old ≤ list_faults self.new }
        ensures failed { result ≡ Err Failed → Rose (list_faults self.old) (list_faults self.new) }
        ensures steady { IsTrue (sound self.old) → list_faults self.new ≡ list_faults self.old }
        ensures cluster { cluster self.new ≡ cluster self.old }
        ensures opened { opened self.new ≡ opened self.old }
        ensures returned { KeepsCounts (returned self.old) (returned self.new) }
        ensures faults { KeepsCounts (faults self.old) (faults self.new) }
        ensures waits { KeepsCounts (waits self.old) (waits self.new) }
        ensures open_faults { KeepsCounts (open_faults self.old) (open_faults self.new) }
        ensures folder { folder self.new ≡ folder self.old }
        ensures pattern_faults { pattern_faults self.new ≡ pattern_faults self.old }
        ensures sound { sound self.new ≡ sound self.old };

    /// Opens the log of a shard at its front; or none where the cluster lacks the shard.
    fn open_log(
        &mut self,
        alloc: Global,
        name: &ShardName,
    ) -> Result<Option<Opened<Self::Feed>>, AskEnd>
        ensures log { IfOk result (λ o. ForSome (cluster self.old) (λ c. MatchOption o (find_shard c name.now ≡ None) (λ o. (s : Shard) × (find_shard c name.now ≡ Some s) × (Self.Feed.all o.feed ≡ Some s.log) × (Self.Feed.given o.feed ≡ Some []) × (o.schema ≡ s.schema)))) }
        ensures front { IfOk result (λ o. IfSome o (λ o. ForSome (Self.Feed.all o.feed) (λ _. Self.Feed.given o.feed ≡ Some []))) }
        ensures origin { IfOk result (λ o. IfSome o (λ o. Self.Feed.origin o.feed ≡ name.now)) }
        ensures fresh { IfOk result (λ o. IfSome o (λ o. (Self.Feed.faults o.feed ≡ 0) × (Self.Feed.waits o.feed ≡ 0))) }
        ensures sound_feed { IfOk result (λ o. IfSome o (λ o. IsTrue (sound self.old) → IsTrue (Self.Feed.sound o.feed))) }
        ensures lent { IfOk result (λ o. IfSome o (λ _. returned self.new name.now < times name.now (opened self.new))) }
        ensures opened { MatchResult result (λ o. MatchOption o (opened self.new ≡ opened self.old) (λ _. opened self.new ≡ opened self.old ++ name.now ∷ [])) (λ _. opened self.new ≡ opened self.old) }
        ensures later { NoneFell (open_faults self.old) (open_faults self.new) }
        ensures others { KeepsOthers name.now (open_faults self.old) (open_faults self.new) }
        ensures failed { result ≡ Err Failed → Rose (open_faults self.old name.now) (open_faults self.new name.now) }
        ensures steady { IsTrue (sound self.old) → KeepsCounts (open_faults self.old) (open_faults self.new) }
        ensures cluster { cluster self.new ≡ cluster self.old }
        ensures returned { KeepsCounts (returned self.old) (returned self.new) }
        ensures faults { KeepsCounts (faults self.old) (faults self.new) }
        ensures waits { KeepsCounts (waits self.old) (waits self.new) }
        ensures list_faults { list_faults self.new ≡ list_faults self.old }
        ensures folder { folder self.new ≡ folder self.old }
        ensures pattern_faults { pattern_faults self.new ≡ pattern_faults self.old }
        ensures sound { sound self.new ≡ sound self.old };

    /// Counts a feed that is given back, and adds its counts to those of its name. It takes no
    /// memory.
    fn give_back(&mut self, name: &ShardName, feed: Self::Feed)
        requires lent { returned self.old name.now < times name.now (opened self.old) }
        requires origin { Self.Feed.origin feed ≡ name.now }
        requires sound { IsTrue (sound self.old) → IsTrue (Self.Feed.sound feed) }
        ensures returned { returned self.new name.now ≡ returned self.old name.now + 1 }
        ensures faults { faults self.new name.now ≡ raised (Self.Feed.faults feed) (faults self.old name.now) }
        ensures waits { waits self.new name.now ≡ raised (Self.Feed.waits feed) (waits self.old name.now) }
        ensures faults_later { NoneFell (faults self.old) (faults self.new) }
        ensures waits_later { NoneFell (waits self.old) (waits self.new) }
        ensures other_returned { KeepsOthers name.now (returned self.old) (returned self.new) }
        ensures other_faults { KeepsOthers name.now (faults self.old) (faults self.new) }
        ensures other_waits { KeepsOthers name.now (waits self.old) (waits self.new) }
        ensures cluster { cluster self.new ≡ cluster self.old }
        ensures opened { opened self.new ≡ opened self.old }
        ensures open_faults { KeepsCounts (open_faults self.old) (open_faults self.new) }
        ensures list_faults { list_faults self.new ≡ list_faults self.old }
        ensures folder { folder self.new ≡ folder self.old }
        ensures pattern_faults { pattern_faults self.new ≡ pattern_faults self.old }
        ensures sound { sound self.new ≡ sound self.old };

    /// The pattern of a text, over bytes.
    fn pattern(&mut self, alloc: Global, text: &[u8]) -> Result<Regex, PatternEnd>
        ensures source { IfOk result (λ r. regex_source r ≡ text.now) }
        ensures read { IfOk result IsReadFromSource }
        ensures config { IfOk result (λ r. regex_config r ≡ byte_config) }
        ensures lawful { OnOk result (IsPattern text.now) }
        ensures syntax { result ≡ Err Syntax → IsNoPattern text.now }
        ensures refused { result ≡ Err Refused → IsPattern text.now × Rose (pattern_faults self.old) (pattern_faults self.new) }
        ensures later { pattern_faults self.old ≤ pattern_faults self.new }
        ensures steady { ¬ (result ≡ Err Refused) → pattern_faults self.new ≡ pattern_faults self.old }
        ensures cluster { cluster self.new ≡ cluster self.old }
        ensures opened { opened self.new ≡ opened self.old }
        ensures returned { KeepsCounts (returned self.old) (returned self.new) }
        ensures faults { KeepsCounts (faults self.old) (faults self.new) }
        ensures waits { KeepsCounts (waits self.old) (waits self.new) }
        ensures open_faults { KeepsCounts (open_faults self.old) (open_faults self.new) }
        ensures list_faults { list_faults self.new ≡ list_faults self.old }
        ensures folder { folder self.new ≡ folder self.old }
        ensures sound { sound self.new ≡ sound self.old };

    /// No count of faults of sound tablets stands at its last value.
    ghost below_last: { (t : Self) → IsTrue (sound t) → IsBelowLast (list_faults t) × ((n : ShardName) → IsBelowLast (faults t n) × IsBelowLast (open_faults t n)) };

    /// Of no name are more feeds given back than its log was opened.
    ghost within: { (t : Self) → (n : ShardName) → returned t n ≤ times n (opened t) };
}
