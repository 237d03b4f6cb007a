//! What the counts of feeds keep to, as a contract of a function that does nothing.
ghost use Rattle.std.specs.Prelude.{◌≡◌, ◌≤◌, ◌+◌, ◌++◌, ◌∷◌, [], ℕ, List};
ghost use Rattle.vs_base.specs.declared.shard_name.ShardName.{ShardName};
ghost use Rattle.vs_outside.specs.Counts.{KeepsCounts, KeepsOthers};
ghost use Rattle.vs_outside.specs.Feeds.{GivesAllBack, lent, times};

/// Where nothing is opened or given back, as many feeds are out as before; likewise where a feed
/// is opened and given back, and where two works after one another see to it.
pub fn law_feeds()
    ensures same { (opened : List ShardName) → (returned : ShardName → ℕ) → (later : ShardName → ℕ) → KeepsCounts returned later → GivesAllBack opened returned opened later }
    ensures once { (opened : List ShardName) → (returned : ShardName → ℕ) → (later : ShardName → ℕ) → (name : ShardName) → later name ≡ returned name + 1 → KeepsOthers name returned later → GivesAllBack opened returned (opened ++ name ∷ []) later }
    ensures joined { (a : List ShardName) → (r : ShardName → ℕ) → (b : List ShardName) → (s : ShardName → ℕ) → (c : List ShardName) → (t : ShardName → ℕ) → GivesAllBack a r b s → GivesAllBack b s c t → GivesAllBack a r c t }
    ensures out { (a : List ShardName) → (r : ShardName → ℕ) → (b : List ShardName) → (s : ShardName → ℕ) → (n : ShardName) → r n ≤ times n a → s n ≤ times n b → GivesAllBack a r b s → lent n b s ≡ lent n a r }
{}
