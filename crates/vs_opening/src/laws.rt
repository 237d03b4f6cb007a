ghost use Rattle.std.specs.Prelude.{◌≡◌, List as Items, Some};
ghost use Rattle.vs_outside.specs.Clusters.{ClusterBytes};
ghost use Rattle.vs_base.specs.declared.ShardName.{ShardName};
ghost use Rattle.vs_request.specs.declared.request.Wanted.{Wanted};
ghost use Rattle.vs_opening.specs.declared.named.Named.{Named};
ghost use Rattle.vs_opening.specs.declared.names.NamesEnd.TheVariants.{Unknown};
ghost use Rattle.vs_opening.specs.Asked.{AreAsked, StopsAt};

/// The entries of a request ask one cluster for one list of shards; and where a keyspace of theirs has
/// no shard, for none.
pub fn law_asked()
    ensures one { (c : ClusterBytes) → (entries : Items Wanted) → (a : Items Named) → (b : Items Named) → AreAsked (Some c) entries a → AreAsked (Some c) entries b → a ≡ b }
    ensures known { (c : ClusterBytes) → (entries : Items Wanted) → (named : Items Named) → (name : ShardName) → AreAsked (Some c) entries named → StopsAt (Some c) entries (Unknown name) → ⊥ }
{}
