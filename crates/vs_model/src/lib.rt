//! What the frames of a stream mean, over what the logs of a cluster mean, and the laws of that.
//! The filter is a parameter, and so is the meaning of a log's bytes.
#![tactic(auto)]

#[cfg(test)]
mod tests;

ghost use Rattle.std.specs.List.Sorted.{IsStrictlySortedBy};
ghost use Rattle.std.specs.List.{AllByRecursion, Contains};
ghost use Rattle.std.specs.Prelude.{[], ◌++◌, ◌&&◌, ◌∷◌, ◌≡◌, IsTrue, List, None, Option, Some, map, ℕ};
ghost use Rattle.vs_base.specs.declared.ShardName.{ShardName};
ghost use Rattle.vs_gtid.specs.declared.Entry.{Entry};
ghost use Rattle.vs_gtid.specs.declared.JournalValue.{JournalValue};
ghost use Rattle.vs_model.specs.Copies.{ChangesFit, IsOrdered, KeepsKeys, client_row, copied_row};
ghost use Rattle.vs_model.specs.Copy.{Bound, Filter, changes_in, front, picked};
ghost use Rattle.vs_model.specs.Core.{AreGiven, Piece, PlaceAfter};
ghost use Rattle.vs_model.specs.Frames.Frame.{AllCopied, Beat, Halt, Switch};
ghost use Rattle.vs_model.specs.Frames.{Frame, frames_of, last_vector, vectors_along};
ghost use Rattle.vs_model.specs.Laws.{DueGoesOn, StepsAreLegal, StopStays, TransactionsAreSteps};
ghost use Rattle.vs_model.specs.Legal.{HasGathered, Legal, NoneCopies};
ghost use Rattle.vs_model.specs.Logs.{
  Cluster,
  HaveDistinctGtids,
  Image,
  IsPositionAfter,
  Log,
  LogsAreDistinct,
  due,
  log_of,
  stop,
};
ghost use Rattle.vs_model.specs.Names.{Position, is_in};
ghost use Rattle.vs_model.specs.Reached.{HasAllDue, IsFinal, IsSettled, StartsAreUnique, StartsToStream, start_of};
ghost use Rattle.vs_model.specs.Requests.{by_shard, is_of, shards_of};
ghost use Rattle.vs_model.specs.Steps.{AreFirstDue, SendsCopy, Step, Steps};
ghost use Rattle.vs_gtid.specs.Vectors.Place.{Fresh};
ghost use Rattle.vs_gtid.specs.Vectors.{IsCanonicalPlace, IsCanonicalVector, Place, Vector, place_of, stands, switched};

/// Frames that follow one another by lawful steps are a legal list, and there is no other.
pub fn law_steps()
    ensures steps { StepsAreLegal }
    ensures only { (cluster : Cluster) (rules : Filter) (v0 : Vector) (fs : List Frame) →
        Legal cluster rules v0 fs → Steps cluster rules v0 fs }
{}

/// A client that resumes at its last vector has a legal list of all that it got.
pub fn law_resume()
    ensures { (cluster : Cluster) (rules : Filter) (v0 : Vector) (fs gs : List Frame) → LogsAreDistinct cluster →
        Legal cluster rules v0 fs → Legal cluster rules (last_vector v0 fs) gs → Legal cluster rules v0 (fs ++ gs) }
{}

/// A finished stream ends at the final positions of its cluster, whatever the order of events was,
/// and has sent all that was due.
pub fn law_final()
    ensures ends { (cluster : Cluster) (rules : Filter) (v0 : Vector) (fs : List Frame) → LogsAreDistinct cluster → StartsAreUnique cluster v0 →
        Legal cluster rules v0 fs → IsSettled cluster (last_vector v0 fs) → IsFinal cluster v0 (last_vector v0 fs) }
    ensures sent { (cluster : Cluster) (rules : Filter) (v0 : Vector) (fs : List Frame) → LogsAreDistinct cluster → StartsAreUnique cluster v0 →
        Legal cluster rules v0 fs → IsSettled cluster (last_vector v0 fs) →
        (s : ShardName) (p : Position) → StartsToStream cluster v0 s p → HasAllDue cluster rules fs s p }
{}

/// Each kind of frame, sent by the rules that a program keeps, is a lawful step.
pub fn law_frames()
    ensures tx { TransactionsAreSteps }
    ensures copy { (cluster : Cluster) (rules : Filter) (v : Vector) (s : ShardName) (f : Frame) →
        SendsCopy cluster rules v s f → Step cluster rules v f }
    ensures switch { (cluster : Cluster) (rules : Filter) (v : Vector) (j : JournalValue) → HasGathered cluster v j →
        IsCanonicalVector (switched v j) → Step cluster rules v (Switch j (switched v j)) }
    ensures halt { (cluster : Cluster) (rules : Filter) (v : Vector) (j : JournalValue) → HasGathered cluster v j →
        IsCanonicalVector v → Step cluster rules v (Halt j v) }
    ensures beat { (cluster : Cluster) (rules : Filter) (v : Vector) (now : ℕ) → IsCanonicalVector v → Step cluster rules v (Beat now) }
    ensures all_copied { (cluster : Cluster) (rules : Filter) (v : Vector) → NoneCopies v →
        IsCanonicalVector v → Step cluster rules v AllCopied }
{}

/// What is due to a shard, and the journal ahead of it, after the first entries that were due were sent.
pub fn law_due()
    ensures due { DueGoesOn }
    ensures stop { StopStays }
{}

/// Where a lane's first pieces were handled, the next one is the transaction of the first entry that
/// is due. Where all were, and they were all that was due, nothing is due, and the journal ahead is
/// the one that was ahead of the lane's start. Whether a lane streams or copies, its first pieces
/// are what it may give, and behind its first piece the others are what a lane may give from there.
pub fn law_lane()
    ensures next { (bound : Bound) (s : ShardName) (log : Log) (p q : Position) (handled waiting : List Entry) (told : Entry) →
        HaveDistinctGtids log.entries → AreFirstDue bound s log p (handled ++ told ∷ waiting) → IsPositionAfter p handled q →
        (e : Entry) × (rest : List Entry) × (due s log q ≡ e ∷ rest) × (told ≡ picked bound e) }
    ensures end { (bound : Bound) (s : ShardName) (log : Log) (p q : Position) (handled : List Entry) → HaveDistinctGtids log.entries →
        (all : AreFirstDue bound s log p handled) → all.rest ≡ [] → IsPositionAfter p handled q →
        (due s log q ≡ []) × (stop s log q ≡ stop s log p) }
    ensures front { (bound : Bound) (s : ShardName) (log : Log) (first more : List Piece) (last : Option JournalValue) (start : Place) →
        AreGiven bound s log (first ++ more) last start → AreGiven bound s log first None start }
    ensures rest { (bound : Bound) (s : ShardName) (log : Log) (piece : Piece) (pieces : List Piece) (last : Option JournalValue) (from to : Place) →
        HaveDistinctGtids log.entries → AreGiven bound s log (piece ∷ pieces) last from → PlaceAfter from piece to → IsCanonicalPlace to →
        AreGiven bound s log pieces last to }
{}

/// A client that applies the frames of a shard to empty tables, from the beginning of its copy on,
/// has the shard's picked rows up to the last key that was sent, and all of them after the end of
/// the copy: those that the entries before its position leave. The keys of the picked tables are
/// told, and each change fits the rows that the changes before it leave.
pub fn law_copies()
    ensures { (cluster : Cluster) (rules : Filter) (told_key : List ℕ → Image → Image) (v0 : Vector) (fs : List Frame) (s : ShardName) (place : Place) →
        LogsAreDistinct cluster → IsOrdered (rules s) → KeepsKeys (rules s) told_key →
        Legal cluster rules v0 fs → place_of v0 s ≡ Some Fresh → AllByRecursion (λ v. IsTrue (stands v s)) (vectors_along v0 fs) →
        place_of (last_vector v0 fs) s ≡ Some place → ChangesFit (rules s) (changes_in (front (log_of cluster s) (start_of place))) →
        (table : List ℕ) (key : Image) → Contains (rules s).tables table →
        client_row (rules s) told_key (frames_of s fs) table key
        ≡ copied_row (rules s) place (changes_in (front (log_of cluster s) (start_of place))) table key }
{}

/// An entry for a whole keyspace stands for the keyspace's shards, and no others, each once, and
/// ascending by the bytes of their names.
#[tactic(auto, using(crate::proofs::Shards::shards_ascend, crate::proofs::Shards::shards_are))]
pub fn law_shards()
    ensures ascending { (cluster : Cluster) (keyspace : List ℕ) → IsStrictlySortedBy by_shard (shards_of cluster keyspace) }
    ensures members { (cluster : Cluster) (keyspace : List ℕ) (s : ShardName) →
        is_in s (shards_of cluster keyspace) ≡ (is_of keyspace s && is_in s (map (λ c. c.0) cluster)) }
{}
