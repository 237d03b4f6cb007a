//! What lanes and their pieces keep to. The functions do nothing.
ghost use Rattle.std.specs.Prelude.{◌≡◌, ◌++◌, [], ◌∷◌, List, None, Some, false, ℕ};
ghost use Rattle.vs_base.specs.declared.ShardName.{ShardName};
ghost use Rattle.vs_base.specs.declared.table.Column.{Column};
ghost use Rattle.vs_gtid.specs.declared.Entry.{Entry};
ghost use Rattle.vs_gtid.specs.declared.JournalValue.{JournalValue};
ghost use Rattle.vs_gtid.specs.Joins.{added};
ghost use Rattle.vs_gtid.specs.Logs.{Log};
ghost use Rattle.vs_gtid.specs.Positions.{Position, has};
ghost use Rattle.vs_gtid.specs.Vectors.Place.{Streaming};
ghost use Rattle.vs_model.specs.Copy.{Bound, Filter, picked};
ghost use Rattle.vs_model.specs.Core.Piece.{Transaction};
ghost use Rattle.vs_model.specs.Core.{AreGiven};
ghost use Rattle.vs_model.specs.Logs.{Cluster, due, log_of, own_journal, stop};
ghost use Rattle.vs_render.specs.Bodies.{columns_in};
ghost use Rattle.vs_render.specs.Posted.{ArePosted, spelled_by};
ghost use Rattle.vs_render.specs.declared.piece.Piece.{Piece};
ghost use Rattle.vs_lane.specs.Pieces.{meant_in};
ghost use Rattle.vs_lane.specs.Spelled.{EntriesMakeFrames, RowsMakeFrames};
ghost use Rattle.vs_lane.specs.Stands.{IsAtEnd, Leads, Seen, Stands, lacking, log_seen, position_after};
ghost use Rattle.vs_lane.specs.Steps.{AreIn, StepFor};

use vs_model::law_due;

/// What leads from lane to lane is put together.
pub fn law_leads()
    ensures same { (L : Seen) → Leads L L [] }
    ensures on { (L M N : Seen) (a b : List Piece) → Leads L M a → Leads M N b → Leads L N (a ++ b) }
{}

/// What was taken of a lane, whatever it gave behind it, are pieces that a lane of the shard may post
/// from its start, where its log is the shard's, and its filter is the one of the stream.
pub fn law_posted()
    ensures { (cluster : Cluster) (rules : Filter) (fields : ShardName → List ℕ → List Column) (first last : Seen) (taken more : List Piece) (all : List ℕ) →
        Stands first [] → Leads first last (taken ++ more) → first.all ≡ Some all →
        log_of cluster first.shard ≡ log_seen first all → rules first.shard ≡ meant_in first.bound first.schema → fields first.shard ≡ columns_in first.bound.tables →
        ArePosted (spelled_by fields) cluster rules first.shard first.start taken }
{}

/// What bodies spell, by the columns that are told of each shard's tables, makes the frames of entries
/// and of rows, with the vector put in.
pub fn law_spelled()
    ensures entries { EntriesMakeFrames }
    ensures rows { RowsMakeFrames }
{}

/// What a step owes carries all that led to the lane on. Behind entries that the lane's place has, the
/// next one that it lacks is the next that is due, or the own journal ahead; and where there is none,
/// nothing is due. The place has what was read.
pub fn law_step()
    ensures leads { (L M : Seen) (p : Piece) → StepFor L M p → Leads L M (p ∷ []) }
    ensures next { (bound : Bound) (s : ShardName) (log : Log) (p : Position) (front later : List Entry) (e : Entry) →
        log.entries ≡ front ++ e ∷ later → AreIn p front → has p e.gtid ≡ false → own_journal s e ≡ None →
        AreGiven bound s log (Transaction (picked bound e) ∷ []) None (Streaming p) }
    ensures own { (s : ShardName) (log : Log) (p : Position) (front later : List Entry) (e : Entry) (j : JournalValue) →
        log.entries ≡ front ++ e ∷ later → AreIn p front → has p e.gtid ≡ false → own_journal s e ≡ Some j →
        (due s log p ≡ []) × (stop s log p ≡ Some j) }
    ensures none { (s : ShardName) (log : Log) (p : Position) → AreIn p log.entries → IsAtEnd s log p }
    ensures read { (p : Position) (es : List Entry) → AreIn (position_after p (lacking p es)) es }
    ensures on { (p : Position) (read skipped : List Entry) (e : Entry) → AreIn p skipped → has p e.gtid ≡ false →
        position_after p (lacking p ((read ++ skipped) ++ e ∷ [])) ≡ added (position_after p (lacking p read)) e.gtid }
{
    law_due();
}
