//! What the core's turns amount to, over all runs.
ghost use Rattle.std.specs.List.{AllZip};
ghost use Rattle.std.specs.Prelude.{◌≡◌, ◌<◌, ◌∷◌, [], Bool, List, None, Some, map, slice_get, ℕ};
ghost use Rattle.vs_core.specs.Choices.{IsNextPlace, heads_below, next_lane};
ghost use Rattle.vs_core.specs.Machine.{CoreEvent, CoreState, Sent};
ghost use Rattle.vs_render.specs.Posted.{BodySpelling};
ghost use Rattle.vs_core.specs.Runs.{ArePostedFrom, StreamRun, IsLegalStream, IsSentFrame, pieces_taken};
ghost use Rattle.vs_core.specs.Spelling.{SpellsFrames, stream_bytes};
ghost use Rattle.vs_gtid.specs.Vectors.{IsCanonicalVector, Vector};
ghost use Rattle.vs_model.specs.Copy.{Filter};
ghost use Rattle.vs_model.specs.Frames.{Frame};
ghost use Rattle.vs_model.specs.Logs.{Cluster, LogsAreDistinct};
ghost use Rattle.vs_pace.specs.Heads.{IsNext};
ghost use Rattle.vs_pace.specs.declared.head.Head.{Head};
ghost use Rattle.vs_render.specs.declared.piece.Piece.{Piece};
ghost use Rattle.vs_request.specs.declared.request.Flags.{Flags};
ghost use Rattle.vs_render.specs.Events.{Telling};
ghost use Rattle.vs_render.specs.Frames.{frames_bytes};

/// Whatever the order in which lanes begin, pieces are taken, turns are made and heartbeats are
/// written: where each lane posted what its log lets it, from the vector's entry at its beginning,
/// what was sent are legal frames, and the core's vector is the last one. Where a shard copied and
/// none does any more, the end of all copies was sent behind the last end of a copy, or is due.
pub fn law_runs()
    ensures { (spells : BodySpelling) (cluster : Cluster) (rules : Filter) (v0 : Vector) (flags : Flags) (until_end : Bool) (events : List CoreEvent) (sent : List Sent) (s : CoreState) →
        LogsAreDistinct cluster → IsCanonicalVector v0 → (run : StreamRun v0 flags until_end events sent s) →
        ArePostedFrom spells cluster rules (λ lane. pieces_taken lane events) run → IsLegalStream spells cluster rules v0 sent s }
{}

/// The bytes of what was sent are those of its frames, where bodies are the frames of entries and of
/// rows with the vector left out.
pub fn law_bytes()
    ensures { (spells : BodySpelling) (t : Telling) (sent : List Sent) (frames : List Frame) →
        SpellsFrames spells t → AllZip (IsSentFrame spells) sent frames → stream_bytes t.journals sent ≡ frames_bytes t frames }
{}

/// Which lane's head leaves next: that of the next head by the choice of heads, which stands at the
/// place that its head tells; without a skew that of the front; and none where no lane has a head.
pub fn law_next()
    ensures chosen { (skew lanes : ℕ) (held : List (ℕ × Piece)) (place : ℕ) (head : ℕ × Head) →
        IsNext skew (map (λ h. h.1) (heads_below lanes held)) place → slice_get (heads_below lanes held) place ≡ Some head →
        IsNextPlace (next_lane skew lanes held) held (Some (head.0, head.1.taken)) }
    ensures front { (lanes lane : ℕ) (piece : Piece) (held : List (ℕ × Piece)) → lane < lanes →
        IsNextPlace (next_lane 0 lanes ((lane, piece) ∷ held)) ((lane, piece) ∷ held) (Some (lane, 0)) }
    ensures none { (skew lanes : ℕ) (held : List (ℕ × Piece)) → map (λ h. h.1) (heads_below lanes held) ≡ [] →
        IsNextPlace (next_lane skew lanes held) held None }
{}
