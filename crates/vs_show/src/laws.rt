ghost use Rattle.std.specs.Prelude.{◌≡◌, ◌<◌, ◌+◌, ℕ, All, List as Items, Option, length};
ghost use Rattle.vs_frame.specs.declared.refusal.FrameWhy.{FrameWhy};
ghost use Rattle.vs_proto.specs.declared.event.VStreamResponse.{VStreamResponse};
ghost use Rattle.vs_show.specs.Recordings.{
  IsRecording,
  bad_frame,
  frames_lines,
  lines,
  placed_behind,
};

/// Bytes are one recording: some frames and what stands behind them. Its lines are those of the
/// frames, and its bad frame, if it has one, is the one behind them.
pub fn law_recordings()
    ensures some { (bytes : Items ℕ) → All (λ b. b < 256) bytes → (frames : Items VStreamResponse) × (why : Option FrameWhy) × IsRecording bytes frames why }
    ensures lines { (bytes : Items ℕ) (frames : Items VStreamResponse) (why : Option FrameWhy) → IsRecording bytes frames why → lines bytes ≡ frames_lines 1 frames }
    ensures bad { (bytes : Items ℕ) (frames : Items VStreamResponse) (why : Option FrameWhy) → IsRecording bytes frames why → bad_frame bytes ≡ placed_behind (length frames + 1) why }
{}
