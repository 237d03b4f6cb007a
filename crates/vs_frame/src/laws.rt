ghost use Rattle.std.specs.Prelude.{◌≡◌, ◌∷◌, ◌++◌, ℕ, List, []};
ghost use Rattle.vs_frame.specs.Frames.{BeginsWithFrame, HasNoFrame, IsGiven};
ghost use Rattle.vs_frame.specs.Laws.{
  HasOneFrame,
  HasOneLength,
  PartIsNoFrame,
  PartIsNotTooLong,
  TooLongIsNoFrame,
};

/// What stands at the front of some bytes is one of three: less than a frame, one frame and one
/// rest, or one length over the limit.
pub fn law_front()
    ensures part { PartIsNoFrame }
    ensures part_fits { PartIsNotTooLong }
    ensures too_long { TooLongIsNoFrame }
    ensures one_length { HasOneLength }
    ensures one_frame { HasOneFrame }
{}

/// However the bytes are cut into pieces, the messages given are the first ones of all bytes fed,
/// and all of them where no frame is at the front of what is held.
pub fn law_frames()
    ensures starts { IsGiven [] [] [] }
    ensures fed { (fed held piece : List ℕ) (ms : List (List ℕ)) → IsGiven fed ms held → IsGiven (fed ++ piece) ms (held ++ piece) }
    ensures given { (fed held m rest : List ℕ) (ms : List (List ℕ)) → IsGiven fed ms held → BeginsWithFrame held m rest → IsGiven fed (ms ++ m ∷ []) rest }
    ensures first { (fed held left : List ℕ) (ms ns : List (List ℕ)) → IsGiven fed ms held → IsGiven fed ns left → HasNoFrame left
        → (more : List (List ℕ)) × (ns ≡ ms ++ more) }
    ensures all { (fed held left : List ℕ) (ms ns : List (List ℕ)) → IsGiven fed ms held → IsGiven fed ns left → HasNoFrame held → HasNoFrame left
        → (ms ≡ ns) × (held ≡ left) }
{}
