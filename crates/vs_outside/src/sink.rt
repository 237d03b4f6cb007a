use crate::Failed;

/// Bytes that go out, as to a client.
pub trait Sink {
    ghost use Rattle.std.specs.Prelude.{
      ◌≡◌,
      ◌≤◌,
      ◌<◌,
      ℕ,
      List,
      [],
      length,
      take,
      Option,
      IfOk,
      OnErr,
      MatchResult,
    };
    ghost use Rattle.vs_outside.specs.Counts.{Rose};
    ghost use Rattle.vs_outside.specs.Told.{Writes};

    /// The bytes that the sink took so far, where it tells them.
    ghost sent: { Self → Option (List ℕ) };

    /// How many writes failed.
    ghost faults: { Self → ℕ };

    /// Takes the first bytes of the piece, and says how many: at least one, unless the piece is
    /// empty.
    fn write(&mut self, bytes: &[u8]) -> Result<usize, Failed>
        ensures fits { IfOk result (λ n. n ≤ length bytes.now) }
        ensures some { IfOk result (λ n. 0 < length bytes.now → 0 < n) }
        ensures wrote { Writes (sent self.old) (sent self.new) (λ written. MatchResult result (λ n. written ≡ take n bytes.now) (λ _. written ≡ [])) }
        ensures later { faults self.old ≤ faults self.new }
        ensures failed { OnErr result (Rose (faults self.old) (faults self.new)) };
}
