/// A call that did nothing, for a fault that its object counted.
#[derive(Debug, Clone, Copy, PartialEq, Eq)]
pub struct Failed;

/// Bytes that come in, as from a client.
pub trait Source {
    ghost use Rattle.std.specs.Prelude.{
      ◌≡◌,
      ◌≤◌,
      ◌<◌,
      ℕ,
      List,
      [],
      length,
      take,
      Option,
      IfOk,
      OnErr,
      MatchResult,
    };
    ghost use Rattle.std.specs.Option.{ForSome};
    ghost use Rattle.vs_outside.specs.Counts.{Rose};
    ghost use Rattle.vs_outside.specs.Told.{Takes};

    /// The bytes that are still to come, where the source tells them.
    ghost left: { Self → Option (List ℕ) };

    /// How many reads failed.
    ghost faults: { Self → ℕ };

    /// Takes the next bytes and puts them at the buffer's front. An answer of 0 for a buffer that
    /// is not empty means that nothing is left.
    fn read(&mut self, buf: &mut [u8]) -> Result<usize, Failed>
        ensures fits { IfOk result (λ n. n ≤ length buf.new) }
        ensures takes { Takes (left self.old) (left self.new) (λ taken. MatchResult result (λ n. taken ≡ take n buf.new) (λ _. taken ≡ [])) }
        ensures end { IfOk result (λ n. n ≡ 0 → 0 < length buf.new → ForSome (left self.old) (λ before. before ≡ [])) }
        ensures later { faults self.old ≤ faults self.new }
        ensures failed { OnErr result (Rose (faults self.old) (faults self.new)) };
}
