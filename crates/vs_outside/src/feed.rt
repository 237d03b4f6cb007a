use crate::Failed;

/// What a read of a feed gave.
#[derive(Debug, Clone, Copy, PartialEq, Eq)]
pub enum Got {
    /// So many bytes, at the buffer's front.
    Bytes(usize),
    /// Nothing now; more may come.
    NotYet,
    /// Nothing, for all was given.
    End,
}

/// The log of a shard, as it is read from its front. That each feed is given back is what
/// `Tablets::returned` counts.
pub trait Feed: Drop {
    ghost use Rattle.std.specs.Prelude.{
      ◌≡◌,
      ◌≤◌,
      ℕ,
      Bool,
      List,
      Option,
      None,
      IsTrue,
      IsOk,
      IfOk,
      OnErr,
      MatchOption,
      IsSomeAnd,
      MatchResult,
    };
    ghost use Rattle.vs_base.specs.declared.shard_name.ShardName.{ShardName};
    ghost use Rattle.vs_outside.specs.Counts.{Rose};
    ghost use Rattle.vs_outside.specs.Reads.{FillsBuffer, GivesNext, OnNotYet};

    /// The shard whose log it is.
    ghost origin: { Self → ShardName };

    /// All bytes of the log, where the feed tells them.
    ghost all: { Self → Option (List ℕ) };

    /// The bytes that it gave so far, told where `all` is.
    ghost given: { Self → Option (List ℕ) };

    /// How many reads failed.
    ghost faults: { Self → ℕ };

    /// How many reads had nothing yet.
    ghost waits: { Self → ℕ };

    /// Whether no read can fail.
    ghost sound: { Self → Bool };

    /// Gives the next bytes of the log. Where it gives none, what it gave so far stays.
    fn read(&mut self, buf: &mut [u8]) -> Result<Got, Failed>
        ensures origin { origin self.new ≡ origin self.old }
        ensures all { all self.new ≡ all self.old }
        ensures sound { sound self.new ≡ sound self.old }
        ensures fills { IfOk result (λ got. FillsBuffer got buf.new) }
        ensures gives { MatchOption (all self.old) ((given self.old ≡ None) × (given self.new ≡ None)) (λ all. IsSomeAnd (given self.old) (λ before. IsSomeAnd (given self.new) (λ after. MatchResult result (λ got. GivesNext got buf.new all before after) (λ _. after ≡ before)))) }
        ensures faults_later { faults self.old ≤ faults self.new }
        ensures waits_later { waits self.old ≤ waits self.new }
        ensures failed { OnErr result (Rose (faults self.old) (faults self.new)) }
        ensures waited { IfOk result (λ got. OnNotYet got (Rose (waits self.old) (waits self.new))) }
        ensures never_fails { IsTrue (sound self.old) → IsOk result };

    /// A sound feed has counted no fault.
    ghost no_faults: { (f : Self) → IsTrue (sound f) → faults f ≡ 0 };
}
