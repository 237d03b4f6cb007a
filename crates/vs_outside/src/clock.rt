/// The time in seconds.
pub trait Clock {
    ghost use Rattle.std.specs.Prelude.{◌≡◌, ℕ, List, [], ◌∷◌, ◌++◌, Option, Some, IfSome};

    /// All that it has answered, oldest first, where it tells this.
    ghost answers: { Self → Option (List ℕ) };

    /// Answers the time. A clock may stop telling its answers; what it tells is never forged.
    fn now(&mut self) -> u64
        ensures { IfSome (answers self.new) (λ after. (before : List ℕ) × (answers self.old ≡ Some before) × (after ≡ before ++ result ∷ [])) };
}
