//! Equality of sets, successors and journals.
ghost use Rattle.std.specs.Cmp.Lexicographic.{pointwise};
ghost use Rattle.std.specs.Prelude.{◌≡◌};
ghost use Rattle.vs_gtid.specs.Journals.{same_interval, same_journal, same_successor};

use crate::{GtidSet, JournalValue, Successor};

impl GtidSet {
    /// Whether the sets have the same intervals.
    pub fn is_same(&self, other: &GtidSet) -> bool
        ensures { result ≡ pointwise same_interval self.now other.now }
    {
        self.intervals == other.intervals
    }
}

impl Successor {
    /// Whether the names are equal, and the positions.
    pub fn is_same(&self, other: &Successor) -> bool
        ensures { result ≡ same_successor self.now other.now }
    {
        self.name.is_same(&other.name) && self.position.is_same(&other.position)
    }
}

impl JournalValue {
    /// Whether all parts are equal.
    #[tactic(auto, unfolding(crate::specs::Journals::same_journal, vs_base::specs::Names::same_name))]
    pub fn is_same(&self, other: &JournalValue) -> bool
        ensures { result ≡ same_journal self.now other.now }
    {
        self.id == other.id
            && self.shards == other.shards
            && self.participants == other.participants
            && same_successors(self.successors.as_slice(), other.successors.as_slice())
    }
}

/// Whether the successors are equal, one by one.
fn same_successors(ones: &[Successor], others: &[Successor]) -> bool
    ensures { result ≡ pointwise same_successor ones.now others.now }
{
    match (ones.split_first(), others.split_first()) {
        (None, None) => true,
        (Some((one, ones)), Some((other, others))) => {
            one.is_same(other) && same_successors(ones, others)
        }
        _ => false,
    }
}
