ghost use Rattle.std.specs.Prelude.{◌≡◌, ◌≤◌, ◌<◌, ◌-◌, ◌^◌, MatchOption};

/// The identity of a transaction: the server that made it, and a number from 1 to 2^63 - 2.
#[derive(Debug, Clone, Copy, PartialEq, Eq, PartialOrd, Ord, Hash)]
pub struct Gtid {
    pub uuid: [u8; 16],
    pub number: u64,
    pub ghost first: { 1 ≤ number },
    pub ghost last: { number ≤ 2 ^ 63 - 2 },
}

impl Gtid {
    ghost use Rattle.vs_base.specs.Names.{FitsGtid, gtid_of, same_gtid};

    /// The GTID of these parts, or none where the number is out of range.
    pub fn new(uuid: [u8; 16], number: u64) -> Option<Gtid>
        ensures gtid { result ≡ gtid_of uuid number }
        ensures parts { MatchOption result (¬ FitsGtid number) (λ g. (g.uuid ≡ uuid) × (g.number ≡ number)) }
    {
        if number == 0 {
            return None;
        }
        if number > 9_223_372_036_854_775_806 {
            return None;
        }
        Some(Gtid { uuid, number })
    }

    /// Whether the GTIDs are equal, as all contracts say it.
    #[tactic(auto, unfolding(crate::specs::Names::same_gtid))]
    pub fn is_same(&self, other: &Gtid) -> bool
        ensures { result ≡ same_gtid self.now other.now }
    {
        self == other
    }
}
