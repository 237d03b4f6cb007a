ghost use Rattle.std.specs.Prelude.{◌≡◌, ◌+◌, nat_lt};

use vs_base::Gtid;

/// The GTIDs of one server from a first to a last number, both of them included.
#[derive(Debug, Clone, Copy, PartialEq, Eq, PartialOrd, Ord)]
pub struct Interval {
    pub uuid: [u8; 16],
    pub first: u64,
    pub last: u64,
}

impl Interval {
    ghost use Rattle.vs_gtid.specs.Joins.{alone, hull, stands_before};
    ghost use Rattle.vs_gtid.specs.Positions.{IsInterval, is_within};

    /// The interval of the GTID alone.
    pub fn alone(gtid: Gtid) -> Interval
        ensures value { result ≡ alone gtid }
        ensures interval { IsInterval result }
    {
        let uuid = gtid.uuid;
        Interval {
            uuid,
            first: gtid.number,
            last: gtid.number,
        }
    }

    /// Whether the interval contains the GTID.
    pub fn contains(&self, gtid: &Gtid) -> bool
        ensures { result ≡ is_within gtid.now self.now }
    {
        self.uuid == gtid.uuid && self.first <= gtid.number && gtid.number <= self.last
    }

    /// Whether the interval's UUID is less, or the same with a number between the two intervals.
    pub fn stands_before(&self, other: &Interval) -> bool
        ensures { result ≡ stands_before self.now other.now }
    {
        self.uuid.cmp(&other.uuid).is_lt()
            || (self.uuid == other.uuid && is_apart(self.last, other.first))
    }

    /// The least interval of this UUID that contains the numbers of both.
    pub fn hull(&self, other: &Interval) -> Interval
        ensures { result ≡ hull self.now other.now }
    {
        Interval {
            uuid: self.uuid,
            first: self.first.min(other.first),
            last: self.last.max(other.last),
        }
    }
}

/// Whether a number lies between a last and a first number.
fn is_apart(last: u64, first: u64) -> bool
    ensures { result ≡ nat_lt (last + 1) first }
{
    last < first && first - last > 1
}
