//! A position that keeps its printed text.
ghost use Rattle.std.specs.Prelude.{
  ◌≡◌,
  ◌≤◌,
  ◌<◌,
  ◌⊎◌,
  ◌+◌,
  ◌++◌,
  true,
  false,
  drop,
  length,
  take,
  IfErr,
  IfOk,
  OnErr,
  OnOk,
};
ghost use Rattle.vs_gtid.specs.Joins.{added};
ghost use Rattle.vs_gtid.specs.Kept.{GrowsAt, end_of};
ghost use Rattle.vs_gtid.specs.Positions.{has, IsCanonical, IsPosition};
ghost use Rattle.vs_gtid.specs.Text.{set_text};

use crate::add::place_of;
use crate::text::put_set;
use crate::{GtidRefusal, GtidSet, Interval, OutOfMemory};
use itoa::Buffer;
use std::alloc::Global;
use std::marker::Model;
use vs_base::Gtid;

/// A position of a shard's log, with its printed text. It is seen as the position.
#[derive(Debug, Drop)]
pub struct KeptPosition {
    set: GtidSet,
    text: Vec<u8>,
    /// the interval that came in or grew last, and the place behind its last number in the text
    at: usize,
    end: usize,
}

impl Model for KeptPosition {
    ghost use Rattle.std.specs.Prelude.{List, ◌≡◌};
    ghost use Rattle.vs_gtid.specs.declared.interval.Interval.{Interval};
    ghost use Rattle.vs_gtid.specs.Kept.{end_of};
    ghost use Rattle.vs_gtid.specs.Text.{set_text};

    ghost Value = { List Interval };

    ghost view = { λ p. p.set };

    ghost invariant = { λ p. (p.text.items ≡ set_text p.set) × (p.end ≡ end_of p.set p.at) };
}

impl KeptPosition {
    /// The position of this set.
    pub fn of(alloc: Global, set: GtidSet) -> Result<KeptPosition, OutOfMemory>
        ensures same { IfOk result (λ p. p ≡ set) }
        ensures position { IfOk result (λ p. IsPosition p) }
    {
        let at = set.intervals.len();
        let (text, end) = printed(alloc, set.intervals.as_slice(), at)?;
        Ok(KeptPosition { set, text, at, end })
    }

    /// The set alone.
    pub fn set(&self) -> &GtidSet
        ensures { result.now ≡ self.now }
    {
        &self.set
    }

    /// The printed set, without the prefix of a position.
    pub fn text(&self) -> &[u8]
        ensures { result.now ≡ set_text self.now }
    {
        self.text.as_slice()
    }

    /// Whether the GTID is in the set.
    pub fn contains(&self, gtid: &Gtid) -> bool
        ensures { result ≡ has self.now gtid.now }
    {
        self.set.contains(gtid)
    }

    /// Adds the GTID. Where the interval that grew last grows by its next number, and that has as
    /// many digits as the last one, the text is changed in place and no memory is taken.
    pub fn add(&mut self, alloc: Global, gtid: Gtid) -> Result<(), GtidRefusal>
        ensures ok { OnOk result (self.new ≡ added self.old gtid) }
        ensures err { OnErr result (self.new ≡ self.old) }
        ensures few { OnOk result (length (added self.old gtid) ≤ 1024) }
        ensures too_many { result ≡ Err GtidRefusal.TooManyIntervals → 1024 < length (added self.old gtid) }
        ensures refusals { IfErr result (λ e. (e ≡ GtidRefusal.TooManyIntervals) ⊎ (e ≡ GtidRefusal.Memory)) }
        ensures position { IsPosition self.new }
    {
        if raise(
            &mut self.set.intervals,
            &mut self.text,
            self.at,
            self.end,
            &gtid,
        ) {
            return Ok(());
        }
        let (set, at) = with_gtid(alloc, &self.set, gtid)?;
        let (text, end) = printed(alloc, set.intervals.as_slice(), at)?;
        self.set = set;
        self.text = text;
        self.at = at;
        self.end = end;
        Ok(())
    }
}

/// The text of a set, and the place behind the last number of its interval at this place.
fn printed(
    alloc: Global,
    intervals: &[Interval],
    at: usize,
) -> Result<(Vec<u8>, usize), OutOfMemory>
    requires { at ≤ length intervals.now }
    ensures text { IfOk result (λ r. r.0.items ≡ set_text intervals.now) }
    ensures end { IfOk result (λ r. r.1 ≡ end_of intervals.now at) }
{
    let mut text = Vec::new(alloc);
    let count = intervals.len().min(at + 1);
    put_set(&intervals[..count], &mut text)?;
    let end = text.len();
    text.clear();
    put_set(intervals, &mut text)?;
    Ok((text, end))
}

/// A copy of the set with the GTID, and the place of its interval.
fn with_gtid(alloc: Global, set: &GtidSet, gtid: Gtid) -> Result<(GtidSet, usize), GtidRefusal>
    ensures ok { IfOk result (λ r. r.0 ≡ added set.now gtid) }
    ensures within { IfOk result (λ r. r.1 ≤ length r.0) }
    ensures few { OnOk result (length (added set.now gtid) ≤ 1024) }
    ensures too_many { result ≡ Err GtidRefusal.TooManyIntervals → 1024 < length (added set.now gtid) }
    ensures refusals { IfErr result (λ e. (e ≡ GtidRefusal.TooManyIntervals) ⊎ (e ≡ GtidRefusal.Memory)) }
{
    let at = place_of(set.intervals.as_slice(), &Interval::alone(gtid));
    let mut more = set.copy(alloc)?;
    more.add(gtid)?;
    let at = at.min(more.intervals.len());
    Ok((more, at))
}

/// Whether the GTID is the next number of the interval at this place, which has two numbers at least
/// and doesn't meet the next interval then either.
fn grows_at(intervals: &[Interval], at: usize, gtid: &Gtid) -> bool
    requires { IsCanonical intervals.now }
    ensures { result ≡ true → GrowsAt intervals.now at gtid.now }
{
    if at >= intervals.len() {
        return false;
    }
    let interval = &intervals[at];
    if interval.uuid != gtid.uuid || interval.first >= interval.last {
        return false;
    }
    if gtid.number - 1 != interval.last {
        return false;
    }
    at + 1 == intervals.len() || Interval::alone(*gtid).stands_before(&intervals[at + 1])
}

/// Makes the interval at this place longer by the GTID, in the intervals and in their text, where it
/// grows by its next number and that has as many digits as the last one.
fn raise(
    intervals: &mut Vec<Interval>,
    text: &mut Vec<u8>,
    at: usize,
    end: usize,
    gtid: &Gtid,
) -> bool
    requires position { IsPosition intervals.old.items }
    requires text { text.old.items ≡ set_text intervals.old.items }
    requires end { end ≡ end_of intervals.old.items at }
    ensures kept { result ≡ false → (intervals.new.items ≡ intervals.old.items) × (text.new.items ≡ text.old.items) }
    ensures set { result ≡ true → intervals.new.items ≡ added intervals.old.items gtid.now }
    ensures position { IsPosition intervals.new.items }
    ensures text { result ≡ true → text.new.items ≡ set_text intervals.new.items }
    ensures end { result ≡ true → end ≡ end_of intervals.new.items at }
{
    if !grows_at(intervals.as_slice(), at, gtid) {
        return false;
    }
    let mut before = Buffer::new();
    let digits = before.format(intervals[at].last).len();
    let mut after = Buffer::new();
    let number = after.format(gtid.number).as_bytes();
    if number.len() != digits {
        return false;
    }
    overwrite(text.as_mut_slice(), end - digits, number);
    intervals[at].last = gtid.number;
    true
}

/// Writes over as many bytes from a place on.
fn overwrite(bytes: &mut [u8], from: usize, with: &[u8])
    requires { from + length with.now ≤ length bytes.old }
    ensures bytes { bytes.new ≡ take from bytes.old ++ (with.now ++ drop (from + length with.now) bytes.old) }
    ensures count { length bytes.new ≡ length bytes.old }
{
    bytes[from..from + with.len()].copy_from_slice(with);
}
