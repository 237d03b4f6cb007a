//! The body of a PREVIOUS_GTIDS event of MySQL's binlog, which holds a set of GTIDs.
ghost use Rattle.std.specs.Prelude.{◌≡◌, ◌≤◌, ◌⊎◌, ◌+◌, ◌*◌, length, All, IfOk, OnOk, OnSome, Ok};
ghost use Rattle.vs_gtid.specs.Block.{
  block_of,
  both,
  group_at,
  groups_at,
  next_group,
  number_at,
  outcome,
  span_at,
  spans_at,
  uuid_at,
};
ghost use Rattle.vs_gtid.specs.Positions.{IsInterval, IsPosition};

use crate::merge::merge;
use crate::{GtidRefusal, GtidSet, Interval};
use byteorder::{ByteOrder, LittleEndian};
use std::alloc::Global;
use uuid::Uuid;

impl GtidSet {
    /// Reads the body of a PREVIOUS_GTIDS event: a count of UUIDs, and per UUID its 16 bytes, a count
    /// of intervals, and per interval its first number and the number behind its last. Each number
    /// has eight bytes, the lowest first. UUIDs and intervals may stand in any order and overlap.
    pub fn from_block(alloc: Global, body: &[u8]) -> Result<GtidSet, GtidRefusal>
        ensures block { (result ≡ Err GtidRefusal.Memory) ⊎ (result ≡ block_of body.now) }
        ensures position { IfOk result (λ s. IsPosition s) }
    {
        let Some(count) = read_number(body, 0) else {
            return Err(GtidRefusal::BadBlock { at: 0 });
        };
        let mut intervals = Vec::new(alloc);
        read_groups(body, count, &mut intervals)?;
        merge(alloc, intervals)
    }
}

fn read_groups(body: &[u8], count: u64, intervals: &mut Vec<Interval>) -> Result<(), GtidRefusal>
    requires start { 8 ≤ length body.now }
    requires intervals { All IsInterval intervals.old.items }
    ensures intervals { OnOk result (All IsInterval intervals.new.items) }
    ensures groups { (result ≡ Err GtidRefusal.Memory) ⊎ (outcome result intervals.new.items ≡ both (Ok intervals.old.items) (groups_at count body.now 8)) }
{
    let mut at = 8;
    for group in 0..count {
        at = read_group(body, at, intervals)?;
    }
    Ok(())
}

/// Reads a UUID and its intervals, and answers the place behind them.
#[tactic(auto, unfolding(crate::specs::Block::group_at, crate::specs::Block::next_group))]
fn read_group(body: &[u8], at: usize, intervals: &mut Vec<Interval>) -> Result<usize, GtidRefusal>
    requires place { at ≤ length body.now }
    requires intervals { All IsInterval intervals.old.items }
    ensures intervals { OnOk result (All IsInterval intervals.new.items) }
    ensures group { (result ≡ Err GtidRefusal.Memory) ⊎ (outcome result intervals.new.items ≡ both (Ok intervals.old.items) (group_at body.now at)) }
    ensures behind { IfOk result (λ place. (place ≡ next_group body.now at) × (place ≤ length body.now)) }
{
    let Some(uuid) = read_uuid(body, at) else {
        return Err(GtidRefusal::BadBlock { at });
    };
    let Some(count) = read_number(body, at + 16) else {
        return Err(GtidRefusal::BadBlock { at: at + 16 });
    };
    read_spans(body, at + 24, uuid, count, intervals)
}

/// Reads the intervals of a UUID, and answers the place behind them.
fn read_spans(
    body: &[u8],
    at: usize,
    uuid: [u8; 16],
    count: u64,
    intervals: &mut Vec<Interval>,
) -> Result<usize, GtidRefusal>
    requires place { at ≤ length body.now }
    requires intervals { All IsInterval intervals.old.items }
    ensures intervals { OnOk result (All IsInterval intervals.new.items) }
    ensures spans { (result ≡ Err GtidRefusal.Memory) ⊎ (outcome result intervals.new.items ≡ both (Ok intervals.old.items) (spans_at count body.now uuid at)) }
    ensures behind { IfOk result (λ place. (place ≡ at + 16 * count) × (place ≤ length body.now)) }
{
    let mut place = at;
    for span in 0..count {
        let interval = read_span(body, place, uuid)?;
        intervals.push(interval)?;
        place += 16;
    }
    Ok(place)
}

#[tactic(auto, unfolding(crate::specs::Block::span_at))]
fn read_span(body: &[u8], at: usize, uuid: [u8; 16]) -> Result<Interval, GtidRefusal>
    requires { at ≤ length body.now }
    ensures span { result ≡ span_at body.now uuid at }
    ensures interval { IfOk result (λ i. IsInterval i) }
    ensures within { OnOk result (at + 16 ≤ length body.now) }
{
    let Some(first) = read_number(body, at) else {
        return Err(GtidRefusal::BadBlock { at });
    };
    if first < 1 || first >= 0x8000_0000_0000_0000 {
        return Err(GtidRefusal::BadBlock { at });
    }
    let Some(end) = read_number(body, at + 8) else {
        return Err(GtidRefusal::BadBlock { at: at + 8 });
    };
    if end <= first || end >= 0x8000_0000_0000_0000 {
        return Err(GtidRefusal::BadBlock { at: at + 8 });
    }
    Ok(Interval {
        uuid,
        first,
        last: end - 1,
    })
}

#[tactic(auto, unfolding(crate::specs::Block::number_at))]
fn read_number(body: &[u8], at: usize) -> Option<u64>
    requires { at ≤ length body.now }
    ensures number { result ≡ number_at body.now at }
    ensures within { OnSome result (at + 8 ≤ length body.now) }
{
    if body.len() - at < 8 {
        return None;
    }
    Some(LittleEndian::read_u64(&body[at..]))
}

#[tactic(auto, unfolding(crate::specs::Block::uuid_at))]
fn read_uuid(body: &[u8], at: usize) -> Option<[u8; 16]>
    requires { at ≤ length body.now }
    ensures uuid { result ≡ uuid_at body.now at }
    ensures within { OnSome result (at + 16 ≤ length body.now) }
{
    if body.len() - at < 16 {
        return None;
    }
    Some(Uuid::from_slice(&body[at..at + 16]).unwrap().into_bytes())
}
