//! The base of a log, as the body of its PREVIOUS_GTIDS event.
ghost use Rattle.std.specs.Prelude.{◌≡◌, ◌≤◌, ◌++◌, IfOk, IsTrue, Ok, OnOk, length};
ghost use Rattle.vs_gtid.specs.Block.{block_of};
ghost use Rattle.vs_make.specs.Events.{group_bytes};

use std::alloc::{AllocError, Global};
use vs_base::{Gtid, OutOfMemory};
use vs_gtid::GtidSet;

/// The number behind the greatest of a GTID.
const END: u64 = 9_223_372_036_854_775_807;

/// The bytes of an interval behind its UUID, and the greatest of a body.
const GROUP: usize = 40;

const MOST: usize = 8 + 1024 * GROUP;

/// Appends the GTIDs of one server from the first up to the number before the end.
fn put_group(out: &mut Vec<u8>, first: &Gtid, end: u64) -> Result<(), OutOfMemory>
    ensures { OnOk result (out.new.items ≡ out.old.items ++ group_bytes first.now.uuid first.now.number end) }
{
    out.extend_from_slice(&first.uuid)?;
    out.extend_from_slice(&1u64.to_le_bytes())?;
    out.extend_from_slice(&first.number.to_le_bytes())?;
    out.extend_from_slice(&end.to_le_bytes())?;
    Ok(())
}

/// The body of these groups.
fn block_of_groups(alloc: Global, groups: &[u8]) -> Result<Vec<u8>, OutOfMemory> {
    let count = (groups.len() / GROUP) as u64;
    let mut block = Vec::new(alloc);
    block.extend_from_slice(&count.to_le_bytes())?;
    block.extend_from_slice(groups)?;
    Ok(block)
}

/// The set that a body holds.
fn set_in(alloc: Global, block: &[u8]) -> Result<GtidSet, OutOfMemory>
    ensures { IfOk result (λ s. block_of block.now ≡ Ok s) }
{
    match GtidSet::from_block(alloc, block) {
        Ok(set) => Ok(set),
        Err(_) => Err(AllocError),
    }
}

/// The GTIDs of one server from the first up to the number before the end.
fn set_of(alloc: Global, first: &Gtid, end: u64) -> Result<GtidSet, OutOfMemory> {
    let mut groups = Vec::new(alloc);
    put_group(&mut groups, first, end)?;
    let block = block_of_groups(alloc, groups.as_slice())?;
    set_in(alloc, block.as_slice())
}

/// The number behind those of the set that follow the first without a gap.
fn end_behind(alloc: Global, set: &GtidSet, first: &Gtid) -> Result<u64, OutOfMemory> {
    let all = set_of(alloc, first, END)?;
    match all.first_missing(set) {
        Some(missing) => Ok(missing.number),
        None => Ok(END),
    }
}

fn joined(alloc: Global, set: &GtidSet, other: &GtidSet) -> Result<GtidSet, OutOfMemory> {
    match set.union(alloc, other) {
        Ok(both) => Ok(both),
        Err(_) => Err(AllocError),
    }
}

/// The set's intervals, each as a group.
fn groups_of(alloc: Global, set: &GtidSet) -> Result<Vec<u8>, OutOfMemory> {
    let mut groups = Vec::new(alloc);
    let mut seen = GtidSet::new(alloc);
    for _ in 0..set.intervals() {
        let Some(first) = set.first_missing(&seen) else {
            return Ok(groups);
        };
        let end = end_behind(alloc, set, &first)?;
        put_group(&mut groups, &first, end)?;
        seen = joined(alloc, &seen, &set_of(alloc, &first, end)?)?;
    }
    Ok(groups)
}

fn is_equal(a: &GtidSet, b: &GtidSet) -> bool
    ensures { IsTrue result → a.now ≡ b.now }
{
    a.is_subset(b) && b.is_subset(a)
}

/// The body that holds the set. It is read again before it is taken, and has at most 40,968 bytes.
pub(crate) fn base_block(alloc: Global, set: &GtidSet) -> Result<Vec<u8>, OutOfMemory>
    ensures holds { IfOk result (λ b. block_of b.items ≡ Ok set.now) }
    ensures short { IfOk result (λ b. length b.items ≤ 40968) }
{
    let groups = groups_of(alloc, set)?;
    let block = block_of_groups(alloc, groups.as_slice())?;
    let read = set_in(alloc, block.as_slice())?;
    if !is_equal(&read, set) || block.len() > MOST {
        return Err(AllocError);
    }
    Ok(block)
}
