//! The next entry that a position lacks, and the end of a log.
ghost use Rattle.std.specs.Prelude.{◌≡◌, [], IfOk, MatchOption, None, Some, false, true, unwrap_or};
ghost use Rattle.vs_gtid.specs.Joins.{added};
ghost use Rattle.vs_log.specs.Meaning.{knows_base};
ghost use Rattle.vs_lane.specs.Ends.{Found};
ghost use Rattle.vs_lane.specs.Feeding.{IsLater, IsSound, log_read, rules_read};
ghost use Rattle.vs_lane.specs.Steps.{ComesDue};

use crate::OutOfMemory;
use crate::entries::{Came, Entries};
use std::alloc::{AllocError, Global};
use vs_base::Gtid;
use vs_gtid::GtidSet;
use vs_outside::Feed;
use vs_render::EndCause;

/// The next entry that the position lacks, or what comes in its place.
pub(crate) fn next_due<F: Feed>(entries: &mut Entries<F>, start: &GtidSet) -> Came
    requires { IsSound entries.old }
    ensures later { IsLater entries.old entries.new }
    ensures comes { ComesDue start.now entries.old result entries.new }
    ensures sound { IsSound entries.new }
{
    for _ in 0..u64::MAX {
        match entries.next() {
            Came::Entry { entry, at } => {
                if !start.contains(&entry.gtid) {
                    return Came::Entry { entry, at };
                }
            }
            came => return came,
        }
    }
    Came::Memory
}

/// The base of the log, as far as it is known.
fn base_of<F: Feed>(alloc: Global, entries: &Entries<F>) -> Result<GtidSet, OutOfMemory>
    ensures { IfOk result (λ b. b ≡ (log_read entries.now).base) }
{
    match entries.base() {
        Some(base) => base.copy(alloc),
        None => Ok(GtidSet::new(alloc)),
    }
}

/// The position behind one more entry; before the first one it is the log's base.
fn moved_behind<F: Feed>(
    alloc: Global,
    entries: &Entries<F>,
    position: Option<GtidSet>,
    gtid: Gtid,
) -> Result<GtidSet, OutOfMemory>
    ensures { IfOk result (λ p. p ≡ added (unwrap_or position (log_read entries.now).base) gtid) }
{
    let mut moved = match position {
        Some(position) => position,
        None => base_of(alloc, entries)?,
    };
    match moved.add(gtid) {
        Ok(()) => Ok(moved),
        // No log is read whose GTIDs make a set of too many intervals.
        Err(_) => Err(AllocError),
    }
}

/// The position where the feed has nothing yet; none where the base isn't known.
fn position_at_wait<F: Feed>(
    alloc: Global,
    entries: &Entries<F>,
    position: Option<GtidSet>,
) -> Result<Option<GtidSet>, OutOfMemory>
    ensures { IfOk result (λ o. MatchOption o ((position ≡ None) × (knows_base (rules_read entries.now) entries.now.bytes ≡ false)) (λ p. (p ≡ unwrap_or position (log_read entries.now).base) × (position ≡ None → knows_base (rules_read entries.now) entries.now.bytes ≡ true))) }
{
    if let Some(position) = position {
        return Ok(Some(position));
    }
    match entries.base() {
        Some(base) => Ok(Some(base.copy(alloc)?)),
        None => Ok(None),
    }
}

/// The position where the feed has ended.
fn position_at_end<F: Feed>(
    alloc: Global,
    entries: &Entries<F>,
    position: Option<GtidSet>,
) -> Result<GtidSet, OutOfMemory>
    ensures { IfOk result (λ p. p ≡ unwrap_or position (log_read entries.now).base) }
{
    match position {
        Some(position) => Ok(position),
        None => base_of(alloc, entries),
    }
}

/// The end of a log: its base with the GTIDs of all entries that are whole where the feed has nothing
/// yet, or has ended. None where the base isn't known yet. The entries are dropped.
pub(crate) fn seek_end<F: Feed>(
    alloc: Global,
    entries: &mut Entries<F>,
) -> Result<Option<GtidSet>, EndCause>
    requires sound { IsSound entries.old }
    requires unread { entries.old.read ≡ [] }
    ensures later { IsLater entries.old entries.new }
    ensures finds { Found entries.old result entries.new }
    ensures sound { IsSound entries.new }
{
    let mut position = None;
    for _ in 0..u64::MAX {
        match entries.next() {
            Came::Entry { entry, .. } => {
                match moved_behind(alloc, entries, position, entry.gtid) {
                    Ok(moved) => position = Some(moved),
                    Err(_) => return Err(EndCause::Memory),
                }
            }
            Came::NotYet => {
                return match position_at_wait(alloc, entries, position) {
                    Ok(found) => Ok(found),
                    Err(_) => Err(EndCause::Memory),
                };
            }
            Came::End => {
                return match position_at_end(alloc, entries, position) {
                    Ok(found) => Ok(Some(found)),
                    Err(_) => Err(EndCause::Memory),
                };
            }
            Came::FeedFault => return Err(EndCause::FeedFault),
            Came::BadLog { offset, why } => return Err(EndCause::BadLog { offset, why }),
            Came::Memory => return Err(EndCause::Memory),
        }
    }
    Err(EndCause::Memory)
}
