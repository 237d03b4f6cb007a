//! The entries of a log that are due to a shard: those before the first journal of its own that its
//! position lacks.
ghost use Rattle.std.specs.Prelude.{◌≡◌, ◌≤◌, ℕ, MatchOption, None, Some, length, take};
ghost use Rattle.vs_base.specs.declared.Gtid.{Gtid};
ghost use Rattle.vs_model.specs.Logs.{is_own, own_journal};
ghost use Rattle.vs_command.specs.Fetched.{IsPlaced, entries_of};
ghost use Rattle.vs_command.specs.Stops.{AreDue, number_of};

use crate::fetched::Placed;
use vs_base::ShardName;
use vs_gtid::GtidSet;
use vs_journal::{Entry, JournalValue, Work};
use vs_vector::is_among;

/// The first entries of a log, and the number of the journal that stops the shard behind them.
#[derive(Clone, Copy)]
pub struct Due<'a> {
    pub entries: &'a [Placed],
    pub stop: Option<i64>,
}

/// How many entries stand before a journal, and its number.
#[derive(Clone, Copy)]
struct Found {
    count: usize,
    number: Option<i64>,
}

/// Whether the journal names the shard as a participant that it replaces.
fn is_own(journal: &JournalValue, name: &ShardName) -> bool
    ensures { result ≡ is_own name.now journal.now }
{
    if !journal.shards {
        return false;
    }
    is_among(name, journal.participants.as_slice())
}

/// The number of the shard's own journal that the entry is, if it is one.
fn own_number(entry: &Entry, name: &ShardName) -> Option<i64>
    ensures { result ≡ number_of (own_journal name.now entry.now) }
{
    match &entry.work {
        Work::Journal(journal) => {
            if is_own(journal, name) {
                return Some(journal.id);
            }
            None
        }
        _ => None,
    }
}

/// The first journal of the shard's own that the start lacks.
fn find_stop(entries: &[Placed], name: &ShardName, start: &GtidSet) -> Option<Found>
    ensures { MatchOption result (AreDue name.now start.now (entries_of entries.now) (entries_of entries.now) None) (λ found. (found.count ≤ length entries.now) × AreDue name.now start.now (entries_of entries.now) (entries_of (take found.count entries.now)) found.number) }
{
    for (count, placed) in entries.iter().enumerate() {
        let number = own_number(&placed.entry, name);
        if number.is_none() {
            continue;
        }
        if start.contains(&placed.entry.gtid) {
            continue;
        }
        return Some(Found { count, number });
    }
    None
}

/// What is due to a shard from a start.
#[tactic(auto, using(crate::proofs::StopLemmas::placed_first))]
pub fn due_entries<'a>(entries: &'a [Placed], name: &ShardName, start: &GtidSet) -> Due<'a>
    ensures due { AreDue name.now start.now (entries_of entries.now) (entries_of result.entries.now) result.stop }
    ensures placed { (g : Gtid) (at : ℕ) → IsPlaced result.entries.now g at → IsPlaced entries.now g at }
{
    match find_stop(entries, name, start) {
        Some(found) => Due {
            entries: &entries[..found.count],
            stop: found.number,
        },
        None => Due {
            entries,
            stop: None,
        },
    }
}
