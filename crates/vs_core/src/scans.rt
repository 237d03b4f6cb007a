//! What is read off the vector and the states of lanes.
ghost use Rattle.std.specs.List.{filter, list_all, list_any};
ghost use Rattle.std.specs.Option.{option_map_or};
ghost use Rattle.std.specs.Prelude.{◌≡◌, ◌||◌, ◌&&◌, ◌∷◌, [], false, length, slice_get, true};
ghost use Rattle.vs_core.specs.Machine.{is_at_end, is_failed, is_live, last_at_end, states_of};
ghost use Rattle.vs_core.specs.Scans.{lane_state};
ghost use Rattle.vs_gather.specs.Gathering.{waits};
ghost use Rattle.vs_gtid.specs.Vectors.{names};
ghost use Rattle.vs_model.specs.Core.{copies_in, some_copies};

use crate::LaneState;
use crate::gate::Gate;
use vs_base::ShardName;
use vs_vector::{Place, Vector};

/// How the shards of the vector stand, where no piece is held.
#[derive(Debug, Clone, Copy, PartialEq, Eq)]
pub(crate) struct Standing {
    /// Each is at its log's end.
    pub all_ended: bool,
    /// Each is at its log's end or waits at a journal.
    pub all_rest: bool,
    /// One waits at a journal.
    pub some_wait: bool,
}

fn either(a: bool, b: bool) -> bool
    ensures { result ≡ (a || b) }
{
    a || b
}

fn both(a: bool, b: bool) -> bool
    ensures { result ≡ (a && b) }
{
    a && b
}

/// The state of the lane, if it is one of the shard's.
fn lane_state(
    names: &[ShardName],
    states: &[LaneState],
    name: &ShardName,
    lane: usize,
) -> Option<LaneState>
    ensures { result ≡ lane_state name.now names.now states.now lane }
{
    let Some(other) = names.get(lane) else {
        return None;
    };
    if !other.is_same(name) {
        return None;
    }
    match states.get(lane) {
        Some(state) => Some(*state),
        None => None,
    }
}

fn has_failed(state: Option<LaneState>) -> bool
    ensures { result ≡ option_map_or is_failed state false }
{
    match state {
        Some(LaneState::Failed) => true,
        _ => false,
    }
}

fn is_live(state: Option<LaneState>) -> bool
    ensures { result ≡ option_map_or is_live state false }
{
    match state {
        Some(LaneState::Live) => true,
        _ => false,
    }
}

/// Whether the shard is at its log's end after a lane more, if the lane is the shard's.
fn ends_so(at_end: bool, state: Option<LaneState>) -> bool
    ensures { result ≡ option_map_or (λ s. last_at_end (s ∷ [])) state at_end }
{
    match state {
        Some(LaneState::AtEnd) => true,
        Some(_) => false,
        None => at_end,
    }
}

/// How many of the shard's lanes failed.
pub(crate) fn failures(names: &[ShardName], states: &[LaneState], name: &ShardName) -> usize
    ensures { result ≡ length (filter is_failed (states_of name.now names.now states.now)) }
{
    let mut failed = 0;
    for lane in 0..names.len() {
        if has_failed(lane_state(names, states, name, lane)) {
            failed += 1;
        }
    }
    failed
}

/// Whether the shard's last lane came to the log's end.
fn last_at_end(names: &[ShardName], states: &[LaneState], name: &ShardName) -> bool
    ensures { result ≡ last_at_end (states_of name.now names.now states.now) }
{
    let mut at_end = false;
    for lane in 0..names.len() {
        at_end = ends_so(at_end, lane_state(names, states, name, lane));
    }
    at_end
}

/// Whether one of the shard's lanes is live.
pub(crate) fn has_live(names: &[ShardName], states: &[LaneState], name: &ShardName) -> bool
    ensures { result ≡ list_any is_live (states_of name.now names.now states.now) }
{
    let mut live = false;
    for lane in 0..names.len() {
        live = either(live, is_live(lane_state(names, states, name, lane)));
    }
    live
}

/// Whether the shard copies.
fn copies(vector: &Vector, name: &ShardName) -> bool
    ensures { result ≡ copies_in vector.now name.now }
{
    match vector.get(name) {
        Some(at) => match (&at.start, &at.last_key) {
            (Place::Fresh, _) => true,
            (Place::At(_), Some(_)) => true,
            (Place::At(_), None) => false,
        },
        None => false,
    }
}

/// Whether the shard at this place of the vector copies.
fn copies_at(vector: &Vector, i: usize) -> bool
    ensures { result ≡ option_map_or (copies_in vector.now) (slice_get (names vector.now) i) false }
{
    match vector.name_at(i) {
        Some(name) => copies(vector, name),
        None => false,
    }
}

/// Whether a shard of the vector copies.
pub(crate) fn some_copies(vector: &Vector) -> bool
    ensures { result ≡ some_copies vector.now }
{
    let mut copying = false;
    for i in 0..vector.len() {
        copying = either(copying, copies_at(vector, i));
    }
    copying
}

impl Gate {
    /// Whether the shard is at its log's end.
    fn is_at_end(&self, name: &ShardName) -> bool
        ensures { result ≡ is_at_end self.now name.now }
    {
        last_at_end(self.names.as_slice(), self.states.as_slice(), name)
    }

    /// Whether the shard at this place of the vector is at its log's end.
    fn ends_at(&self, i: usize) -> bool
        ensures { result ≡ option_map_or (is_at_end self.now) (slice_get (names self.now.vector) i) true }
    {
        match self.vector.as_vector().name_at(i) {
            Some(name) => self.is_at_end(name),
            None => true,
        }
    }

    /// Whether the shard at this place of the vector waits at a journal.
    fn waits_at(&self, i: usize) -> bool
        ensures { result ≡ option_map_or (waits self.now.kept) (slice_get (names self.now.vector) i) false }
    {
        match self.vector.as_vector().name_at(i) {
            Some(name) => self.gather.waits(name),
            None => false,
        }
    }

    /// How the shards of the vector stand.
    pub(crate) fn standing(&self) -> Standing
        ensures ended { result.all_ended ≡ list_all (is_at_end self.now) (names self.now.vector) }
        ensures rest { result.all_rest ≡ list_all (λ n. is_at_end self.now n || waits self.now.kept n) (names self.now.vector) }
        ensures wait { result.some_wait ≡ list_any (waits self.now.kept) (names self.now.vector) }
    {
        let mut all_ended = true;
        let mut all_rest = true;
        let mut some_wait = false;
        for i in 0..self.vector.as_vector().len() {
            let ended = self.ends_at(i);
            let waiting = self.waits_at(i);
            all_ended = both(all_ended, ended);
            all_rest = both(all_rest, either(ended, waiting));
            some_wait = either(some_wait, waiting);
        }
        Standing {
            all_ended,
            all_rest,
            some_wait,
        }
    }
}
