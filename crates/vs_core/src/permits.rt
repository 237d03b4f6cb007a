//! Whether a lane may begin, and whether a piece of it may be taken.
ghost use Rattle.std.specs.List.{list_any};
ghost use Rattle.std.specs.Prelude.{◌≡◌, ◌&&◌, ◌||◌, true};
ghost use Rattle.vs_core.specs.Choices.{held_of};
ghost use Rattle.vs_core.specs.Machine.{MayBegin, MayTake, ends_lane};

use crate::scans::has_live;
use crate::{Core, LaneState};
use std::collections::VecDeque;
use vs_base::ShardName;
use vs_render::Piece;

impl Core {
    /// Whether a lane of the shard may begin.
    pub fn may_begin(&self, name: &ShardName) -> bool
        ensures sure { result ≡ true → MayBegin self.now name.now }
        ensures all { MayBegin self.now name.now → result ≡ true }
    {
        let gate = &self.gate;
        let live = has_live(gate.names.as_slice(), gate.states.as_slice(), name);
        gate.vector.as_vector().stands(name) && !live && !gate.gather.waits(name)
    }

    /// Whether a piece of the lane may be taken.
    pub fn may_take(&self, lane: usize) -> bool
        ensures sure { result ≡ true → MayTake self.now lane }
        ensures all { MayTake self.now lane → result ≡ true }
    {
        match self.gate.states.get(lane) {
            Some(LaneState::Live) => !has_end(&self.held, lane),
            _ => false,
        }
    }
}

/// Whether the piece is the last one of its lane.
fn ends_lane(piece: &Piece) -> bool
    ensures { result ≡ ends_lane piece.now }
{
    match piece {
        Piece::End { cause: _, room: _ } => true,
        _ => false,
    }
}

/// Whether the end is there with this piece too, which is the lane's or not.
fn ends_with(ends: bool, is_of_lane: bool, piece: &Piece) -> bool
    ensures { result ≡ (ends || (is_of_lane && ends_lane piece.now)) }
{
    ends || (is_of_lane && ends_lane(piece))
}

/// Whether the end of the lane is held.
fn has_end(held: &VecDeque<(usize, Piece)>, lane: usize) -> bool
    ensures { result ≡ list_any ends_lane (held_of lane held.now.items) }
{
    let mut ends = false;
    for place in 0..held.len() {
        let (number, piece) = &held[place];
        ends = ends_with(ends, *number == lane, piece);
    }
    ends
}
