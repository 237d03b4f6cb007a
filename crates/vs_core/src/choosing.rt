//! Which piece is next.
ghost use Rattle.std.specs.Prelude.{◌≡◌, ◌<◌, IfOk, None, Some, length, map};
ghost use Rattle.vs_core.specs.Choices.{IsNextPlace, heads_below, lane_head, piece_time};
ghost use Rattle.vs_core.specs.Machine.{chosen_lane};
ghost use Rattle.vs_pace.specs.declared.head.Head.{Head};

use crate::{Core, OutOfMemory};
use std::alloc::{AllocError, Global};
use std::collections::VecDeque;
use vs_pace::{Head, choose};
use vs_render::Piece;

/// The heads of lanes, and the numbers of these.
#[derive(Drop)]
struct Heads {
    lanes: Vec<usize>,
    heads: Vec<Head>,
}

impl Core {
    /// The lane whose head leaves next, and the place of that piece among those that are held.
    pub(crate) fn next_place(&self, alloc: Global) -> Result<Option<(usize, usize)>, OutOfMemory>
        ensures { IfOk result (λ next. IsNextPlace (chosen_lane self.now) self.now.held next) }
    {
        let skew = self.gate.max_skew();
        let lanes = self.gate.lanes();
        if skew == 0 {
            if let Some((lane, _)) = self.held.front() {
                if *lane < lanes {
                    return Ok(Some((*lane, 0)));
                }
            }
        }
        let heads = heads_of(alloc, &self.held, lanes)?;
        match choose(heads.heads.as_slice(), skew) {
            None => Ok(None),
            Some(i) => match (heads.lanes.get(i), heads.heads.get(i)) {
                (Some(lane), Some(head)) => Ok(Some((*lane, head.taken as usize))),
                _ => Err(AllocError),
            },
        }
    }
}

/// The heads of the lanes with numbers below this one.
fn heads_of(
    alloc: Global,
    held: &VecDeque<(usize, Piece)>,
    lanes: usize,
) -> Result<Heads, OutOfMemory>
    ensures lanes { IfOk result (λ r. r.lanes.items ≡ map (λ h. h.0) (heads_below lanes held.now.items)) }
    ensures heads { IfOk result (λ r. r.heads.items ≡ map (λ h. h.1) (heads_below lanes held.now.items)) }
{
    let mut numbers = Vec::new(alloc);
    let mut heads = Vec::new(alloc);
    for lane in 0..lanes {
        if let Some(head) = lane_head(held, lane) {
            numbers.push(lane)?;
            heads.push(head)?;
        }
    }
    Ok(Heads {
        lanes: numbers,
        heads,
    })
}

/// The head of the lane.
fn lane_head(held: &VecDeque<(usize, Piece)>, lane: usize) -> Option<Head>
    ensures { result ≡ lane_head lane held.now.items }
{
    for place in 0..held.len() {
        let (number, piece) = &held[place];
        if *number == lane {
            return Some(Head {
                time: u64::from(piece_time(piece)),
                taken: place as u64,
            });
        }
    }
    None
}

/// The time of a piece; 0 where it has none.
fn piece_time(piece: &Piece) -> u32
    ensures { result ≡ piece_time piece.now }
{
    match piece {
        Piece::Tx { time, .. }
        | Piece::Foreign { time, .. }
        | Piece::Chunk { time, .. }
        | Piece::CopyDone { time, .. } => *time,
        Piece::Idle { room: _ } => 0,
        Piece::End { cause: _, room: _ } => 0,
    }
}
