//! Which head leaves next.
ghost use Rattle.std.specs.Prelude.{◌≡◌, MatchOption, []};
ghost use Rattle.vs_pace.specs.Heads.{IsNext, better, rank};

use crate::laws::steps;

/// The oldest unsent piece of a lane: its time in seconds, 0 where it has none, and when it was taken
/// among the pieces that are held.
#[derive(Debug, Clone, Copy, PartialEq, Eq)]
pub struct Head {
    pub time: u64,
    pub taken: u64,
}

/// The place of the head that leaves next: without a skew in seconds, the one that was taken first;
/// with one, the oldest.
pub fn choose(heads: &[Head], max_skew: u64) -> Option<usize>
    ensures { MatchOption result (heads.now ≡ []) (IsNext max_skew heads.now) }
{
    steps();
    let mut next = None;
    for (place, head) in heads.iter().enumerate() {
        next = better(next, (place, rank(head, max_skew)));
    }
    next.map(|(place, _)| place)
}

/// The number by which a head stands in the order of leaving.
fn rank(head: &Head, max_skew: u64) -> u64
    ensures { result ≡ rank max_skew head.now }
{
    if max_skew == 0 { head.taken } else { head.time }
}

/// Of two places with the ranks of their heads the one with the lesser rank, the former among equals.
fn better(former: Option<(usize, u64)>, later: (usize, u64)) -> Option<(usize, u64)>
    ensures { result ≡ better former later }
{
    match former {
        Some((_, rank)) if rank <= later.1 => former,
        _ => Some(later),
    }
}
