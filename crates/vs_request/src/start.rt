//! The position of an entry.
ghost use Rattle.std.specs.Prelude.{◌≡◌, ◌⊎◌, ℕ, MatchResult, nat_eq};
ghost use Rattle.std.specs.Cmp.Lexicographic.{pointwise};
ghost use Rattle.vs_request.specs.Starts.{IsRefusedAt, StartsAs};

use crate::{RequestRefusal, StartAt};
use std::alloc::Global;
use vs_gtid::{GtidRefusal, GtidSet};

fn is_same(a: &[u8], b: &[u8]) -> bool
    ensures { result ≡ pointwise nat_eq a.now b.now }
{
    a == b
}

/// The start that the text of the entry at this index says.
pub(crate) fn read_start(
    alloc: Global,
    index: usize,
    text: &[u8],
) -> Result<StartAt, RequestRefusal>
    ensures { MatchResult result (λ start. StartsAs text.now start) (λ e. (e ≡ RequestRefusal.Memory) ⊎ ((at : ℕ) × (e ≡ RequestRefusal.BadPosition index at) × IsRefusedAt text.now at)) }
{
    if text.is_empty() {
        return Ok(StartAt::Fresh);
    }
    if is_same(text, b"current") {
        return Ok(StartAt::Current);
    }
    match GtidSet::parse(alloc, text) {
        Ok(set) => Ok(StartAt::At(set)),
        Err(GtidRefusal::Memory) => Err(RequestRefusal::Memory),
        Err(GtidRefusal::BadText { at }) => Err(RequestRefusal::BadPosition { index, at }),
        Err(GtidRefusal::ZeroNumber { at }) => Err(RequestRefusal::BadPosition { index, at }),
        Err(GtidRefusal::EmptyInterval { at }) => Err(RequestRefusal::BadPosition { index, at }),
        Err(GtidRefusal::BadBlock { at }) => Err(RequestRefusal::BadPosition { index, at }),
        Err(GtidRefusal::TooManyIntervals) => {
            let at = text.len();
            Err(RequestRefusal::BadPosition { index, at })
        }
    }
}
