//! The set that a text says.
ghost use Rattle.std.specs.Prelude.{◌≡◌, ◌⊎◌, ◌≤◌, IfErr, IfOk, Result, length};
ghost use Rattle.vs_gtid.specs.declared.refusal.GtidRefusal.{GtidRefusal};
ghost use Rattle.vs_gtid.specs.Positions.{IsCanonical, IsPosition, Position};
ghost use Rattle.vs_gtid.specs.Readings.{
  empty_at,
  fault_of,
  first_place,
  intervals_of,
  over_at,
  read,
  zero_at,
  ReadsSet,
};
ghost use Rattle.vs_gtid.specs.Text.{position_text, set_text};

use crate::merge::merge;
use crate::scan::scan_text;
use crate::span::Span;
use crate::{GtidRefusal, GtidSet, Interval};
use std::alloc::Global;

impl GtidSet {
    /// Reads a set's text: UUIDs and intervals in any order, `uuid:a-b:c,uuid:d`, where intervals may
    /// overlap, with blanks round a comma and at both ends, and with or without `MySQL56/` at the
    /// very front. Places count from the text's front. A fault of form anywhere comes before a zero,
    /// a zero before an empty interval, and that before a set of too many intervals.
    pub fn parse(alloc: Global, text: &[u8]) -> Result<GtidSet, GtidRefusal>
        ensures reads { (result ≡ Err GtidRefusal.Memory) ⊎ ReadsSet text.now result }
        ensures only { (r : Result Position GtidRefusal) → ReadsSet text.now r → (result ≡ Err GtidRefusal.Memory) ⊎ (result ≡ r) }
        ensures printed { (p : Position) → IsCanonical p → length p ≤ 1024 → (text.now ≡ set_text p) ⊎ (text.now ≡ position_text p) → (result ≡ Err GtidRefusal.Memory) ⊎ (result ≡ Ok p) }
        ensures position { IfOk result (λ s. IsPosition s) }
    {
        read_set(alloc, text)
    }
}

fn read_set(alloc: Global, text: &[u8]) -> Result<GtidSet, GtidRefusal>
    ensures read { (result ≡ Err GtidRefusal.Memory) ⊎ (result ≡ read text.now) }
    ensures position { IfOk result (λ s. IsPosition s) }
{
    let scan = scan_text(alloc, text)?;
    if let Some(refusal) = fault_of(scan.spans.as_slice(), scan.stop) {
        return Err(refusal);
    }
    merge(alloc, intervals_of(alloc, scan.spans.as_slice())?)
}

fn fault_of(spans: &[Span], stop: Option<usize>) -> Option<GtidRefusal>
    ensures { result ≡ fault_of (first_place over_at spans.now) stop (first_place zero_at spans.now) (first_place empty_at spans.now) }
{
    if let Some(at) = first_over(spans) {
        return Some(GtidRefusal::BadText { at });
    }
    if let Some(at) = stop {
        return Some(GtidRefusal::BadText { at });
    }
    if let Some(at) = first_zero(spans) {
        return Some(GtidRefusal::ZeroNumber { at });
    }
    first_empty(spans).map(|at| GtidRefusal::EmptyInterval { at })
}

/// The place of the first number over the greatest.
fn first_over(spans: &[Span]) -> Option<usize>
    ensures { result ≡ first_place over_at spans.now }
{
    for span in spans {
        if let Some(at) = span.over_at() {
            return Some(at);
        }
    }
    None
}

/// The place of the first number 0.
fn first_zero(spans: &[Span]) -> Option<usize>
    ensures { result ≡ first_place zero_at spans.now }
{
    for span in spans {
        if let Some(at) = span.zero_at() {
            return Some(at);
        }
    }
    None
}

/// The place of the first last number that is below its first.
fn first_empty(spans: &[Span]) -> Option<usize>
    ensures { result ≡ first_place empty_at spans.now }
{
    for span in spans {
        if let Some(at) = span.empty_at() {
            return Some(at);
        }
    }
    None
}

fn intervals_of(alloc: Global, spans: &[Span]) -> Result<Vec<Interval>, GtidRefusal>
    ensures ok { IfOk result (λ v. v.items ≡ intervals_of spans.now) }
    ensures refusals { IfErr result (λ e. e ≡ GtidRefusal.Memory) }
{
    Ok(spans.iter().map(|span| span.interval).collect(alloc)?)
}
