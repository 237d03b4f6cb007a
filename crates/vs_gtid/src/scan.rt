//! The spans of a set's text.
ghost use Rattle.std.specs.Prelude.{◌≡◌, ◌++◌, IfErr, IfOk, OnOk};
ghost use Rattle.vs_gtid.specs.Parts.{begun, end_of, ended, scanned};

use crate::GtidRefusal;
use crate::part::{Part, goes_on};
use crate::span::Span;
use std::alloc::Global;

/// The spans up to where a text stops to fit, the last of them maybe cut; and that place.
#[derive(Debug, Drop)]
pub(crate) struct Scan {
    pub(crate) spans: Vec<Span>,
    pub(crate) stop: Option<usize>,
}

pub(crate) fn scan_text(alloc: Global, text: &[u8]) -> Result<Scan, GtidRefusal>
    ensures spans { IfOk result (λ s. s.spans.items ≡ (scanned text.now).spans) }
    ensures stop { IfOk result (λ s. s.stop ≡ (scanned text.now).stop) }
    ensures refusals { IfErr result (λ e. e ≡ GtidRefusal.Memory) }
{
    let mut spans = Vec::new(alloc);
    let mut part = Part::Opening;
    for (at, byte) in text.iter().enumerate() {
        let Some(next) = part.next(text, at, *byte) else {
            put_begun(part, &mut spans)?;
            return Ok(Scan {
                spans,
                stop: Some(at),
            });
        };
        put_ended(part, *byte, &mut spans)?;
        part = next;
    }
    put_begun(part, &mut spans)?;
    Ok(Scan {
        spans,
        stop: end_of(part, text.len()),
    })
}

/// The end of a text, where it can't end there.
fn end_of(part: Part, end: usize) -> Option<usize>
    ensures { result ≡ end_of part end }
{
    if part.may_end(end) { None } else { Some(end) }
}

/// Appends the span that ends before the byte.
fn put_ended(part: Part, byte: u8, spans: &mut Vec<Span>) -> Result<(), GtidRefusal>
    ensures ok { OnOk result (spans.new.items ≡ spans.old.items ++ ended part byte) }
    ensures refusals { IfErr result (λ e. e ≡ GtidRefusal.Memory) }
{
    if goes_on(byte) {
        return Ok(());
    }
    put_begun(part, spans)
}

fn put_begun(part: Part, spans: &mut Vec<Span>) -> Result<(), GtidRefusal>
    ensures ok { OnOk result (spans.new.items ≡ spans.old.items ++ begun part) }
    ensures refusals { IfErr result (λ e. e ≡ GtidRefusal.Memory) }
{
    if let Some(span) = part.begun() {
        spans.push(span)?;
    }
    Ok(())
}
