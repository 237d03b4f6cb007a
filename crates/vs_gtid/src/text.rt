//! The printed text of a set.
ghost use Rattle.std.specs.Prelude.{◌≡◌, ◌++◌, decimal, OnErr, OnOk};
ghost use Rattle.vs_gtid.specs.Positions.{IsPosition};
ghost use Rattle.vs_gtid.specs.Text.{next_text, opening_text, set_text, span_text};

use crate::{GtidSet, Interval, OutOfMemory};
use itoa::Buffer;
use std::alloc::Global;
use uuid::Uuid;

impl GtidSet {
    /// Appends the printed set, without the prefix of a position: UUIDs ascending and in lower case,
    /// and the intervals of each.
    pub fn put_text(&self, alloc: Global, out: &mut Vec<u8>) -> Result<(), OutOfMemory>
        ensures ok { OnOk result (out.new.items ≡ out.old.items ++ set_text self.now) }
        ensures err { OnErr result (out.new.items ≡ out.old.items) }
        ensures position { IsPosition self.now }
    {
        let mut text = Vec::new(alloc);
        put_set(self.intervals.as_slice(), &mut text)?;
        out.extend_from_slice(text.as_slice())
    }
}

pub(crate) fn put_set(intervals: &[Interval], text: &mut Vec<u8>) -> Result<(), OutOfMemory>
    ensures { OnOk result (text.new.items ≡ text.old.items ++ set_text intervals.now) }
{
    if intervals.is_empty() {
        return Ok(());
    }
    put_opening(&intervals[0], text)?;
    for place in 1..intervals.len() {
        put_next(&intervals[place - 1], &intervals[place], text)?;
    }
    Ok(())
}

#[tactic(auto, unfolding(crate::specs::Text::next_text))]
fn put_next(before: &Interval, interval: &Interval, text: &mut Vec<u8>) -> Result<(), OutOfMemory>
    ensures { OnOk result (text.new.items ≡ text.old.items ++ next_text before.now interval.now) }
{
    if before.uuid == interval.uuid {
        text.extend_from_slice(b":")?;
        put_span(interval, text)
    } else {
        text.extend_from_slice(b",")?;
        put_opening(interval, text)
    }
}

#[tactic(auto, unfolding(crate::specs::Text::opening_text))]
fn put_opening(interval: &Interval, text: &mut Vec<u8>) -> Result<(), OutOfMemory>
    ensures { OnOk result (text.new.items ≡ text.old.items ++ opening_text interval.now) }
{
    let mut buffer = Uuid::encode_buffer();
    let uuid = Uuid::from_bytes(interval.uuid).hyphenated();
    text.extend_from_slice(uuid.encode_lower(&mut buffer).as_bytes())?;
    text.extend_from_slice(b":")?;
    put_span(interval, text)
}

fn put_span(interval: &Interval, text: &mut Vec<u8>) -> Result<(), OutOfMemory>
    ensures { OnOk result (text.new.items ≡ text.old.items ++ span_text interval.now) }
{
    put_number(interval.first, text)?;
    if interval.first != interval.last {
        text.extend_from_slice(b"-")?;
        put_number(interval.last, text)?;
    }
    Ok(())
}

fn put_number(number: u64, text: &mut Vec<u8>) -> Result<(), OutOfMemory>
    ensures { OnOk result (text.new.items ≡ text.old.items ++ decimal number) }
{
    let mut buffer = Buffer::new();
    text.extend_from_slice(buffer.format(number).as_bytes())
}
