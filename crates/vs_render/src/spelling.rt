//! Events, spelled without messages in between.
ghost use Rattle.std.specs.Prelude.{◌≡◌, ◌++◌, ◌<◌, ◌≤◌, ◌^◌, [], ◌∷◌, List, OnOk, drop, length, pos, take, ℕ, ℤ};
ghost use Rattle.std.specs.Int.{cast_unsigned, w64};
ghost use Rattle.vs_wire.specs.Fields.{field_bytes, sized};
ghost use Rattle.vs_proto.specs.Frames.{events_bytes};
ghost use Rattle.vs_proto.specs.Kinds.{if_any, if_some};
ghost use Rattle.vs_proto.specs.Shapes.{values_bytes};
ghost use Rattle.vs_render.specs.Events.{head_of, plain_event, vector_event};
ghost use Rattle.vs_render.specs.Spelling.{event_around, event_end, event_start};

use crate::OutOfMemory;
use std::alloc::Global;
use vs_base::ShardName;
use vs_proto::{VGtid, event_kind, write_vgtid};
use vs_wire::{put_bytes, put_number, put_varint};

/// Appends a field of a number, unless it is 0.
pub(crate) fn put_nonzero(
    alloc: Global,
    out: &mut Vec<u8>,
    field: u32,
    n: u64,
) -> Result<(), OutOfMemory>
    requires low { 1 ≤ field }
    requires high { field < 2 ^ 29 }
    ensures { OnOk result (out.new.items ≡ out.old.items ++ values_bytes field (if_some n)) }
{
    if n == 0 {
        return Ok(());
    }
    put_number(alloc, out, field, n)
}

/// Appends a field of some bytes, unless there are none.
pub(crate) fn put_text(
    alloc: Global,
    out: &mut Vec<u8>,
    field: u32,
    bytes: &[u8],
) -> Result<(), OutOfMemory>
    requires low { 1 ≤ field }
    requires high { field < 2 ^ 29 }
    ensures { OnOk result (out.new.items ≡ out.old.items ++ values_bytes field (if_any bytes.now)) }
{
    if bytes.is_empty() {
        return Ok(());
    }
    put_bytes(alloc, out, field, bytes)
}

/// Puts what stands behind a place in front of what stands between two.
fn bring_forward(bytes: &mut [u8], start: usize, end: usize)
    requires ordered { start ≤ end }
    requires within { end ≤ length bytes.old }
    ensures items { bytes.new ≡ take start bytes.old ++ (drop end bytes.old ++ drop start (take end bytes.old)) }
    ensures len { length bytes.new ≡ length bytes.old }
{
    let head = bytes.len() - end;
    bytes[start..].rotate_right(head);
}

/// Puts the head of a field in front of the bytes from a place on, which are its value.
pub(crate) fn enclose(
    alloc: Global,
    out: &mut Vec<u8>,
    start: usize,
    field: u32,
) -> Result<(), OutOfMemory>
    requires low { 1 ≤ field }
    requires high { field < 2 ^ 29 }
    requires within { start ≤ length out.old.items }
    ensures { OnOk result (out.new.items ≡ take start out.old.items ++ field_bytes field (sized (drop start out.old.items))) }
{
    let end = out.len();
    put_varint(alloc, out, u64::from(field) * 8 + 2)?;
    put_varint(alloc, out, (end - start) as u64)?;
    bring_forward(out.as_mut_slice(), start, end);
    Ok(())
}

/// The same of a field that isn't written where it has no bytes.
pub(crate) fn enclose_any(
    alloc: Global,
    out: &mut Vec<u8>,
    start: usize,
    field: u32,
) -> Result<(), OutOfMemory>
    requires low { 1 ≤ field }
    requires high { field < 2 ^ 29 }
    requires within { start ≤ length out.old.items }
    ensures { OnOk result (out.new.items ≡ take start out.old.items ++ values_bytes field (if_any (drop start out.old.items))) }
{
    if out.len() == start {
        return Ok(());
    }
    enclose(alloc, out, start, field)
}

/// Appends the kind of an event, and its time.
pub(crate) fn put_start(
    alloc: Global,
    out: &mut Vec<u8>,
    name: &ShardName,
    time: u32,
    kind: u32,
) -> Result<(), OutOfMemory>
    ensures { OnOk result (out.new.items ≡ out.old.items ++ event_start (head_of name.now time) (pos kind)) }
{
    put_nonzero(alloc, out, 1, u64::from(kind))?;
    put_nonzero(alloc, out, 2, u64::from(time))?;
    Ok(())
}

/// Appends the names of a shard, with which its events end.
fn put_end(alloc: Global, out: &mut Vec<u8>, name: &ShardName, time: u32) -> Result<(), OutOfMemory>
    ensures { OnOk result (out.new.items ≡ out.old.items ++ event_end (head_of name.now time)) }
{
    put_text(alloc, out, 22, name.keyspace.as_bytes())?;
    put_text(alloc, out, 23, name.shard.as_bytes())?;
    Ok(())
}

/// Ends the event that begins at a place. What stands behind another place of it is the message of its own field.
pub(crate) fn close_event(
    alloc: Global,
    out: &mut Vec<u8>,
    start: usize,
    inside: usize,
    name: &ShardName,
    time: u32,
    field: u32,
) -> Result<(), OutOfMemory>
    requires low { 1 ≤ field }
    requires high { field < 2 ^ 29 }
    requires ordered { start ≤ inside }
    requires within { inside ≤ length out.old.items }
    ensures { (front message : List ℕ) (kind : ℤ) → out.old.items ≡ front ++ (event_start (head_of name.now time) kind ++ message) → start ≡ length front → inside ≡ length (front ++ event_start (head_of name.now time) kind) →
        OnOk result (out.new.items ≡ front ++ event_around (head_of name.now time) kind (field_bytes field (sized message))) }
{
    enclose(alloc, out, inside, field)?;
    put_end(alloc, out, name, time)?;
    enclose(alloc, out, start, 1)?;
    Ok(())
}

/// Appends an event that says no more than its kind.
pub(crate) fn put_plain_event(
    alloc: Global,
    out: &mut Vec<u8>,
    name: &ShardName,
    time: u32,
    kind: u32,
) -> Result<(), OutOfMemory>
    ensures { OnOk result (out.new.items ≡ out.old.items ++ events_bytes (plain_event (head_of name.now time) (pos kind) ∷ [])) }
{
    let start = out.len();
    put_start(alloc, out, name, time, kind)?;
    put_end(alloc, out, name, time)?;
    enclose(alloc, out, start, 1)?;
    Ok(())
}

/// Appends the event of a vector.
pub(crate) fn put_vector(
    alloc: Global,
    out: &mut Vec<u8>,
    name: &ShardName,
    time: u32,
    vgtid: &VGtid,
) -> Result<(), OutOfMemory>
    ensures { OnOk result (out.new.items ≡ out.old.items ++ events_bytes (vector_event (head_of name.now time) vgtid.now ∷ [])) }
{
    let start = out.len();
    put_start(alloc, out, name, time, event_kind::VGTID as u32)?;
    let inside = out.len();
    write_vgtid(alloc, out, vgtid)?;
    close_event(alloc, out, start, inside, name, time, 7)?;
    Ok(())
}
