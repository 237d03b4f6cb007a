//! The events of a log, as their bytes.
ghost use Rattle.std.specs.Prelude.{◌≡◌, ◌++◌, ◌∷◌, ◌%◌, ◌^◌, OnOk, replicate};
ghost use Rattle.byteorder.specs.Endian.{little_bytes};
ghost use Rattle.vs_make.specs.Events.{
  base_event,
  event_bytes,
  format_event,
  format_layout,
  gtid_event,
  gtid_layout,
  head_bytes,
  query_event,
  query_layout,
};
ghost use Rattle.vs_make.specs.Rows.{map_event, rows_event, xid_event};

use std::alloc::Global;
use vs_base::{Gtid, OutOfMemory};

/// The bytes of a head.
const HEAD: usize = 19;

/// The types of events.
const QUERY: u8 = 2;

const FORMAT: u8 = 15;

const XID: u8 = 16;

const TABLE_MAP: u8 = 19;

const GTID: u8 = 33;

const PREVIOUS_GTIDS: u8 = 35;

/// The lowest four bytes of a size.
fn low_word(size: usize) -> u32
    ensures { result ≡ size % 2 ^ 32 }
{
    (size % 4_294_967_296) as u32
}

/// Appends a head: the time, the type, no server's number, the length of the whole event, no place of
/// the next event and no flags.
fn put_head(out: &mut Vec<u8>, time: u32, kind: u8, length: u32) -> Result<(), OutOfMemory>
    ensures { OnOk result (out.new.items ≡ out.old.items ++ head_bytes time kind length) }
{
    out.extend_from_slice(&time.to_le_bytes())?;
    out.extend_from_slice(&[kind, 0, 0, 0, 0])?;
    out.extend_from_slice(&length.to_le_bytes())?;
    out.extend_from_slice(&[0; 6])?;
    Ok(())
}

/// Appends an event with this body.
#[tactic(auto, unfolding(crate::specs::Events::event_bytes))]
pub(crate) fn put_event(
    out: &mut Vec<u8>,
    time: u32,
    kind: u8,
    body: &[u8],
) -> Result<(), OutOfMemory>
    ensures { OnOk result (out.new.items ≡ out.old.items ++ event_bytes time kind body.now) }
{
    put_head(out, time, kind, low_word(HEAD + body.len()))?;
    out.extend_from_slice(body)?;
    Ok(())
}

fn put_format_layout(out: &mut Vec<u8>, time: u32) -> Result<(), OutOfMemory>
    ensures { OnOk result (out.new.items ≡ out.old.items ++ format_layout time) }
{
    out.extend_from_slice(&4u16.to_le_bytes())?;
    out.extend_from_slice(&[0; 50])?;
    out.extend_from_slice(&time.to_le_bytes())?;
    out.extend_from_slice(&[19, 0])?;
    out.extend_from_slice(&0u32.to_le_bytes())?;
    Ok(())
}

/// Appends a format description of version 4, without checksums.
#[tactic(auto, unfolding(crate::specs::Events::format_event))]
pub(crate) fn put_format(alloc: Global, out: &mut Vec<u8>, time: u32) -> Result<(), OutOfMemory>
    ensures { OnOk result (out.new.items ≡ out.old.items ++ format_event time) }
{
    let mut body = Vec::new(alloc);
    put_format_layout(&mut body, time)?;
    put_event(out, time, FORMAT, body.as_slice())
}

/// Appends the event that tells the base, which this body holds.
#[tactic(auto, unfolding(crate::specs::Events::base_event))]
pub(crate) fn put_base(out: &mut Vec<u8>, time: u32, block: &[u8]) -> Result<(), OutOfMemory>
    ensures { OnOk result (out.new.items ≡ out.old.items ++ base_event time block.now) }
{
    put_event(out, time, PREVIOUS_GTIDS, block)
}

fn put_gtid_layout(out: &mut Vec<u8>, gtid: &Gtid) -> Result<(), OutOfMemory>
    ensures { OnOk result (out.new.items ≡ out.old.items ++ gtid_layout gtid.now) }
{
    out.push(0)?;
    out.extend_from_slice(&gtid.uuid)?;
    out.extend_from_slice(&gtid.number.to_le_bytes())?;
    Ok(())
}

/// Appends the event that names an entry.
#[tactic(auto, unfolding(crate::specs::Events::gtid_event))]
pub(crate) fn put_gtid(
    alloc: Global,
    out: &mut Vec<u8>,
    time: u32,
    gtid: &Gtid,
) -> Result<(), OutOfMemory>
    ensures { OnOk result (out.new.items ≡ out.old.items ++ gtid_event time gtid.now) }
{
    let mut body = Vec::new(alloc);
    put_gtid_layout(&mut body, gtid)?;
    put_event(out, time, GTID, body.as_slice())
}

fn put_query_layout(out: &mut Vec<u8>, schema: &[u8], text: &[u8]) -> Result<(), OutOfMemory>
    ensures { OnOk result (out.new.items ≡ out.old.items ++ query_layout schema.now text.now) }
{
    let length = (schema.len() % 256) as u8;
    out.extend_from_slice(&0u32.to_le_bytes())?;
    out.extend_from_slice(&0u32.to_le_bytes())?;
    out.push(length)?;
    out.extend_from_slice(&0u16.to_le_bytes())?;
    out.extend_from_slice(&0u16.to_le_bytes())?;
    out.extend_from_slice(schema)?;
    out.push(0)?;
    out.extend_from_slice(text)?;
    Ok(())
}

/// Appends a query of this text, with this schema as its default.
#[tactic(auto, unfolding(crate::specs::Events::query_event))]
pub(crate) fn put_query(
    alloc: Global,
    out: &mut Vec<u8>,
    time: u32,
    schema: &[u8],
    text: &[u8],
) -> Result<(), OutOfMemory>
    ensures { OnOk result (out.new.items ≡ out.old.items ++ query_event time schema.now text.now) }
{
    let mut body = Vec::new(alloc);
    put_query_layout(&mut body, schema, text)?;
    put_event(out, time, QUERY, body.as_slice())
}

/// Appends a table map with this body.
#[tactic(auto, unfolding(crate::specs::Rows::map_event))]
pub(crate) fn put_map(out: &mut Vec<u8>, time: u32, body: &[u8]) -> Result<(), OutOfMemory>
    ensures { OnOk result (out.new.items ≡ out.old.items ++ map_event time body.now) }
{
    put_event(out, time, TABLE_MAP, body)
}

/// Appends a rows event of this type with this body.
#[tactic(auto, unfolding(crate::specs::Rows::rows_event))]
pub(crate) fn put_rows(
    out: &mut Vec<u8>,
    time: u32,
    kind: u8,
    body: &[u8],
) -> Result<(), OutOfMemory>
    ensures { OnOk result (out.new.items ≡ out.old.items ++ rows_event time kind body.now) }
{
    put_event(out, time, kind, body)
}

/// Appends the end of a transaction.
#[tactic(auto, unfolding(crate::specs::Rows::xid_event))]
pub(crate) fn put_xid(out: &mut Vec<u8>, time: u32) -> Result<(), OutOfMemory>
    ensures { OnOk result (out.new.items ≡ out.old.items ++ xid_event time) }
{
    put_event(out, time, XID, &0u64.to_le_bytes())
}
