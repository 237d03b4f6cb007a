//! The value at the front of some bytes of a row.
ghost use Rattle.std.specs.Prelude.{◌≡◌, ◌≤◌, ◌⊎◌, ◌++◌, true, length, take, MatchResult, IfOk, OnErr, OnOk};
ghost use Rattle.vs_columns.specs.Decimals.{decimal_size};
ghost use Rattle.vs_columns.specs.Kinds.{fits_meta, may_stand};
ghost use Rattle.vs_columns.specs.Values.{
  behind_length,
  body_of,
  cell_in,
  done,
  filled,
  fixed,
  length_size,
  said,
  size_in,
  text_in,
  text_of,
  value_of,
  whole_text,
  HasSize,
};

use crate::ValueRefusal;
use crate::calendar::{fraction_size, push_date, push_datetime, push_timestamp};
use crate::decimal::{decimal_size, push_decimal};
use crate::kind::{agrees, code_of, may_stand};
use byteorder::{ByteOrder, LittleEndian};
use itoa::Buffer;
use std::alloc::Global;
use vs_base::{Cell, ColumnKind, OutOfMemory, Text};

/// The cell of the value at the front of the bytes, and how many bytes it takes. The layouts are those
/// of rows in MySQL's binlog ("Rows_event" in MySQL's sources, `decimal.c` and `my_time.cc`). A value
/// that is cut is short, whatever its first bytes say.
pub fn value(
    alloc: Global,
    kind: &ColumnKind,
    meta: &[u8],
    bytes: &[u8],
) -> Result<(Cell, usize), ValueRefusal>
    ensures told { (result ≡ Err ValueRefusal.Memory) ⊎ (result ≡ cell_in (value_of kind.now meta.now bytes.now)) }
    ensures within { IfOk result (λ r. r.1 ≤ length bytes.now) }
{
    let mut room = Vec::new(alloc);
    value_by(alloc, kind, meta, bytes, &mut room)
}

/// The same, made in a buffer that is emptied before: values that are read one behind the other share its memory.
pub fn value_by(
    alloc: Global,
    kind: &ColumnKind,
    meta: &[u8],
    bytes: &[u8],
    room: &mut Vec<u8>,
) -> Result<(Cell, usize), ValueRefusal>
    ensures told { (result ≡ Err ValueRefusal.Memory) ⊎ (result ≡ cell_in (value_of kind.now meta.now bytes.now)) }
    ensures within { IfOk result (λ r. r.1 ≤ length bytes.now) }
{
    room.clear();
    let used = put_value(kind, meta, bytes, room)?;
    Ok((Cell::Bytes(Text::from_bytes(alloc, room.as_slice())?), used))
}

/// Appends the text of the value at the front of the bytes, and answers how many bytes it takes.
pub fn put_value(
    kind: &ColumnKind,
    meta: &[u8],
    bytes: &[u8],
    out: &mut Vec<u8>,
) -> Result<usize, ValueRefusal>
    ensures told { (result ≡ Err ValueRefusal.Memory) ⊎ (result ≡ size_in (value_of kind.now meta.now bytes.now)) }
    ensures ok { OnOk result (out.new.items ≡ out.old.items ++ text_in (value_of kind.now meta.now bytes.now)) }
    ensures err { OnErr result (out.new.items ≡ out.old.items) }
    ensures within { IfOk result (λ used. used ≤ length bytes.now) }
{
    let start = out.len();
    match push_value(*kind, meta, bytes, out) {
        Ok(used) => Ok(used),
        Err(refusal) => {
            out.truncate(start);
            Err(refusal)
        }
    }
}

#[tactic(auto, unfolding(crate::specs::Values::value_of))]
fn push_value(
    kind: ColumnKind,
    meta: &[u8],
    bytes: &[u8],
    out: &mut Vec<u8>,
) -> Result<usize, ValueRefusal>
    ensures told { (result ≡ Err ValueRefusal.Memory) ⊎ (result ≡ size_in (value_of kind meta.now bytes.now)) }
    ensures ok { OnOk result (out.new.items ≡ out.old.items ++ text_in (value_of kind meta.now bytes.now)) }
    ensures err { OnErr result (take (length out.old.items) out.new.items ≡ out.old.items) }
    ensures within { IfOk result (λ used. used ≤ length bytes.now) }
{
    if !may_stand(kind) || !agrees(&kind, code_of(kind), meta) {
        return Err(ValueRefusal::BadValue);
    }
    let (body, used) = body_of(kind, meta, bytes)?;
    push_text(kind, body, out)?;
    Ok(used)
}

/// The bytes of the value, and how many they are with their length.
fn body_of<'a>(
    kind: ColumnKind,
    meta: &[u8],
    bytes: &'a [u8],
) -> Result<(&'a [u8], usize), ValueRefusal>
    requires { fits_meta kind meta.now ≡ true }
    ensures body { MatchResult result (λ r. body_of kind meta.now bytes.now ≡ Ok (r.0.now, r.1)) (λ e. body_of kind meta.now bytes.now ≡ Err e) }
    ensures size { IfOk result (λ r. HasSize kind r.0.now) }
    ensures within { IfOk result (λ r. r.1 ≤ length bytes.now) }
{
    match kind {
        ColumnKind::TinyInt { .. } => fixed(bytes, 1),
        ColumnKind::SmallInt { .. } => fixed(bytes, 2),
        ColumnKind::MediumInt { .. } => fixed(bytes, 3),
        ColumnKind::Int { .. } => fixed(bytes, 4),
        ColumnKind::BigInt { .. } => fixed(bytes, 8),
        ColumnKind::Date => fixed(bytes, 3),
        ColumnKind::Timestamp { precision } => fixed(bytes, 4 + fraction_size(precision)),
        ColumnKind::DateTime { precision } => fixed(bytes, 5 + fraction_size(precision)),
        ColumnKind::Decimal { precision, scale } => fixed(bytes, decimal_size(precision, scale)),
        ColumnKind::VarChar { .. } | ColumnKind::VarBinary { .. } => {
            behind_length(bytes, length_size(meta))
        }
        ColumnKind::Text | ColumnKind::Blob => behind_length(bytes, meta[0] as usize),
        ColumnKind::Char { .. } | ColumnKind::Binary { .. } => behind_length(bytes, 1),
    }
}

/// The first bytes, so many of them.
fn fixed(bytes: &[u8], count: usize) -> Result<(&[u8], usize), ValueRefusal>
    ensures body { MatchResult result (λ r. fixed count bytes.now ≡ Ok (r.0.now, r.1)) (λ e. fixed count bytes.now ≡ Err e) }
    ensures size { IfOk result (λ r. length r.0.now ≡ count) }
    ensures within { IfOk result (λ r. r.1 ≤ length bytes.now) }
{
    if bytes.len() < count {
        return Err(ValueRefusal::ShortValue);
    }
    Ok((&bytes[..count], count))
}

/// The bytes behind a length of so many bytes, the lowest first.
fn behind_length(bytes: &[u8], width: usize) -> Result<(&[u8], usize), ValueRefusal>
    requires some { 1 ≤ width }
    requires few { width ≤ 4 }
    ensures body { MatchResult result (λ r. behind_length width bytes.now ≡ Ok (r.0.now, r.1)) (λ e. behind_length width bytes.now ≡ Err e) }
    ensures within { IfOk result (λ r. r.1 ≤ length bytes.now) }
{
    if bytes.len() < width {
        return Err(ValueRefusal::ShortValue);
    }
    let count = LittleEndian::read_uint(bytes, width);
    let rest = &bytes[width..];
    if (rest.len() as u64) < count {
        return Err(ValueRefusal::ShortValue);
    }
    let count = count as usize;
    Ok((&rest[..count], width + count))
}

fn length_size(meta: &[u8]) -> usize
    requires { length meta.now ≡ 2 }
    ensures { result ≡ length_size meta.now }
{
    if LittleEndian::read_u16(meta) <= 255 {
        1
    } else {
        2
    }
}

fn push_text(kind: ColumnKind, body: &[u8], out: &mut Vec<u8>) -> Result<(), ValueRefusal>
    requires column { may_stand kind ≡ true }
    requires size { HasSize kind body.now }
    ensures told { (result ≡ Err ValueRefusal.Memory) ⊎ (result ≡ done (text_of kind body.now)) }
    ensures ok { OnOk result (out.new.items ≡ out.old.items ++ said (text_of kind body.now)) }
    ensures err { OnErr result (take (length out.old.items) out.new.items ≡ out.old.items) }
{
    match kind {
        ColumnKind::TinyInt { unsigned } => Ok(push_whole(body, 1, unsigned, out)?),
        ColumnKind::SmallInt { unsigned } => Ok(push_whole(body, 2, unsigned, out)?),
        ColumnKind::MediumInt { unsigned } => Ok(push_whole(body, 3, unsigned, out)?),
        ColumnKind::Int { unsigned } => Ok(push_whole(body, 4, unsigned, out)?),
        ColumnKind::BigInt { unsigned } => Ok(push_whole(body, 8, unsigned, out)?),
        ColumnKind::Date => push_date(body, out),
        ColumnKind::Timestamp { precision } => push_timestamp(body, precision, out),
        ColumnKind::DateTime { precision } => push_datetime(body, precision, out),
        ColumnKind::Decimal { precision, scale } => push_decimal(body, precision, scale, out),
        ColumnKind::VarChar { .. }
        | ColumnKind::VarBinary { .. }
        | ColumnKind::Text
        | ColumnKind::Blob
        | ColumnKind::Char { .. } => Ok(out.extend_from_slice(body)?),
        ColumnKind::Binary { length } => Ok(push_filled(body, length, out)?),
    }
}

/// Appends the whole number in so many bytes, the lowest first.
fn push_whole(
    body: &[u8],
    count: usize,
    unsigned: bool,
    out: &mut Vec<u8>,
) -> Result<(), OutOfMemory>
    requires some { 1 ≤ count }
    requires few { count ≤ 8 }
    requires size { length body.now ≡ count }
    ensures ok { OnOk result (out.new.items ≡ out.old.items ++ whole_text unsigned count body.now) }
    ensures err { OnErr result (out.new.items ≡ out.old.items) }
{
    let mut buffer = Buffer::new();
    if unsigned {
        let number = LittleEndian::read_uint(body, count);
        out.extend_from_slice(buffer.format(number).as_bytes())
    } else {
        let number = LittleEndian::read_int(body, count);
        out.extend_from_slice(buffer.format(number).as_bytes())
    }
}

/// Appends the bytes, and zero bytes up to this many.
fn push_filled(body: &[u8], count: u8, out: &mut Vec<u8>) -> Result<(), OutOfMemory>
    ensures ok { OnOk result (out.new.items ≡ out.old.items ++ filled count body.now) }
    ensures err { OnErr result (take (length out.old.items) out.new.items ≡ out.old.items) }
{
    let count = count as usize;
    out.extend_from_slice(body)?;
    if body.len() < count {
        let end = out.len() + (count - body.len());
        out.resize(end, 0)?;
    }
    Ok(())
}
