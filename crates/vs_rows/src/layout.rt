//! The bodies of table maps and rows events, field by field.
ghost use Rattle.std.specs.Prelude.{◌≡◌, ◌≤◌, ◌*◌, MatchOption, IfSome, None, Some, length};
ghost use Rattle.vs_rows.specs.Bits.{bit_bytes};
ghost use Rattle.vs_rows.specs.Layouts.{
  cut,
  extra_at,
  images,
  map_body,
  name_at,
  number_at,
  packed_at,
  rows_body,
};
ghost use Rattle.vs_rows.specs.Lent.{map_lent, rows_lent};

use crate::bits::bit_bytes;
use crate::kind::RowsKind;
use byteorder::{ByteOrder, LittleEndian};
use vs_binlog::read_packed;

/// What a table map says, lent from its body.
#[derive(Debug, Clone, Copy)]
pub(crate) struct MapBody<'a> {
    /// the number by which rows events name the table
    pub id: u64,
    pub schema: &'a [u8],
    pub table: &'a [u8],
    /// a byte for each column
    pub types: &'a [u8],
    pub metadata: &'a [u8],
}

/// What a rows event says, lent from its body.
#[derive(Debug, Clone, Copy)]
pub(crate) struct RowsBody<'a> {
    pub id: u64,
    /// the number of columns
    pub width: usize,
    /// for each image of a row a bit for each column
    pub present: &'a [u8],
    pub rows: &'a [u8],
}

/// The body of a table map (`Table_map_event` in MySQL's sources).
#[tactic(auto, unfolding(crate::specs::Layouts::map_body))]
pub(crate) fn read_map(body: &[u8]) -> Option<MapBody>
    ensures { MatchOption result (map_body body.now ≡ None) (λ said. map_body body.now ≡ Some (map_lent said)) }
{
    let (id, rest) = number_at(body, 6)?;
    let (_flags, rest) = cut(rest, 2)?;
    let (schema, rest) = name_at(rest)?;
    let (table, rest) = name_at(rest)?;
    let (count, rest) = packed_at(rest)?;
    let (types, rest) = cut(rest, count)?;
    let (size, rest) = packed_at(rest)?;
    let (metadata, rest) = cut(rest, size)?;
    let (_nullable, _rest) = cut(rest, bit_bytes(count))?;
    Some(MapBody {
        id,
        schema,
        table,
        types,
        metadata,
    })
}

/// The body of a rows event (`Rows_event` of version 2 in MySQL's sources).
#[tactic(auto, unfolding(crate::specs::Layouts::rows_body))]
pub(crate) fn read_rows(kind: RowsKind, body: &[u8]) -> Option<RowsBody>
    ensures said { MatchOption result (rows_body kind body.now ≡ None) (λ said. rows_body kind body.now ≡ Some (rows_lent said)) }
    ensures size { IfSome result (λ said. length said.present.now ≡ images kind * bit_bytes said.width) }
{
    let (id, rest) = number_at(body, 6)?;
    let (_flags, rest) = cut(rest, 2)?;
    let (_extra, rest) = extra_at(rest)?;
    let (width, rest) = packed_at(rest)?;
    let (present, rows) = cut(rest, kind.images() * bit_bytes(width))?;
    Some(RowsBody {
        id,
        width,
        present,
        rows,
    })
}

/// The first bytes and those behind them.
pub(crate) fn cut(bytes: &[u8], count: usize) -> Option<(&[u8], &[u8])>
    ensures parts { MatchOption result (cut count bytes.now ≡ None) (λ parts. cut count bytes.now ≡ Some (parts.0.now, parts.1.now)) }
    ensures size { IfSome result (λ parts. length parts.0.now ≡ count) }
    ensures rest { IfSome result (λ parts. length parts.1.now ≤ length bytes.now) }
{
    if bytes.len() < count {
        return None;
    }
    Some(bytes.split_at(count))
}

/// The number of so many bytes, the lowest first, and what is behind them.
fn number_at(bytes: &[u8], count: usize) -> Option<(u64, &[u8])>
    requires some { 1 ≤ count }
    requires few { count ≤ 8 }
    ensures { MatchOption result (number_at count bytes.now ≡ None) (λ read. number_at count bytes.now ≡ Some (read.0, read.1.now)) }
{
    if bytes.len() < count {
        return None;
    }
    Some((LittleEndian::read_uint(bytes, count), &bytes[count..]))
}

fn packed_at(bytes: &[u8]) -> Option<(usize, &[u8])>
    ensures { MatchOption result (packed_at bytes.now ≡ None) (λ read. packed_at bytes.now ≡ Some (read.0, read.1.now)) }
{
    let (number, size) = read_packed(bytes)?;
    Some((number as usize, &bytes[size..]))
}

/// A name behind its length, with a zero byte behind it.
#[tactic(auto, unfolding(crate::specs::Layouts::name_at))]
fn name_at(bytes: &[u8]) -> Option<(&[u8], &[u8])>
    ensures { MatchOption result (name_at bytes.now ≡ None) (λ read. name_at bytes.now ≡ Some (read.0.now, read.1.now)) }
{
    let (size, rest) = number_at(bytes, 1)?;
    let (name, rest) = cut(rest, size as usize)?;
    let (end, rest) = number_at(rest, 1)?;
    if end != 0 {
        return None;
    }
    Some((name, rest))
}

/// Bytes behind a length that counts itself.
#[tactic(auto, unfolding(crate::specs::Layouts::extra_at))]
fn extra_at(bytes: &[u8]) -> Option<(&[u8], &[u8])>
    ensures { MatchOption result (extra_at bytes.now ≡ None) (λ read. extra_at bytes.now ≡ Some (read.0.now, read.1.now)) }
{
    let (size, rest) = number_at(bytes, 2)?;
    if size < 2 {
        return None;
    }
    cut(rest, size as usize - 2)
}
