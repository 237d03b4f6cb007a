ghost use Rattle.std.specs.Prelude.{◌≡◌, ◌<◌, ◌≤◌, ◌++◌, OnOk};
ghost use Rattle.vs_show.specs.Cells.{
  byte_text,
  bytes_text,
  cell_text,
  cells_text,
  first_cell,
  hex_digit as digit_of,
  image_text,
  is_plain as is_plain_byte,
  row_text,
  size_of,
  values_behind as rest_behind,
};

use crate::OutOfMemory;
use crate::shown::{Shown, put_all};
use vs_proto::Row;

/// Tests that a byte stands for itself in a cell.
fn is_plain(byte: u8) -> bool
    ensures { result ≡ is_plain_byte byte }
{
    byte >= b' ' && byte <= b'~' && byte != b'\'' && byte != b'\\'
}

/// The hexadecimal digit of a number below 16.
fn hex_digit(number: u8) -> u8
    requires { number < 16 }
    ensures { result ≡ digit_of number }
{
    if number < 10 {
        b'0' + number
    } else {
        b'a' - 10 + number
    }
}

impl Shown for u8 {
    ghost text = { byte_text };

    fn put(&self, out: &mut Vec<u8>) -> Result<(), OutOfMemory> {
        let byte = *self;
        if is_plain(byte) {
            return Ok(out.push(byte)?);
        }
        out.extend_from_slice(&[b'\\', b'x', hex_digit(byte / 16), hex_digit(byte % 16)])
    }
}

/// Appends the bytes between quotes.
#[tactic(auto, unfolding(crate::specs::Cells::bytes_text))]
pub(crate) fn put_bytes(bytes: &[u8], out: &mut Vec<u8>) -> Result<(), OutOfMemory>
    ensures { OnOk result (out.new.items ≡ out.old.items ++ bytes_text bytes.now) }
{
    out.extend_from_slice(b"'")?;
    put_all(bytes, out)?;
    out.extend_from_slice(b"'")
}

/// How many of so many bytes a cell of this length takes: all that there are where it has more.
fn cell_size(length: i64, count: usize) -> usize
    ensures size { result ≡ size_of length count }
    ensures fits { result ≤ count }
{
    if length < 0 {
        return 0;
    }
    (length.cast_unsigned() as usize).min(count)
}

/// Appends the cell of this length at the front of the values.
fn put_cell(length: i64, values: &[u8], out: &mut Vec<u8>) -> Result<(), OutOfMemory>
    ensures { OnOk result (out.new.items ≡ out.old.items ++ cell_text (first_cell length values.now)) }
{
    if length < 0 {
        return out.extend_from_slice(b"NULL");
    }
    put_bytes(&values[..cell_size(length, values.len())], out)
}

/// The values behind the cell of this length at the front.
fn values_behind(length: i64, values: &[u8]) -> &[u8]
    ensures { result.now ≡ rest_behind length values.now }
{
    &values[cell_size(length, values.len())..]
}

/// Appends the cells of a row with commas between them. Values that the lengths don't reach are
/// left out, and a cell whose values end too early has those that are there.
fn put_cells(lengths: &[i64], values: &[u8], out: &mut Vec<u8>) -> Result<(), OutOfMemory>
    ensures { OnOk result (out.new.items ≡ out.old.items ++ cells_text lengths.now values.now) }
{
    let Some((first, others)) = lengths.split_first() else {
        return Ok(());
    };
    put_cell(*first, values, out)?;
    let mut rest = values_behind(*first, values);
    for length in others {
        out.extend_from_slice(b",")?;
        put_cell(*length, rest, out)?;
        rest = values_behind(*length, rest);
    }
    Ok(())
}

#[tactic(auto, unfolding(crate::specs::Cells::row_text))]
fn put_row(row: &Row, out: &mut Vec<u8>) -> Result<(), OutOfMemory>
    ensures { OnOk result (out.new.items ≡ out.old.items ++ row_text row.now) }
{
    out.extend_from_slice(b"[")?;
    put_cells(row.lengths.as_slice(), row.values.as_bytes(), out)?;
    out.extend_from_slice(b"]")
}

/// Appends a row before or after its change, or a dash where there is none.
pub(crate) fn put_image(row: &Option<Row>, out: &mut Vec<u8>) -> Result<(), OutOfMemory>
    ensures { OnOk result (out.new.items ≡ out.old.items ++ image_text row.now) }
{
    match row {
        Some(row) => put_row(row, out),
        None => out.extend_from_slice(b"-"),
    }
}
