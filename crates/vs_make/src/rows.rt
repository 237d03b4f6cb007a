//! The bodies of table maps and of rows events.
use crate::value::{code_of, put_low, put_meta, put_stored};
use std::alloc::Global;
use vs_base::{Cell, Change, Column, Image, OutOfMemory, Table};

/// The number that each table has in its transaction: one has one table.
const TABLE_ID: u64 = 7;

/// The bits of a byte, and the bytes in which so many of the lowest bits are set.
const BITS: [u8; 8] = [1, 2, 4, 8, 16, 32, 64, 128];

const SET: [u8; 8] = [0, 1, 3, 7, 15, 31, 63, 127];

fn put_packed(out: &mut Vec<u8>, n: usize) -> Result<(), OutOfMemory> {
    let n = n as u64;
    if n <= 250 {
        return put_low(out, n, 1);
    }
    if n < 65_536 {
        out.push(252)?;
        return put_low(out, n, 2);
    }
    if n < 16_777_216 {
        out.push(253)?;
        return put_low(out, n, 3);
    }
    out.push(254)?;
    put_low(out, n, 8)
}

/// Appends a set bit for each of so many columns.
fn put_all_bits(out: &mut Vec<u8>, count: usize) -> Result<(), OutOfMemory> {
    for _ in 0..count / 8 {
        out.push(255)?;
    }
    if count % 8 > 0 {
        out.push(SET[count % 8])?;
    }
    Ok(())
}

/// Appends a bit for each cell, set where it is NULL.
fn put_null_bits(out: &mut Vec<u8>, cells: &[Cell]) -> Result<(), OutOfMemory> {
    for eight in cells.chunks(8) {
        out.push(null_bits(eight))?;
    }
    Ok(())
}

/// The bits of at most eight cells.
fn null_bits(cells: &[Cell]) -> u8 {
    let mut bits = 0;
    for (place, cell) in cells.iter().enumerate() {
        if matches!(cell, Cell::Null) {
            bits |= BITS[place % 8];
        }
    }
    bits
}

fn put_image(
    alloc: Global,
    out: &mut Vec<u8>,
    columns: &[Column],
    cells: &[Cell],
) -> Result<(), OutOfMemory> {
    put_null_bits(out, cells)?;
    for (column, cell) in columns.iter().zip(cells.iter()) {
        match cell {
            Cell::Null => {}
            Cell::Bytes(text) => put_stored(alloc, out, column.kind, text.as_bytes())?,
        }
    }
    Ok(())
}

/// Appends a name behind its length, and a zero byte.
fn put_name(out: &mut Vec<u8>, name: &[u8]) -> Result<(), OutOfMemory> {
    put_low(out, name.len() as u64, 1)?;
    out.extend_from_slice(name)?;
    out.push(0)?;
    Ok(())
}

fn put_types(out: &mut Vec<u8>, columns: &[Column]) -> Result<(), OutOfMemory> {
    for column in columns {
        out.push(code_of(column.kind))?;
    }
    Ok(())
}

fn put_metas(out: &mut Vec<u8>, columns: &[Column]) -> Result<(), OutOfMemory> {
    for column in columns {
        put_meta(out, column.kind)?;
    }
    Ok(())
}

/// The body of the table map of a table in this schema. Each column may be NULL.
pub(crate) fn map_body(
    alloc: Global,
    schema: &[u8],
    table: &Table,
) -> Result<Vec<u8>, OutOfMemory> {
    let columns = table.columns.as_slice();
    let mut metas = Vec::new(alloc);
    put_metas(&mut metas, columns)?;
    let mut body = Vec::new(alloc);
    put_low(&mut body, TABLE_ID, 6)?;
    put_low(&mut body, 1, 2)?;
    put_name(&mut body, schema)?;
    put_name(&mut body, table.name.as_bytes())?;
    put_packed(&mut body, columns.len())?;
    put_types(&mut body, columns)?;
    put_packed(&mut body, metas.len())?;
    body.extend_from_slice(metas.as_slice())?;
    put_all_bits(&mut body, columns.len())?;
    Ok(body)
}

/// The body of a rows event before its rows, with so many images for each.
fn rows_front(alloc: Global, width: usize, images: usize) -> Result<Vec<u8>, OutOfMemory> {
    let mut body = Vec::new(alloc);
    put_low(&mut body, TABLE_ID, 6)?;
    put_low(&mut body, 1, 2)?;
    put_low(&mut body, 2, 2)?;
    put_packed(&mut body, width)?;
    for _ in 0..images {
        put_all_bits(&mut body, width)?;
    }
    Ok(body)
}

/// The body of an event of inserts.
pub(crate) fn inserts_body(
    alloc: Global,
    table: &Table,
    rows: &[Image],
) -> Result<Vec<u8>, OutOfMemory> {
    let columns = table.columns.as_slice();
    let mut body = rows_front(alloc, columns.len(), 1)?;
    for row in rows {
        put_image(alloc, &mut body, columns, row.cells())?;
    }
    Ok(body)
}

fn put_side(
    alloc: Global,
    out: &mut Vec<u8>,
    columns: &[Column],
    image: &Option<Image>,
) -> Result<(), OutOfMemory> {
    match image {
        Some(image) => put_image(alloc, out, columns, image.cells()),
        None => Ok(()),
    }
}

/// The body of an event of updates.
pub(crate) fn updates_body(
    alloc: Global,
    table: &Table,
    rows: &[Change],
) -> Result<Vec<u8>, OutOfMemory> {
    let columns = table.columns.as_slice();
    let mut body = rows_front(alloc, columns.len(), 2)?;
    for row in rows {
        put_side(alloc, &mut body, columns, &row.before)?;
        put_side(alloc, &mut body, columns, &row.after)?;
    }
    Ok(body)
}
