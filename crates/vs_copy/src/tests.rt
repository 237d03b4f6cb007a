use crate::{ChunkRows, Copier, CopyRefusal, law_bound, law_client};
use std::alloc::{AllocError, Global};
use std::test::Fail;
use vs_base::{Cell, Change, Image, LastKey, List, OutOfMemory, Text};
use vs_filter::{Bound, Picked};
use vs_schema::Schema;
use vs_select::BoundSelect;

const T: &[u8] = b"table t\ncolumn id int\ncolumn v varchar(20)\nkey id\n";

const C: &[u8] = b"table c\ncolumn a varchar(10)\ncolumn b int\nkey a b\n";

const W: &[u8] = b"table w\ncolumn k varchar(4000)\nkey k\n";

/// A table without a key behind one that has one.
const N: &[u8] = b"table c\ncolumn a int\nkey a\ntable n\ncolumn a int\n";

type Pair = (Option<&'static [u8]>, Option<&'static [u8]>);

/// A schema, its table, rows in the order in which they come, and in that of their keys.
const ORDERS: [(&[u8], &[u8], [Pair; 3], [Pair; 3]); 3] = [
    (
        T,
        b"t",
        [(Some(b"10"), None), (Some(b"9"), None), (None, None)],
        [(None, None), (Some(b"9"), None), (Some(b"10"), None)],
    ),
    (
        T,
        b"t",
        [
            (Some(b"007"), None),
            (Some(b"7"), None),
            (Some(b"-1000"), None),
        ],
        [
            (Some(b"-1000"), None),
            (Some(b"7"), None),
            (Some(b"007"), None),
        ],
    ),
    (
        C,
        b"c",
        [
            (Some(b"b"), Some(b"2")),
            (Some(b"a"), Some(b"10")),
            (Some(b"a"), Some(b"9")),
        ],
        [
            (Some(b"a"), Some(b"9")),
            (Some(b"a"), Some(b"10")),
            (Some(b"b"), Some(b"2")),
        ],
    ),
];

/// Of a copy of t, last keys of one cell, by their table; and whether each may be named.
const LAST_KEYS: [(&[u8], Option<&[u8]>, bool); 5] = [
    (b"t", Some(b"7"), true),
    (b"t", None, true),
    (b"t", Some(b"007"), false),
    (b"t", Some(b"2147483648"), false),
    (b"u", Some(b"7"), false),
];

fn cell(alloc: Global, text: Option<&[u8]>) -> Result<Cell, OutOfMemory> {
    match text {
        Some(text) => Ok(Cell::Bytes(Text::from_bytes(alloc, text)?)),
        None => Ok(Cell::Null),
    }
}

fn row(alloc: Global, first: Option<&[u8]>, second: Option<&[u8]>) -> Result<Image, OutOfMemory> {
    let mut row = Image::new(alloc);
    row.push(cell(alloc, first)?)?;
    row.push(cell(alloc, second)?)?;
    Ok(row)
}

/// All tables of a schema, whole.
fn whole(alloc: Global, schema: &Schema) -> Result<Bound, OutOfMemory> {
    let mut tables = List::new(alloc);
    for table in schema.tables() {
        tables.push(Picked {
            name: table.name.copy(alloc)?,
            columns: table.columns.copy(alloc)?,
            select: BoundSelect::whole(alloc, table)?,
        })?;
    }
    Ok(Bound { tables })
}

fn fresh(alloc: Global, schema: &[u8]) -> Result<Copier, CopyRefusal> {
    let Ok(schema) = Schema::read(alloc, schema) else {
        return Err(CopyRefusal::Memory);
    };
    let bound = whole(alloc, &schema)?;
    Copier::fresh(alloc, &schema, &bound)
}

fn resumed(alloc: Global, schema: &[u8], last: LastKey) -> Result<Copier, CopyRefusal> {
    let Ok(schema) = Schema::read(alloc, schema) else {
        return Err(CopyRefusal::Memory);
    };
    let bound = whole(alloc, &schema)?;
    Copier::resumed(alloc, &schema, &bound, last)
}

fn last_key(alloc: Global, table: &[u8], cell: Cell) -> Result<LastKey, CopyRefusal> {
    let mut key = Image::new(alloc);
    key.push(cell)?;
    match LastKey::new(Text::from_bytes(alloc, table)?, key) {
        Some(last) => Ok(last),
        None => Err(CopyRefusal::BadLastKey),
    }
}

fn change(
    alloc: Global,
    table: &[u8],
    before: Option<Image>,
    after: Option<Image>,
) -> Result<Change, OutOfMemory> {
    Ok(Change {
        table: Text::from_bytes(alloc, table)?,
        before,
        after,
    })
}

/// A change that the rows of a copy take.
fn apply(copier: &mut Copier, change: Change) -> Result<(), OutOfMemory> {
    let changes = [change];
    match copier.apply(&changes) {
        Ok(()) => Ok(()),
        Err(_) => Err(AllocError),
    }
}

fn insert(alloc: Global, copier: &mut Copier, table: &[u8], pair: Pair) -> Result<(), OutOfMemory> {
    let row = row(alloc, pair.0, pair.1)?;
    apply(copier, change(alloc, table, None, Some(row))?)
}

/// Rows with the ids 1 to 250.
fn fill(alloc: Global, copier: &mut Copier) -> Result<(), OutOfMemory> {
    for id in 1..251u32 {
        let id = id.to_string(alloc)?;
        let row = row(alloc, Some(id.as_bytes()), None)?;
        apply(copier, change(alloc, b"t", None, Some(row))?)?;
    }
    Ok(())
}

/// The row 50, which becomes 300.
fn update(alloc: Global) -> Result<Change, OutOfMemory> {
    let before = row(alloc, Some(b"50"), None)?;
    let after = row(alloc, Some(b"300"), None)?;
    change(alloc, b"t", Some(before), Some(after))
}

fn is_text(cell: &Cell, text: Option<&[u8]>) -> bool {
    match (cell, text) {
        (Cell::Null, None) => true,
        (Cell::Bytes(bytes), Some(text)) => bytes.as_bytes() == text,
        _ => false,
    }
}

fn has_cells(cells: &[Cell], pair: Pair) -> bool {
    match cells {
        [first, second] => is_text(first, pair.0) && is_text(second, pair.1),
        _ => false,
    }
}

fn is_single(cells: &[Cell], text: &[u8]) -> bool {
    match cells {
        [cell] => is_text(cell, Some(text)),
        _ => false,
    }
}

/// Whether a chunk of t has so many rows, and the key of the last is this.
fn is_chunk(chunk: &ChunkRows, count: usize, last: &[u8]) -> bool {
    chunk.table.as_bytes() == b"t".as_slice()
        && chunk.rows.as_slice().len() == count
        && chunk.last_key.table.as_bytes() == b"t".as_slice()
        && is_single(chunk.last_key.key.cells(), last)
}

fn has_chunk(copier: &mut Copier, count: usize, last: &[u8]) -> Result<bool, OutOfMemory> {
    match copier.next_chunk()? {
        Some(chunk) => Ok(is_chunk(&chunk, count, last)),
        None => Ok(false),
    }
}

fn filled(alloc: Global) -> Result<Copier, CopyRefusal> {
    let mut copier = fresh(alloc, T)?;
    fill(alloc, &mut copier)?;
    Ok(copier)
}

/// Whether of the update the image that was sent before is told, and no other.
fn tells_before(alloc: Global, copier: &Copier) -> Result<bool, OutOfMemory> {
    let Some(told) = copier.restrict(alloc, &update(alloc)?)? else {
        return Ok(false);
    };
    match &told.before {
        Some(row) => Ok(told.after.is_none() && has_cells(row.cells(), (Some(b"50"), None))),
        None => Ok(false),
    }
}

#[test]
fn rows_come_in_chunks(rt: HostRuntime) -> Result<(), CopyRefusal> {
    let mut copier = filled(rt.alloc())?;
    assert!(rt; has_chunk(&mut copier, 100, b"100")?);
    assert!(rt; tells_before(rt.alloc(), &copier)?);
    apply(&mut copier, update(rt.alloc())?)?;
    assert!(rt; has_chunk(&mut copier, 100, b"200")?);
    assert!(rt; has_chunk(&mut copier, 51, b"300")?);
    assert!(rt; copier.next_chunk()?.is_none());
    Ok(())
}

#[test]
fn a_copy_goes_on_behind_its_last_key(rt: HostRuntime) -> Result<(), CopyRefusal> {
    let alloc = rt.alloc();
    let mut copier = resumed(alloc, T, last_key(alloc, b"t", cell(alloc, Some(b"100"))?)?)?;
    fill(alloc, &mut copier)?;
    assert!(rt; tells_before(alloc, &copier)?);
    assert!(rt; has_chunk(&mut copier, 100, b"200")?);
    Ok(())
}

fn has_rows(chunk: &ChunkRows, rows: &[Pair; 3]) -> bool {
    match chunk.rows.as_slice() {
        [first, second, third] => {
            has_cells(first.cells(), rows[0])
                && has_cells(second.cells(), rows[1])
                && has_cells(third.cells(), rows[2])
        }
        _ => false,
    }
}

fn has_order(
    alloc: Global,
    schema: &[u8],
    table: &[u8],
    rows: &[Pair; 3],
    order: &[Pair; 3],
) -> Result<bool, CopyRefusal> {
    let mut copier = fresh(alloc, schema)?;
    for pair in rows {
        insert(alloc, &mut copier, table, *pair)?;
    }
    match copier.next_chunk()? {
        Some(chunk) => Ok(has_rows(&chunk, order)),
        None => Ok(false),
    }
}

#[test]
fn rows_come_in_the_order_of_their_keys(rt: HostRuntime) -> Result<(), CopyRefusal> {
    for (schema, table, rows, order) in ORDERS {
        assert!(rt; has_order(rt.alloc(), schema, table, &rows, &order)?);
    }
    Ok(())
}

fn is_resumed(alloc: Global, table: &[u8], text: Option<&[u8]>) -> Result<bool, CopyRefusal> {
    match resumed(alloc, T, last_key(alloc, table, cell(alloc, text)?)?) {
        Ok(_) => Ok(true),
        Err(CopyRefusal::BadLastKey) => Ok(false),
        Err(why) => Err(why),
    }
}

#[test]
fn a_last_key_is_one_of_a_copied_table(rt: HostRuntime) -> Result<(), CopyRefusal> {
    for (table, text, wanted) in LAST_KEYS {
        assert_eq!(rt; is_resumed(rt.alloc(), table, text)?, wanted);
    }
    Ok(())
}

fn lacks_key(refused: Result<Copier, CopyRefusal>) -> bool {
    match refused {
        Err(CopyRefusal::NoKey { table }) => table.as_bytes() == b"n".as_slice(),
        _ => false,
    }
}

#[test]
fn each_table_needs_a_key(rt: HostRuntime) {
    assert!(rt; lacks_key(fresh(rt.alloc(), N)));
}

/// Whether a row of w whose key has so many bytes comes as a chunk.
fn comes(alloc: Global, key: &[u8]) -> Result<bool, CopyRefusal> {
    let mut copier = fresh(alloc, W)?;
    let mut row = Image::new(alloc);
    row.push(cell(alloc, Some(key))?)?;
    let changes = [change(alloc, b"w", None, Some(row))?];
    Ok(copier.apply(&changes).is_ok() && copier.next_chunk()?.is_some())
}

#[test]
fn a_key_has_at_most_3072_bytes(rt: HostRuntime) -> Result<(), Fail> {
    let key = vec![in rt.alloc(); b'a'; 3073]?;
    assert!(rt; !comes(rt.alloc(), key.as_slice())?);
    assert!(rt; comes(rt.alloc(), &key.as_slice()[1..])?);
    law_bound();
    law_client();
    Ok(())
}
