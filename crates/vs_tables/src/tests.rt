use crate::{TableRefusal, Tables};
use std::alloc::{AllocError, Global};
use vs_base::{Cell, Change, Image, OutOfMemory, Text};
use vs_schema::Schema;

const SCHEMA: &[u8] =
    b"table c\ncolumn a varchar(10)\ncolumn b int\nkey a b\ntable n\ncolumn x int\ncolumn y int\ntable t\ncolumn id int\ncolumn v varchar(4000)\nkey id\ntable w\ncolumn k varchar(4000)\ncolumn v int\nkey k\n";

/// A row of two cells; none is NULL.
type Row = (Option<&'static [u8]>, Option<&'static [u8]>);

/// A table, how many cells its key has in front of its rows, rows in the order in which they come, and in
/// the order of the key.
const ORDERS: [(&[u8], usize, [Row; 3], [Row; 3]); 3] = [
    (
        b"t",
        1,
        [(Some(b"10"), None), (Some(b"9"), None), (None, None)],
        [(None, None), (Some(b"9"), None), (Some(b"10"), None)],
    ),
    (
        b"t",
        1,
        [
            (Some(b"007"), None),
            (Some(b"7"), None),
            (Some(b"-1000"), None),
        ],
        [
            (Some(b"-1000"), None),
            (Some(b"7"), None),
            (Some(b"007"), None),
        ],
    ),
    (
        b"c",
        2,
        [
            (Some(b"b"), Some(b"2")),
            (Some(b"a"), Some(b"10")),
            (Some(b"a"), Some(b"9")),
        ],
        [
            (Some(b"a"), Some(b"9")),
            (Some(b"a"), Some(b"10")),
            (Some(b"b"), Some(b"2")),
        ],
    ),
];

/// What comes of a change of the rows 5 and 6 of t: the images' ids.
const CHANGES: [(Option<&[u8]>, Option<&[u8]>, Option<&[u8]>); 8] = [
    (None, Some(b"7"), None),
    (Some(b"5"), Some(b"5"), None),
    (Some(b"5"), Some(b"7"), None),
    (Some(b"6"), None, None),
    (Some(b"7"), None, Some(b"missing t")),
    (Some(b"7"), Some(b"5"), Some(b"missing t")),
    (None, Some(b"5"), Some(b"double t")),
    (Some(b"6"), Some(b"5"), Some(b"double t")),
];

fn cell(alloc: Global, text: Option<&[u8]>) -> Result<Cell, OutOfMemory> {
    match text {
        Some(text) => Ok(Cell::Bytes(Text::from_bytes(alloc, text)?)),
        None => Ok(Cell::Null),
    }
}

/// The first cells of a row.
fn image(
    alloc: Global,
    first: Option<&[u8]>,
    second: Option<&[u8]>,
    count: usize,
) -> Result<Image, OutOfMemory> {
    let mut image = Image::new(alloc);
    image.push(cell(alloc, first)?)?;
    if count == 2 {
        image.push(cell(alloc, second)?)?;
    }
    Ok(image)
}

fn open(alloc: Global) -> Result<Tables, OutOfMemory> {
    let Ok(schema) = Schema::read(alloc, SCHEMA) else {
        return Err(AllocError);
    };
    Tables::new(alloc, &schema)
}

fn insert(
    alloc: Global,
    tables: &mut Tables,
    table: &[u8],
    first: Option<&[u8]>,
    second: Option<&[u8]>,
) -> Result<(), TableRefusal> {
    let change = [Change {
        table: Text::from_bytes(alloc, table)?,
        before: None,
        after: Some(image(alloc, first, second, 2)?),
    }];
    tables.apply(&change)
}

/// Whether the next row behind a key is this one, and the row behind that.
fn is_next(
    alloc: Global,
    tables: &Tables,
    table: &[u8],
    key: Option<&Image>,
    row: Row,
) -> Result<bool, OutOfMemory> {
    let wanted = image(alloc, row.0, row.1, 2)?;
    match tables.next_after(table, key)? {
        Some(next) => Ok(next.image(alloc)?.cells() == wanted.cells()),
        None => Ok(false),
    }
}

fn is_next_behind(
    alloc: Global,
    tables: &Tables,
    table: &[u8],
    count: usize,
    last: Row,
    row: Row,
) -> Result<bool, OutOfMemory> {
    let key = image(alloc, last.0, last.1, count)?;
    is_next(alloc, tables, table, Some(&key), row)
}

fn has_more(
    alloc: Global,
    tables: &Tables,
    table: &[u8],
    count: usize,
    last: Row,
) -> Result<bool, OutOfMemory> {
    let key = image(alloc, last.0, last.1, count)?;
    Ok(tables.next_after(table, Some(&key))?.is_some())
}

fn fill(alloc: Global, table: &[u8], rows: [Row; 3]) -> Result<Tables, TableRefusal> {
    let mut tables = open(alloc)?;
    insert(alloc, &mut tables, table, rows[0].0, rows[0].1)?;
    insert(alloc, &mut tables, table, rows[1].0, rows[1].1)?;
    insert(alloc, &mut tables, table, rows[2].0, rows[2].1)?;
    Ok(tables)
}

fn is_ordered(
    alloc: Global,
    tables: &Tables,
    table: &[u8],
    count: usize,
    rows: [Row; 3],
) -> Result<bool, OutOfMemory> {
    Ok(
        is_next(alloc, tables, table, None, rows[0])?
            && is_next_behind(alloc, tables, table, count, rows[0], rows[1])?
            && is_next_behind(alloc, tables, table, count, rows[1], rows[2])?
            && !has_more(alloc, tables, table, count, rows[2])?,
    )
}

#[test]
fn rows_are_given_in_the_order_of_their_keys(rt: HostRuntime) -> Result<(), TableRefusal> {
    for (table, count, rows, order) in ORDERS {
        let tables = fill(rt.alloc(), table, rows)?;
        assert!(rt; is_ordered(rt.alloc(), &tables, table, count, order)?);
    }
    Ok(())
}

fn image_if(alloc: Global, id: Option<&[u8]>) -> Result<Option<Image>, OutOfMemory> {
    match id {
        Some(id) => Ok(Some(image(alloc, Some(id), None, 2)?)),
        None => Ok(None),
    }
}

fn change(
    alloc: Global,
    before: Option<&[u8]>,
    after: Option<&[u8]>,
) -> Result<Change, OutOfMemory> {
    Ok(Change {
        table: Text::from_bytes(alloc, b"t")?,
        before: image_if(alloc, before)?,
        after: image_if(alloc, after)?,
    })
}

fn told(answer: &Result<(), TableRefusal>) -> Option<&'static [u8]> {
    match answer {
        Ok(()) => None,
        Err(TableRefusal::MissingRow { table: _ }) => Some(b"missing t"),
        Err(TableRefusal::DoubleRow { table: _ }) => Some(b"double t"),
        Err(_) => Some(b"another"),
    }
}

/// What a change of the rows 5 and 6 of t is answered.
fn answer(
    alloc: Global,
    before: Option<&[u8]>,
    after: Option<&[u8]>,
) -> Result<Option<&'static [u8]>, TableRefusal> {
    let mut tables = open(alloc)?;
    insert(alloc, &mut tables, b"t", Some(b"5"), None)?;
    insert(alloc, &mut tables, b"t", Some(b"6"), None)?;
    let change = [change(alloc, before, after)?];
    let answer = tables.apply(&change);
    Ok(told(&answer))
}

#[test]
fn changes_stand_on_the_rows_before_them(rt: HostRuntime) -> Result<(), TableRefusal> {
    for (before, after, wanted) in CHANGES {
        assert_eq!(rt; answer(rt.alloc(), before, after)?, wanted);
    }
    Ok(())
}

/// Whether a row of w with a key of so many bytes is refused, and each change after it.
fn is_refused(alloc: Global, key: &[u8]) -> Result<bool, TableRefusal> {
    let mut tables = open(alloc)?;
    let long = insert(alloc, &mut tables, b"w", Some(key), None);
    let again = insert(alloc, &mut tables, b"t", Some(b"2"), None);
    Ok(is_long(&long) && is_long(&again))
}

fn is_long(answer: &Result<(), TableRefusal>) -> bool {
    matches!(answer, Err(TableRefusal::KeyTooLong { table: _ }))
}

#[test]
fn a_key_has_at_most_3072_bytes(rt: HostRuntime) -> Result<(), TableRefusal> {
    let key = vec![in rt.alloc(); b'a'; 3073]?;
    assert!(rt; is_refused(rt.alloc(), key.as_slice())?);
    assert!(rt; !is_refused(rt.alloc(), &key.as_slice()[1..])?);
    Ok(())
}

/// Whether a change of a table without a key passes, twice too.
fn passes(alloc: Global) -> Result<bool, TableRefusal> {
    let mut tables = open(alloc)?;
    insert(alloc, &mut tables, b"n", Some(b"1"), None)?;
    insert(alloc, &mut tables, b"n", Some(b"1"), None)?;
    Ok(tables.next_after(b"n", None)?.is_none())
}

#[test]
fn changes_of_tables_without_a_key_pass(rt: HostRuntime) -> Result<(), TableRefusal> {
    assert!(rt; passes(rt.alloc())?);
    Ok(())
}
