use crate::{
    Maps, RowRefusal, RowsOf, is_schema_of, law_columns, law_layouts, law_rows, law_tables,
};
use std::alloc::{AllocError, Global};
use std::process::Abort;
use std::test::Fail;
use vs_base::{Cell, Change, Image, List, Table, Text};
use vs_schema::Schema;

const SCHEMA: &[u8] = b"table t\ncolumn id int\ncolumn v varchar(20)\nkey id\nskip s\n";

/// Table 7 is `vt_c.t` (id int, v varchar(20)).
const MAP: &[u8] = b"\x07\0\0\0\0\0\x01\0\x04vt_c\0\x01t\0\x02\x03\x0f\x02\x14\0\x02";

/// Inserts into table 7: (5, 'a') and (6, NULL).
const INSERTS: &[u8] = b"\x07\0\0\0\0\0\x01\0\x02\0\x02\x03\0\x05\0\0\0\x01a\x02\x06\0\0\0";

/// Table 9 is `_vt.resharding_journal` (id bigint, db_name varbinary(255), val blob).
const JOURNAL: &[u8] =
    b"\x09\0\0\0\0\0\x01\0\x03_vt\0\x12resharding_journal\0\x03\x08\x0f\xfc\x03\xff\0\x02\x04";

fn put_image(image: &Option<Image>, out: &mut Vec<u8>) -> Result<(), AllocError> {
    let Some(image) = image else {
        return out.extend_from_slice(b"-");
    };
    for cell in image.cells() {
        match cell {
            Cell::Null => out.extend_from_slice(b"[NULL]")?,
            Cell::Bytes(text) => {
                out.push(b'[')?;
                out.extend_from_slice(text.as_bytes())?;
                out.push(b']')?;
            }
        }
    }
    Ok(())
}

fn put_changes(changes: &[Change], out: &mut Vec<u8>) -> Result<(), AllocError> {
    for change in changes {
        out.push(b' ')?;
        out.extend_from_slice(change.table.as_bytes())?;
        out.push(b' ')?;
        put_image(&change.before, out)?;
        out.push(b'>')?;
        put_image(&change.after, out)?;
    }
    Ok(())
}

fn put_refusal(refusal: &RowRefusal, out: &mut Vec<u8>) -> Result<(), AllocError> {
    match refusal {
        RowRefusal::BadBody => out.extend_from_slice(b"bad body"),
        RowRefusal::Memory => out.extend_from_slice(b"memory"),
        RowRefusal::UnknownTableId { id: 8 } => out.extend_from_slice(b"unknown id 8"),
        RowRefusal::UnknownTableId { .. } => out.extend_from_slice(b"unknown id"),
        RowRefusal::UnknownTable { table } => {
            out.extend_from_slice(b"unknown ")?;
            out.extend_from_slice(table.as_bytes())
        }
        RowRefusal::Disagrees { table } => {
            out.extend_from_slice(b"disagrees ")?;
            out.extend_from_slice(table.as_bytes())
        }
        RowRefusal::NotFullImage { table } => {
            out.extend_from_slice(b"not full ")?;
            out.extend_from_slice(table.as_bytes())
        }
        RowRefusal::BadRow { table } => {
            out.extend_from_slice(b"bad row ")?;
            out.extend_from_slice(table.as_bytes())
        }
    }
}

/// What a rows event tells, as a text.
fn told(alloc: Global, outcome: &Result<RowsOf, RowRefusal>) -> Result<Vec<u8>, AllocError> {
    let mut out = Vec::new(alloc);
    match outcome {
        Ok(RowsOf::Changes(changes)) => {
            out.extend_from_slice(b"changes")?;
            put_changes(changes.as_slice(), &mut out)?;
        }
        Ok(RowsOf::Journal(changes)) => {
            out.extend_from_slice(b"journal")?;
            put_changes(changes.as_slice(), &mut out)?;
        }
        Ok(RowsOf::Passed) => out.extend_from_slice(b"passed")?,
        Err(refusal) => put_refusal(refusal, &mut out)?,
    }
    Ok(out)
}

/// Maps with these table maps, under the schema text.
fn maps_of(alloc: Global, schema: &[u8], bodies: &[&[u8]]) -> Result<Maps, Fail> {
    let schema = Schema::read(alloc, schema)?;
    let mut maps = Maps::new(alloc);
    for body in bodies {
        maps.put(body, &schema, b"c")?;
    }
    Ok(maps)
}

/// The body of a rows event of this kind, and what it tells.
#[derive(Clone, Copy)]
struct Event<'a> {
    kind: u8,
    body: &'a [u8],
    text: &'a [u8],
}

const TWO_INSERTS: Event<'static> = Event {
    kind: 30,
    body: INSERTS,
    text: b"changes t ->[5][a] t ->[6][NULL]",
};

fn check(rt: &impl Abort, alloc: Global, maps: &Maps, event: &Event<'_>) -> Result<(), AllocError> {
    let text = told(alloc, &maps.rows(alloc, event.kind, event.body))?;
    assert_eq!(rt; text.as_slice(), event.text);
    Ok(())
}

#[test]
fn worked_bodies(rt: HostRuntime) -> Result<(), Fail> {
    let alloc = rt.alloc();
    let mut maps = maps_of(alloc, SCHEMA, &[MAP])?;
    check(&rt, alloc, &maps, &TWO_INSERTS)?;
    let other = Event {
        kind: 30,
        body: b"\x08\0\0\0\0\0\x01\0\x02\0\x02\x03\0\x05\0\0\0\x01a\x02\x06\0\0\0",
        text: b"unknown id 8",
    };
    check(&rt, alloc, &maps, &other)?;
    maps.clear();
    let cleared = Event {
        text: b"unknown id",
        ..TWO_INSERTS
    };
    check(&rt, alloc, &maps, &cleared)?;
    Ok(())
}

static EVENTS: [Event<'static>; 18] = [
    // no row
    Event {
        kind: 30,
        body: b"\x07\0\0\0\0\0\x01\0\x02\0\x02\x03",
        text: b"changes",
    },
    // a delete, all NULL
    Event {
        kind: 32,
        body: b"\x07\0\0\0\0\0\x01\0\x02\0\x02\xff\xff",
        text: b"changes t [NULL][NULL]>-",
    },
    // an update from (5, NULL) to (NULL, 'b'), behind extra bytes
    Event {
        kind: 31,
        body: b"\x07\0\0\0\0\0\x01\0\x05\0xyz\x02\x03\x03\x02\x05\0\0\0\x01\x01b",
        text: b"changes t [5][NULL]>[NULL][b]",
    },
    // extra bytes that don't count their length, or aren't there; no present bits; another kind
    Event {
        kind: 30,
        body: b"\x07\0\0\0\0\0\x01\0\x01\0\x02\x03",
        text: b"bad body",
    },
    Event {
        kind: 30,
        body: b"\x07\0\0\0\0\0\x01\0\x06\0xyz",
        text: b"bad body",
    },
    Event {
        kind: 31,
        body: b"\x07\0\0\0\0\0\x01\0\x02\0\x02\x03",
        text: b"bad body",
    },
    Event {
        kind: 29,
        body: INSERTS,
        text: b"bad body",
    },
    // the layout comes before the number of the table
    Event {
        kind: 30,
        body: b"\x0f\0\0\0\0\0\x01\0\x01\0\x02\x03",
        text: b"bad body",
    },
    // an image that lacks a column; the second of two; before a count that isn't the table's
    Event {
        kind: 30,
        body: b"\x07\0\0\0\0\0\x01\0\x02\0\x02\x01\0\x05\0\0\0",
        text: b"not full t",
    },
    Event {
        kind: 31,
        body: b"\x07\0\0\0\0\0\x01\0\x02\0\x02\x03\x02",
        text: b"not full t",
    },
    Event {
        kind: 30,
        body: b"\x07\0\0\0\0\0\x01\0\x02\0\x03\x03",
        text: b"not full t",
    },
    // another count; no columns; a value that is cut behind its length
    Event {
        kind: 30,
        body: b"\x07\0\0\0\0\0\x01\0\x02\0\x03\x07",
        text: b"bad row t",
    },
    Event {
        kind: 30,
        body: b"\x07\0\0\0\0\0\x01\0\x02\0\0",
        text: b"bad row t",
    },
    Event {
        kind: 30,
        body: b"\x07\0\0\0\0\0\x01\0\x02\0\x02\x03\0\x05\0\0\0\x02a",
        text: b"bad row t",
    },
    // tables that are passed over need no rows that fit
    Event {
        kind: 30,
        body: b"\x08\0\0\0\0\0\x01\0\x02\0\x01\0\x07",
        text: b"passed",
    },
    Event {
        kind: 30,
        body: b"\x0a\0\0\0\0\0\x01\0\x02\0\0\x07",
        text: b"passed",
    },
    // journals: a NULL val is the empty text
    Event {
        kind: 30,
        body: b"\x09\0\0\0\0\0\x01\0\x02\0\x03\x07\x04\x07\0\0\0\0\0\0\0\x04vt_c",
        text: b"journal resharding_journal ->[7][vt_c][]",
    },
    Event {
        kind: 30,
        body: b"\x09\0\0\0\0\0\x01\0\x02\0\x03\x07\x02\x07\0\0\0\0\0\0\0\x02\0id",
        text: b"journal resharding_journal ->[7][NULL][id]",
    },
];

/// A table that the schema text skips, and one of another keyspace.
const SKIPPED: &[u8] = b"\x08\0\0\0\0\0\x01\0\x04vt_c\0\x01s\0\x01\xf5\x01\x04\x01";

const FOREIGN: &[u8] = b"\x0a\0\0\0\0\0\x01\0\x04vt_d\0\x01t\0\0\0";

#[test]
fn rows_events(rt: HostRuntime) -> Result<(), Fail> {
    let alloc = rt.alloc();
    let maps = maps_of(alloc, SCHEMA, &[MAP, JOURNAL, SKIPPED, FOREIGN])?;
    for event in &EVENTS {
        check(&rt, alloc, &maps, event)?;
    }
    Ok(())
}

/// What the first so many bytes of the inserts tell.
fn text_of_cut(end: usize) -> &'static [u8] {
    match end {
        0..=11 => b"bad body",
        12 => b"changes",
        19 => b"changes t ->[5][a]",
        _ => b"bad row t",
    }
}

#[test]
fn rows_that_are_cut(rt: HostRuntime) -> Result<(), Fail> {
    let alloc = rt.alloc();
    let maps = maps_of(alloc, SCHEMA, &[MAP])?;
    for end in 0..INSERTS.len() {
        let event = Event {
            kind: 30,
            body: &INSERTS[..end],
            text: text_of_cut(end),
        };
        check(&rt, alloc, &maps, &event)?;
    }
    Ok(())
}

/// The body of a table map, and why it is refused; no text where it is taken.
#[derive(Clone, Copy)]
struct MapBody {
    body: &'static [u8],
    text: &'static [u8],
}

/// What putting the body answers, as a text.
fn put_text(
    alloc: Global,
    maps: &mut Maps,
    schema: &Schema,
    body: &[u8],
) -> Result<Vec<u8>, AllocError> {
    let mut out = Vec::new(alloc);
    if let Err(refusal) = maps.put(body, schema, b"c") {
        put_refusal(&refusal, &mut out)?;
    }
    Ok(out)
}

fn check_put(
    rt: &impl Abort,
    alloc: Global,
    maps: &mut Maps,
    schema: &Schema,
    map: &MapBody,
) -> Result<(), AllocError> {
    let text = put_text(alloc, maps, schema, map.body)?;
    assert_eq!(rt; text.as_slice(), map.text);
    Ok(())
}

static REFUSED: [MapBody; 10] = [
    // the keyspace's tables: unknown, with another type, count or precision
    MapBody {
        body: b"\x07\0\0\0\0\0\x01\0\x04vt_c\0\x01u\0\x01\x03\0\0",
        text: b"unknown u",
    },
    MapBody {
        body: b"\x07\0\0\0\0\0\x01\0\x04vt_c\0\x01t\0\x02\x08\x0f\x02\x14\0\x02",
        text: b"disagrees t",
    },
    MapBody {
        body: b"\x07\0\0\0\0\0\x01\0\x04vt_c\0\x01t\0\x01\x03\0\x01",
        text: b"disagrees t",
    },
    MapBody {
        body: b"\x07\0\0\0\0\0\x01\0\x04vt_c\0\x01t\0\0\0",
        text: b"disagrees t",
    },
    // a type that is unknown; metadata too short or too long; no null bits; a name without its end
    MapBody {
        body: b"\x07\0\0\0\0\0\x01\0\x01x\0\x01t\0\x01\xf4\0\0",
        text: b"bad body",
    },
    MapBody {
        body: b"\x07\0\0\0\0\0\x01\0\x04vt_c\0\x01t\0\x02\x03\x0f\x01\x14\x02",
        text: b"bad body",
    },
    MapBody {
        body: b"\x07\0\0\0\0\0\x01\0\x04vt_c\0\x01t\0\x02\x03\x0f\x03\x14\0\0\x02",
        text: b"bad body",
    },
    MapBody {
        body: b"\x07\0\0\0\0\0\x01\0\x04vt_c\0\x01t\0\x02\x03\x0f\x02\x14\0",
        text: b"bad body",
    },
    MapBody {
        body: b"\x07\0\0\0\0\0\x01\0\x04vt_c\x01\x01t\0\x01\x03\0\0",
        text: b"bad body",
    },
    // the table of journals with other columns
    MapBody {
        body: b"\x09\0\0\0\0\0\x01\0\x03_vt\0\x12resharding_journal\0\x01\x08\0\0",
        text: b"disagrees resharding_journal",
    },
];

const TAKEN: MapBody = MapBody {
    body: b"\x07\0\0\0\0\0\x01\0\x04vt_c\0\x01s\0\0\0more",
    text: b"",
};

/// A refused table map changes nothing; one that is taken replaces that of its number.
#[test]
fn table_maps(rt: HostRuntime) -> Result<(), Fail> {
    let alloc = rt.alloc();
    let schema = Schema::read(alloc, SCHEMA)?;
    let mut maps = maps_of(alloc, SCHEMA, &[MAP])?;
    for map in &REFUSED {
        check_put(&rt, alloc, &mut maps, &schema, map)?;
    }
    check(&rt, alloc, &maps, &TWO_INSERTS)?;
    check_put(&rt, alloc, &mut maps, &schema, &TAKEN)?;
    let passed = Event {
        text: b"passed",
        ..TWO_INSERTS
    };
    check(&rt, alloc, &maps, &passed)?;
    Ok(())
}

/// The bytes, and then a byte so many times.
fn and_many(out: &mut Vec<u8>, bytes: &[u8], byte: u8, count: usize) -> Result<(), AllocError> {
    out.extend_from_slice(bytes)?;
    for _ in 0..count {
        out.push(byte)?;
    }
    Ok(())
}

/// A table of a number of columns, all tinyint. The number is given as a packed number, too.
#[derive(Clone, Copy)]
struct Wide {
    count: usize,
    packed: &'static [u8],
}

impl Wide {
    fn bits(&self) -> usize {
        self.count / 8 + (self.count % 8 + 7) / 8
    }
}

fn wide_schema(alloc: Global, count: usize) -> Result<Vec<u8>, AllocError> {
    let mut schema = Vec::from_slice(alloc, b"table w\n")?;
    for column in 0..count {
        let line = format!(in alloc; "column c{column} tinyint\n")?;
        schema.extend_from_slice(line.as_bytes())?;
    }
    Ok(schema)
}

fn wide_map(alloc: Global, wide: &Wide) -> Result<Vec<u8>, AllocError> {
    let mut map = Vec::from_slice(alloc, b"\x07\0\0\0\0\0\x01\0\x04vt_c\0\x01w\0")?;
    and_many(&mut map, wide.packed, 1, wide.count)?;
    and_many(&mut map, b"\0", 0, wide.bits())?;
    Ok(map)
}

/// An insert of a row of sevens and one of NULLs.
fn wide_body(alloc: Global, wide: &Wide) -> Result<Vec<u8>, AllocError> {
    let mut rows = Vec::from_slice(alloc, b"\x07\0\0\0\0\0\x01\0\x02\0")?;
    and_many(&mut rows, wide.packed, 255, wide.bits())?;
    and_many(&mut rows, b"", 0, wide.bits())?;
    and_many(&mut rows, b"", 7, wide.count)?;
    and_many(&mut rows, b"", 255, wide.bits())?;
    Ok(rows)
}

/// The text of those rows.
fn wide_text(alloc: Global, count: usize) -> Result<Vec<u8>, AllocError> {
    let mut text = Vec::from_slice(alloc, b"changes w ->")?;
    for _ in 0..count {
        text.extend_from_slice(b"[7]")?;
    }
    text.extend_from_slice(b" w ->")?;
    for _ in 0..count {
        text.extend_from_slice(b"[NULL]")?;
    }
    Ok(text)
}

fn wide_maps(alloc: Global, wide: &Wide) -> Result<Maps, Fail> {
    let schema = wide_schema(alloc, wide.count)?;
    let map = wide_map(alloc, wide)?;
    maps_of(alloc, schema.as_slice(), &[map.as_slice()])
}

fn check_wide(rt: &impl Abort, alloc: Global, wide: &Wide) -> Result<(), Fail> {
    let maps = wide_maps(alloc, wide)?;
    let body = wide_body(alloc, wide)?;
    let text = wide_text(alloc, wide.count)?;
    let event = Event {
        kind: 30,
        body: body.as_slice(),
        text: text.as_slice(),
    };
    check(rt, alloc, &maps, &event)?;
    Ok(())
}

static WIDE: [Wide; 4] = [
    Wide {
        count: 1,
        packed: b"\x01",
    },
    Wide {
        count: 8,
        packed: b"\x08",
    },
    Wide {
        count: 9,
        packed: b"\x09",
    },
    Wide {
        count: 300,
        packed: b"\xfc\x2c\x01",
    },
];

#[test]
fn wide_tables(rt: HostRuntime) -> Result<(), Fail> {
    for wide in &WIDE {
        check_wide(&rt, rt.alloc(), wide)?;
    }
    Ok(())
}

#[test]
fn a_keyspace_has_one_schema(rt: HostRuntime) -> Result<(), Fail> {
    assert!(rt; is_schema_of(b"vt_c", b"c"));
    assert!(rt; !is_schema_of(b"vt_cd", b"c"));
    Ok(())
}

/// A schema of the table t without columns, which no schema text has.
fn schema_without_columns(alloc: Global) -> Result<Schema, Fail> {
    let mut tables = List::new(alloc);
    tables.push(Table {
        name: Text::from_bytes(alloc, b"t")?,
        columns: List::new(alloc),
        key: List::new(alloc),
    })?;
    Ok(Schema {
        tables,
        skipped: List::new(alloc),
    })
}

static NO_COLUMNS: [Event<'static>; 2] = [
    Event {
        kind: 30,
        body: b"\x07\0\0\0\0\0\x01\0\x02\0\0",
        text: b"changes",
    },
    Event {
        kind: 30,
        body: b"\x07\0\0\0\0\0\x01\0\x02\0\0\0",
        text: b"bad row t",
    },
];

#[test]
fn a_table_without_columns(rt: HostRuntime) -> Result<(), Fail> {
    let alloc = rt.alloc();
    let schema = schema_without_columns(alloc)?;
    let mut maps = Maps::new(alloc);
    maps.put(b"\x07\0\0\0\0\0\x01\0\x04vt_c\0\x01t\0\0\0", &schema, b"c")?;
    for event in &NO_COLUMNS {
        check(&rt, alloc, &maps, event)?;
    }
    Ok(())
}

#[test]
fn laws_are_called() {
    law_layouts();
    law_columns();
    law_rows();
    law_tables();
}
