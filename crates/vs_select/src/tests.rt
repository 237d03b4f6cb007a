use crate::{BoundSelect, Select, SelectRefusal, law_selects};
use std::alloc::Global;
use std::test::Fail;
use vs_base::{Cell, Column, ColumnKind, Image, List, OutOfMemory, Table, Text};

const BOTH: &[u8] = b"SELECT v, `id` FROM t where id>=-5 and v is not null and v<>'it''s'";

/// The place at which a text is refused.
fn refused_place(alloc: Global, text: &[u8]) -> Option<usize> {
    match Select::read(alloc, text) {
        Err(SelectRefusal::BadSelect { at }) => Some(at),
        _ => None,
    }
}

fn column(alloc: Global, name: &[u8], kind: ColumnKind) -> Result<Column, OutOfMemory> {
    let name = Text::from_bytes(alloc, name)?;
    Ok(Column { name, kind })
}

fn columns(alloc: Global) -> Result<List<Column>, OutOfMemory> {
    let mut columns = List::new(alloc);
    columns.push(column(alloc, b"id", ColumnKind::Int { unsigned: false })?)?;
    columns.push(column(alloc, b"v", ColumnKind::VarChar { length: 20 })?)?;
    Ok(columns)
}

/// Table t with the columns `id int` and `v varchar(20)`.
fn table(alloc: Global) -> Result<Table, OutOfMemory> {
    Ok(Table {
        name: Text::from_bytes(alloc, b"t")?,
        columns: columns(alloc)?,
        key: List::new(alloc),
    })
}

fn bound(alloc: Global, text: &[u8]) -> Result<BoundSelect, SelectRefusal> {
    Select::read(alloc, text)?.bind(alloc, &table(alloc)?)
}

fn cell(alloc: Global, bytes: &[u8]) -> Result<Cell, OutOfMemory> {
    Ok(Cell::Bytes(Text::from_bytes(alloc, bytes)?))
}

/// The row with this number as its id and these bytes as its v, where there are some.
fn row(alloc: Global, id: &[u8], v: &[u8]) -> Result<Image, OutOfMemory> {
    let mut row = Image::new(alloc);
    row.push(cell(alloc, id)?)?;
    if !v.is_empty() {
        row.push(cell(alloc, v)?)?;
    }
    Ok(row)
}

fn is_kept(alloc: Global, text: &[u8], id: &[u8], v: &[u8]) -> Result<bool, SelectRefusal> {
    Ok(bound(alloc, text)?.keeps(&row(alloc, id, v)?))
}

/// Whether the first name at fault is this one: no column, or else one with a wrong literal.
fn is_unbound(alloc: Global, text: &[u8], is_column: bool, name: &[u8]) -> bool {
    match bound(alloc, text) {
        Err(SelectRefusal::UnknownColumn { name: found }) => !is_column && found.as_bytes() == name,
        Err(SelectRefusal::WrongLiteral { name: found }) => is_column && found.as_bytes() == name,
        _ => false,
    }
}

/// A text, and the place from which it is no select; none where it is one.
struct ReadCase {
    text: &'static [u8],
    at: Option<usize>,
}

static READ: [ReadCase; 19] = [
    ReadCase {
        text: b"select * from t",
        at: None,
    },
    ReadCase {
        text: BOTH,
        at: None,
    },
    ReadCase {
        text: b" \tselect\nfrom from from where where=1\r\n",
        at: None,
    },
    ReadCase {
        text: b"select``from t",
        at: None,
    },
    ReadCase {
        text: b"select * from t where a=-0",
        at: None,
    },
    ReadCase {
        text: b"",
        at: Some(0),
    },
    ReadCase {
        text: b"select",
        at: Some(6),
    },
    ReadCase {
        text: b"select ",
        at: Some(7),
    },
    ReadCase {
        text: b"select x frm t",
        at: Some(9),
    },
    ReadCase {
        text: b"select a,A,`a` from t",
        at: Some(11),
    },
    ReadCase {
        text: b"select * from t where a='x",
        at: Some(26),
    },
    ReadCase {
        text: b"select `a from t",
        at: Some(16),
    },
    ReadCase {
        text: b"select * from t where a=12345678901234567890",
        at: Some(24),
    },
    ReadCase {
        text: b"select * from t where a=1and b=2",
        at: Some(24),
    },
    ReadCase {
        text: b"select * from t where a=- 5",
        at: Some(24),
    },
    ReadCase {
        text: b"select * from t where a = b",
        at: Some(26),
    },
    ReadCase {
        text: b"select * from t where a ! b",
        at: Some(24),
    },
    ReadCase {
        text: b"select * from t;",
        at: Some(15),
    },
    ReadCase {
        text: b"select 1a from t",
        at: Some(7),
    },
];

#[test]
fn selects_are_read_or_refused_at_a_place(rt: HostRuntime) {
    for case in &READ {
        assert_eq!(rt; refused_place(rt.alloc(), case.text), case.at);
    }
}

/// A select, a row, and whether the one keeps the other.
struct KeptCase {
    text: &'static [u8],
    id: &'static [u8],
    v: &'static [u8],
    is_kept: bool,
}

static KEPT: [KeptCase; 10] = [
    KeptCase {
        text: BOTH,
        id: b"5",
        v: b"a",
        is_kept: true,
    },
    KeptCase {
        text: BOTH,
        id: b"-6",
        v: b"a",
        is_kept: false,
    },
    KeptCase {
        text: BOTH,
        id: b"5",
        v: b"it's",
        is_kept: false,
    },
    KeptCase {
        text: BOTH,
        id: b"5",
        v: b"",
        is_kept: false,
    },
    KeptCase {
        text: b"select id, v from t where id < 10",
        id: b"5",
        v: b"a",
        is_kept: true,
    },
    KeptCase {
        text: b"select id, v from t where id < 10",
        id: b"50",
        v: b"a",
        is_kept: false,
    },
    KeptCase {
        text: b"select id, v from t where id < 10",
        id: b"07",
        v: b"a",
        is_kept: false,
    },
    KeptCase {
        text: b"select * from t where v is null",
        id: b"1",
        v: b"",
        is_kept: true,
    },
    KeptCase {
        text: b"select * from t where v < 'b'",
        id: b"1",
        v: b"",
        is_kept: false,
    },
    KeptCase {
        text: b"select * from t where v < '9'",
        id: b"1",
        v: b"10",
        is_kept: true,
    },
];

#[test]
fn rows_are_kept(rt: HostRuntime) -> Result<(), Fail> {
    for case in &KEPT {
        let is_kept = is_kept(rt.alloc(), case.text, case.id, case.v)?;
        assert_eq!(rt; is_kept, case.is_kept);
    }
    Ok(())
}

/// A select that fits no table t, and the first name at fault: one that is no column, or else a
/// column with a wrong literal.
struct UnboundCase {
    text: &'static [u8],
    is_column: bool,
    name: &'static [u8],
}

static UNBOUND: [UnboundCase; 5] = [
    UnboundCase {
        text: b"select * from t where id = 'a'",
        is_column: true,
        name: b"id",
    },
    UnboundCase {
        text: b"select * from t where v = 1 and id = 'a'",
        is_column: true,
        name: b"v",
    },
    UnboundCase {
        text: b"select id from t where v = 1 and x = 2",
        is_column: false,
        name: b"x",
    },
    UnboundCase {
        text: b"select id, y from t where v = 1 and x = 2",
        is_column: false,
        name: b"y",
    },
    UnboundCase {
        text: b"select ID from t",
        is_column: false,
        name: b"ID",
    },
];

#[test]
fn names_and_literals_at_fault_are_told(rt: HostRuntime) {
    for case in &UNBOUND {
        assert!(rt; is_unbound(rt.alloc(), case.text, case.is_column, case.name));
    }
}

#[test]
fn rows_are_taken(rt: HostRuntime) -> Result<(), Fail> {
    let alloc = rt.alloc();
    let select = bound(alloc, BOTH)?;
    assert_eq!(rt; select.columns(), [1, 0].as_slice());
    let taken = select.take_row(alloc, &row(alloc, b"5", b"a")?)?;
    let taken = taken.expect(&rt, "a row that is kept");
    assert_eq!(rt; taken.cells().len(), 2);
    assert_eq!(rt; taken.cells()[0].size(), 1);
    Ok(())
}

#[test]
fn tables_are_taken_whole(rt: HostRuntime) -> Result<(), Fail> {
    let alloc = rt.alloc();
    let whole = BoundSelect::whole(alloc, &table(alloc)?)?;
    assert_eq!(rt; whole.columns(), [0, 1].as_slice());
    assert!(rt; whole.keeps(&row(alloc, b"5", b"a")?));
    Ok(())
}

#[test]
fn laws_are_called() {
    law_selects();
}
