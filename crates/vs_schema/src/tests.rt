use crate::{Listed, Schema, SchemaRefusal, law_faults, law_lawful};
use std::alloc::Global;
use std::process::Abort;
use std::test::Fail;
use vs_base::{Column, ColumnKind, Table};

const ONE_TABLE: &[u8] = b"table t\ncolumn id int\ncolumn v varchar(20)\nkey id\n";

/// The line at which a text is refused; 0 where it is none.
fn refused_line(alloc: Global, text: &[u8]) -> usize {
    match Schema::read(alloc, text) {
        Err(SchemaRefusal::BadSchema { line }) => line,
        _ => 0,
    }
}

fn expect_column(rt: &impl Abort, column: &Column, name: &[u8], kind: ColumnKind) {
    assert_eq!(rt; column.name.as_bytes(), name);
    assert_eq!(rt; column.kind, kind);
}

fn expect_table(rt: &impl Abort, table: &Table) {
    assert_eq!(rt; table.name.as_bytes(), b"t".as_slice());
    match table.columns.as_slice() {
        [id, v] => {
            expect_column(rt, id, b"id", ColumnKind::Int { unsigned: false });
            expect_column(rt, v, b"v", ColumnKind::VarChar { length: 20 });
        }
        _ => assert!(rt; false, "two columns are wanted"),
    }
    assert_eq!(rt; table.key.as_slice(), [0].as_slice());
}

#[test]
fn a_table_is_read(rt: HostRuntime) -> Result<(), Fail> {
    let alloc = rt.alloc();
    let schema = Schema::read(alloc, ONE_TABLE)?.copy(alloc)?;
    match schema.tables() {
        [table] => expect_table(&rt, table),
        _ => assert!(rt; false, "one table is wanted"),
    }
    assert!(rt; matches!(schema.table(b"t"), Listed::Known(_)));
    assert!(rt; matches!(schema.table(b"u"), Listed::Absent));
    Ok(())
}

#[test]
fn tables_ascend_and_some_are_skipped(rt: HostRuntime) -> Result<(), Fail> {
    let alloc = rt.alloc();
    let text =
        b"# a shard\ntable t\ncolumn a date\nskip s\n\ncolumn b decimal(10,2)\ntable r\ncolumn a text";
    let schema = Schema::read(alloc, text)?;
    match schema.tables() {
        [r, t] => {
            assert_eq!(rt; r.name.as_bytes(), b"r".as_slice());
            assert_eq!(rt; t.name.as_bytes(), b"t".as_slice());
            assert_eq!(rt; t.columns.as_slice().len(), 2);
        }
        _ => assert!(rt; false, "two tables are wanted"),
    }
    assert!(rt; matches!(schema.table(b"s"), Listed::Skipped));
    Ok(())
}

/// A text, and the line at which it is refused; 0 where it is read.
struct LineCase {
    text: &'static [u8],
    line: usize,
}

static LINES: [LineCase; 17] = [
    LineCase {
        text: b"column id int",
        line: 1,
    },
    LineCase { text: b"", line: 0 },
    LineCase {
        text: b"table t",
        line: 2,
    },
    LineCase {
        text: b"table t\n\n",
        line: 3,
    },
    LineCase {
        text: b"table t\ntable u\n",
        line: 2,
    },
    LineCase {
        text: b"table t\ncolumn a int\ntable t",
        line: 3,
    },
    LineCase {
        text: b"table t\ncolumn a int\nskip t",
        line: 3,
    },
    LineCase {
        text: b"table t\ncolumn a int\ncolumn a int",
        line: 3,
    },
    LineCase {
        text: b"table t\ncolumn a int\nkey b",
        line: 3,
    },
    LineCase {
        text: b"table t\ncolumn a int\nkey a a",
        line: 3,
    },
    LineCase {
        text: b"table t\ncolumn a int\nkey a\nkey a",
        line: 4,
    },
    LineCase {
        text: b"table t\ncolumn a blob\nkey a",
        line: 3,
    },
    LineCase {
        text: b"table t\ncolumn a int\nkey",
        line: 3,
    },
    LineCase {
        text: b"table  t",
        line: 1,
    },
    LineCase {
        text: b"table t ",
        line: 1,
    },
    LineCase {
        text: b"Table t",
        line: 1,
    },
    LineCase {
        text: b" # none",
        line: 1,
    },
];

#[test]
fn lines_at_fault_are_told(rt: HostRuntime) {
    for case in &LINES {
        assert_eq!(rt; refused_line(rt.alloc(), case.text), case.line);
    }
}

#[test]
fn laws_are_called() {
    law_faults();
    law_lawful();
}
