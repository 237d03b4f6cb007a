//! A recording is shown.

use crate::case::{CASE, Case, record};
use crate::logs::{BEGUN_FRAME, CUT_ROWS, FRAMES, ONE_ROW, TABLE, UPDATED};
use crate::requests::{BELOW_TEN, BY_PATTERN, EXCLUDE};
use std::alloc::{AllocError, Global};
use std::process::Abort;
use std::sync::Wait;
use vs_command::{Status, run_plain};
use vs_outside::{MemSink, MemSource, MemTablets};

fn show_words(alloc: Global) -> Result<Vec<String>, AllocError> {
    let mut words = Vec::new(alloc);
    words.push(String::from_str(alloc, "show")?)?;
    Ok(words)
}

fn show_of(alloc: Global, recording: &[u8], output: &mut MemSink) -> Result<Status, AllocError> {
    let words = show_words(alloc)?;
    let mut input = MemSource::new(alloc, recording, &[])?;
    let mut tablets = MemTablets::new(alloc)?;
    Ok(run_plain(alloc, &words, &mut input, output, &mut tablets))
}

/// Shows the recording, and compares the status, its line and the lines that were written.
fn check<R: Abort>(
    rt: &R,
    alloc: Global,
    recording: &[u8],
    number: u8,
    line: &str,
    shown: &str,
) -> Result<(), AllocError> {
    let mut output = MemSink::new(alloc, &[])?;
    let status = show_of(alloc, recording, &mut output)?;
    let told = status.line(alloc)?;
    assert_eq!(rt; status.number(), number);
    assert_eq!(rt; told.as_bytes(), line.as_bytes());
    assert_eq!(rt; output.sent(), shown.as_bytes());
    Ok(())
}

#[test]
fn a_recording_is_shown(rt: HostRuntime) -> Result<(), AllocError> {
    let alloc = rt.alloc();
    let lines = "#1\nVGTID c/0@MySQL56/00000000-0000-0000-0000-000000000001:1\n\
        DDL c/0 'drop table t'\n\
        #2\nVGTID c/0@MySQL56/00000000-0000-0000-0000-000000000001:1-2\n\
        DDL c/0 'drop table s'\n";
    check(&rt, alloc, FRAMES, 0, "", lines)
}

#[test]
fn a_cut_recording_is_refused(rt: HostRuntime) -> Result<(), AllocError> {
    check(&rt, rt.alloc(), BEGUN_FRAME, 17, "bad frame 1: cut", "")
}

/// A stream of rows, and its lines.
struct Rows<'a> {
    case: Case<'a>,
    shown: &'a str,
}

/// The frame of a transaction that puts the row 5 and `a`.
const PUT: &str = "#1\nBEGIN c/0\nFIELD c/0 c.t id:263,v:6165\nROW c/0 c.t - -> ['5','a']\n\
    VGTID c/0@MySQL56/00000000-0000-0000-0000-000000000001:1\nCOMMIT c/0\n";

static ROWS: [Rows<'static>; 4] = [
    Rows {
        case: Case {
            what: "a table that is dropped",
            input: EXCLUDE,
            log: ONE_ROW,
            schema: TABLE,
            ..CASE
        },
        shown: "#1\nBEGIN c/0\nVGTID c/0@MySQL56/00000000-0000-0000-0000-000000000001:1\n\
            COMMIT c/0\n",
    },
    Rows {
        case: Case {
            what: "an image that is dropped",
            input: BELOW_TEN,
            log: UPDATED,
            schema: TABLE,
            ..CASE
        },
        shown: "#1\nBEGIN c/0\nFIELD c/0 c.t id:263,v:6165\nROW c/0 c.t ['5','a'] -> -\n\
            VGTID c/0@MySQL56/00000000-0000-0000-0000-000000000001:1\nCOMMIT c/0\n",
    },
    Rows {
        case: Case {
            what: "a transaction that is cut",
            log: CUT_ROWS,
            schema: TABLE,
            ..CASE
        },
        shown: PUT,
    },
    Rows {
        case: Case {
            what: "a table that a pattern takes",
            input: BY_PATTERN,
            log: ONE_ROW,
            schema: TABLE,
            ..CASE
        },
        shown: PUT,
    },
];

fn check_rows<R: Wait + Abort>(rt: &R, alloc: Global, rows: &Rows<'_>) -> Result<(), AllocError> {
    let mut output = MemSink::new(alloc, &[])?;
    let status = record(rt, alloc, &rows.case, &mut output)?;
    assert_eq!(rt; status.number(), 0, "{}", rows.case.what);
    check(rt, alloc, output.sent(), 0, "", rows.shown)
}

#[test]
fn rows_are_sent_by_rules(rt: HostRuntime) -> Result<(), AllocError> {
    let alloc = rt.alloc();
    for rows in &ROWS {
        check_rows(&rt, alloc, rows)?;
    }
    Ok(())
}
