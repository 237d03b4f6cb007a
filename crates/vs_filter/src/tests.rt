use crate::{Bound, Filter, FilterRefusal, law_changes};
use std::alloc::Global;
use vs_base::{Cell, Change, Image, List, OutOfMemory, RuleText, Text};
use vs_outside::MemTablets;
use vs_schema::Schema;

const SCHEMA: &[u8] =
    b"table t\ncolumn id int\ncolumn v varchar(20)\nkey id\ntable u\ncolumn x int\n";

/// Rules, as the match and the filter of each, that are no filter; and the rule at fault, with the place in its filter.
const REFUSED: [(&[u8], &[u8], &[u8], &[u8], usize, Option<usize>); 6] = [
    (b"/(/", b"", b"t", b"", 0, None),
    (b"t", b"exclude", b"/[/", b"", 1, None),
    (b"t", b"", b"t", b"select * from u", 1, Some(0)),
    (b"/t/", b"select * from t", b"t", b"", 0, Some(0)),
    (b"t", b"exclude", b"t", b"excluded", 1, Some(0)),
    (b"/(/", b"select", b"t", b"", 0, None),
];

/// Two rules, and what they pick of the rows (5, a) and (50, a) of the table t, as the cells of both.
const PICKED: [(&[u8], &[u8], &[u8], &[u8], Option<&[u8]>, Option<&[u8]>); 7] = [
    (b"t", b"exclude", b"/.*", b"", None, None),
    (b"/^t$/", b"", b"t", b"exclude", Some(b"5,a"), Some(b"50,a")),
    (b"/.*", b"", b"t", b"exclude", Some(b"5,a"), Some(b"50,a")),
    (b"u", b"", b"//", b"", Some(b"5,a"), Some(b"50,a")),
    (
        b"t",
        b"select id, v from t where id < 10",
        b"u",
        b"",
        Some(b"5,a"),
        None,
    ),
    (
        b"t",
        b"select v from t where id >= 50",
        b"u",
        b"",
        None,
        Some(b"a"),
    ),
    (b"/^u/", b"", b"T", b"", None, None),
];

fn rule(alloc: Global, pattern: &[u8], filter: &[u8]) -> Result<RuleText, OutOfMemory> {
    Ok(RuleText {
        pattern: Text::from_bytes(alloc, pattern)?,
        filter: Text::from_bytes(alloc, filter)?,
    })
}

/// The filter of two rules.
fn build(
    alloc: Global,
    first: (&[u8], &[u8]),
    second: (&[u8], &[u8]),
) -> Result<Filter, FilterRefusal> {
    let rules = [
        rule(alloc, first.0, first.1)?,
        rule(alloc, second.0, second.1)?,
    ];
    let mut tablets = MemTablets::new(alloc)?;
    Filter::build(alloc, &rules, &mut tablets)
}

/// The filter of two rules over the schema.
fn bind(
    alloc: Global,
    first: (&[u8], &[u8]),
    second: (&[u8], &[u8]),
) -> Result<Bound, FilterRefusal> {
    let Ok(schema) = Schema::read(alloc, SCHEMA) else {
        return Err(FilterRefusal::Memory);
    };
    build(alloc, first, second)?.bind(alloc, &schema)
}

/// The rule at fault, and the place in its filter.
fn fault_of<T: Drop>(built: &Result<T, FilterRefusal>) -> Option<(usize, Option<usize>)> {
    match built {
        Err(FilterRefusal::BadPattern { index }) => Some((*index, None)),
        Err(FilterRefusal::BadRule { index, at }) => Some((*index, Some(*at))),
        _ => None,
    }
}

#[test]
fn rules_are_refused_in_their_order(rt: HostRuntime) {
    for (match_0, filter_0, match_1, filter_1, index, place) in REFUSED {
        let built = build(rt.alloc(), (match_0, filter_0), (match_1, filter_1));
        assert_eq!(rt; fault_of(&built), Some((index, place)));
    }
}

fn row(alloc: Global, id: &[u8], v: &[u8]) -> Result<Image, OutOfMemory> {
    let mut row = Image::new(alloc);
    row.push(Cell::Bytes(Text::from_bytes(alloc, id)?))?;
    row.push(Cell::Bytes(Text::from_bytes(alloc, v)?))?;
    Ok(row)
}

/// An update of (5, a) to (50, a) in the table t.
fn update(alloc: Global) -> Result<Change, OutOfMemory> {
    Ok(Change {
        table: Text::from_bytes(alloc, b"t")?,
        before: Some(row(alloc, b"5", b"a")?),
        after: Some(row(alloc, b"50", b"a")?),
    })
}

/// Whether the image has these cells, with a comma behind each but the last.
fn is_row(image: &Option<Image>, cells: Option<&[u8]>) -> bool {
    match (image, cells) {
        (Some(image), Some(cells)) => {
            let mut left = cells;
            for cell in image.cells() {
                if let Cell::Bytes(text) = cell {
                    left = left.strip_prefix(text.as_bytes()).unwrap_or(b"?");
                }
                left = left.strip_prefix(b",".as_slice()).unwrap_or(left);
            }
            left.is_empty()
        }
        (None, None) => true,
        _ => false,
    }
}

#[test]
fn changes_are_picked_by_the_first_rule_that_fits(rt: HostRuntime) -> Result<(), FilterRefusal> {
    let change = update(rt.alloc())?;
    for (match_0, filter_0, match_1, filter_1, before, after) in PICKED {
        let bound = bind(rt.alloc(), (match_0, filter_0), (match_1, filter_1))?;
        let picked = bound.pick(rt.alloc(), &change)?;
        match picked {
            Some(picked) => {
                assert!(rt; is_row(&picked.before, before) && is_row(&picked.after, after));
            }
            None => assert!(rt; before.is_none() && after.is_none()),
        }
    }
    Ok(())
}

#[test]
fn columns_are_told_of_picked_tables(rt: HostRuntime) -> Result<(), FilterRefusal> {
    let bound = bind(rt.alloc(), (b"t", b"select v from t"), (b"u", b"exclude"))?;
    let told = bound.fields(rt.alloc(), b"t")?;
    assert!(rt; told.is_some_and(|columns| columns.len() == 1));
    assert!(rt; bound.fields(rt.alloc(), b"u")?.is_none());
    Ok(())
}

#[test]
fn selects_are_bound_though_another_rule_fits_first(rt: HostRuntime) {
    let bound = bind(rt.alloc(), (b"/t/", b""), (b"t", b"select x from t"));
    assert!(rt; matches!(bound, Err(FilterRefusal::Unbound { index: 1, .. })));
}

#[test]
fn the_laws_are_called() {
    law_changes();
}
