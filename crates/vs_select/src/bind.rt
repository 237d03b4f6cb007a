//! What a select names and compares, found in the columns of a table.
ghost use Rattle.std.specs.Prelude.{◌≡◌, IfErr, IfOk, None, OnOk, option_copied, option_map};
ghost use Rattle.std.specs.List.{filter_map, find};
ghost use Rattle.vs_select.specs.Binding.{
  bound_test,
  check_on,
  columns_of,
  comparison_on,
  is_unknown,
  is_wrong,
  kind_of,
  listed,
  names_in,
  place_of,
};
ghost use Rattle.vs_base.specs.Numbers.{signed};
ghost use Rattle.vs_select.specs.Refusals.{WrongIs};

use crate::bound::all_places;
use crate::{BoundTest, Check, Comparison, Condition, Literal, Select, SelectRefusal, Test};
use std::alloc::Global;
use vs_base::{Column, ColumnKind, List, OutOfMemory, Text, is_whole};

/// The place and the kind of the column with this name.
fn find_column(columns: &[Column], name: &Text) -> Option<(usize, ColumnKind)>
    ensures place { option_map (λ found. found.0) result ≡ place_of columns.now name.now }
    ensures kind { option_map (λ found. found.1) result ≡ kind_of columns.now name.now }
{
    for (place, column) in columns.iter().enumerate() {
        if column.name == *name {
            return Some((place, column.kind));
        }
    }
    None
}

fn is_unknown(columns: &[Column], name: &Text) -> bool
    ensures { result ≡ is_unknown columns.now name.now }
{
    find_column(columns, name).is_none()
}

fn unknown_column<'a>(columns: &[Column], names: &'a [Text]) -> Option<&'a Text>
    ensures { option_copied result ≡ find (is_unknown columns.now) names.now }
{
    names.iter().find(|name| is_unknown(columns, name))
}

fn unknown_test<'a>(columns: &[Column], tests: &'a [Test]) -> Option<&'a Test>
    ensures { option_copied result ≡ find (λ test. is_unknown columns.now test.column) tests.now }
{
    tests.iter().find(|test| is_unknown(columns, &test.column))
}

fn unknown_listed<'a>(columns: &[Column], names: &'a Option<List<Text>>) -> Option<&'a Text>
    ensures { option_copied result ≡ find (is_unknown columns.now) (listed names.now) }
{
    match names {
        Some(names) => unknown_column(columns, names.as_slice()),
        None => None,
    }
}

/// The first name in a select that is no column.
#[tactic(auto, using(crate::proofs::BindLemmas::names_found))]
pub fn unknown_name<'a>(columns: &[Column], select: &'a Select) -> Option<&'a Text>
    ensures { option_copied result ≡ find (is_unknown columns.now) (names_in select.now) }
{
    if let Some(name) = unknown_listed(columns, &select.columns) {
        return Some(name);
    }
    match unknown_test(columns, select.tests.as_slice()) {
        Some(test) => Some(&test.column),
        None => None,
    }
}

/// The number of a literal.
fn signed(negative: bool, size: u64) -> i128
    ensures { result ≡ signed negative size }
{
    if negative {
        -(size as i128)
    } else {
        size as i128
    }
}

/// A comparison with a literal, where it fits the kind.
fn comparison_on(
    alloc: Global,
    kind: ColumnKind,
    by: Comparison,
    literal: &Literal,
) -> Result<Option<Check>, OutOfMemory>
    ensures { IfOk result (λ check. check ≡ comparison_on kind by literal.now) }
{
    match (is_whole(kind), literal) {
        (true, Literal::Number { negative, size }) => Ok(Some(Check::Number {
            kind,
            by,
            value: signed(*negative, *size),
        })),
        (false, Literal::Bytes(text)) => Ok(Some(Check::Bytes {
            by,
            text: text.copy(alloc)?,
        })),
        _ => Ok(None),
    }
}

fn check_on(
    alloc: Global,
    kind: ColumnKind,
    condition: &Condition,
) -> Result<Option<Check>, OutOfMemory>
    ensures { IfOk result (λ check. check ≡ check_on kind condition.now) }
{
    match condition {
        Condition::Compares { by, literal } => comparison_on(alloc, kind, *by, literal),
        Condition::IsNull => Ok(Some(Check::IsNull)),
        Condition::IsNotNull => Ok(Some(Check::IsNotNull)),
    }
}

fn bound_test(
    alloc: Global,
    columns: &[Column],
    test: &Test,
) -> Result<Option<BoundTest>, OutOfMemory>
    ensures { IfOk result (λ bound. bound ≡ bound_test columns.now test.now) }
{
    let Some((column, kind)) = find_column(columns, &test.column) else {
        return Ok(None);
    };
    match check_on(alloc, kind, &test.condition)? {
        Some(check) => Ok(Some(BoundTest { column, check })),
        None => Ok(None),
    }
}

/// The tests at the places of their columns, or the first whose literal doesn't fit its column.
pub fn bound_tests(
    alloc: Global,
    columns: &[Column],
    tests: &[Test],
) -> Result<List<BoundTest>, SelectRefusal>
    ensures bound { IfOk result (λ bound. bound ≡ filter_map (bound_test columns.now) tests.now) }
    ensures fitting { OnOk result (find (is_wrong columns.now) tests.now ≡ None) }
    ensures wrong { IfErr result (WrongIs (find (is_wrong columns.now) tests.now)) }
{
    let mut bound = List::new(alloc);
    for test in tests {
        match bound_test(alloc, columns, test)? {
            Some(fitting) => bound.push(fitting)?,
            None => {
                return Err(SelectRefusal::WrongLiteral {
                    name: test.column.copy(alloc)?,
                });
            }
        }
    }
    Ok(bound)
}

/// The places of the columns with these names.
fn places_of(alloc: Global, columns: &[Column], names: &[Text]) -> Result<List<usize>, OutOfMemory>
    ensures { IfOk result (λ places. places ≡ filter_map (place_of columns.now) names.now) }
{
    let mut places = List::new(alloc);
    for name in names {
        if let Some((place, _)) = find_column(columns, name) {
            places.push(place)?;
        }
    }
    Ok(places)
}

/// The places of the columns that are taken: of all, where none are named.
pub fn columns_of(
    alloc: Global,
    columns: &[Column],
    names: &Option<List<Text>>,
) -> Result<List<usize>, OutOfMemory>
    ensures { IfOk result (λ places. places ≡ columns_of columns.now names.now) }
{
    match names {
        Some(names) => places_of(alloc, columns, names.as_slice()),
        None => all_places(alloc, columns.len()),
    }
}
