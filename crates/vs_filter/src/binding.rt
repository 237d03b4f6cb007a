//! Rules over the tables of a schema.
ghost use Rattle.std.specs.Prelude.{◌≡◌, IfErr, IfOk, None, OnOk, map};
ghost use Rattle.std.specs.List.{find, slice_get};
ghost use Rattle.std.specs.Option.{option_copied, option_map};
ghost use Rattle.vs_filter.specs.Causes.{UnboundIs, WhyIs, meant_as};
ghost use Rattle.vs_filter.specs.Fits.{fits};
ghost use Rattle.vs_filter.specs.Rules.{
  columns_at,
  first_unbound,
  picked_as,
  picked_by,
  table_in,
  taken_by,
  taken_of,
  unbound_by,
};

use crate::bound::Picked;
use crate::filter::FilterRefusal;
use crate::rule::{Rule, Take};
use std::alloc::{AllocError, Global};
use vs_base::{Column, List, OutOfMemory, Table};
use vs_select::{BoundSelect, SelectRefusal};

fn find_table<'a>(schema: &'a [Table], name: &[u8]) -> Option<&'a Table>
    ensures { option_copied result ≡ table_in schema.now name.now }
{
    schema.iter().find(|table| table.name.as_bytes() == name)
}

/// Whether what a rule takes stands on the schema.
fn check_take(alloc: Global, schema: &[Table], take: &Take) -> Result<(), SelectRefusal>
    ensures ok { OnOk result (unbound_by schema.now take.now ≡ None) }
    ensures why { IfErr result (WhyIs (unbound_by schema.now take.now)) }
{
    let Take::Chosen(select) = take else {
        return Ok(());
    };
    let Some(table) = find_table(schema, select.table.as_bytes()) else {
        return Ok(());
    };
    match select.bind(alloc, table) {
        Ok(_) => Ok(()),
        Err(why) => Err(why),
    }
}

/// Whether the selects of all rules stand on the schema, those of a rule that fits no table first too.
pub(crate) fn check_rules(
    alloc: Global,
    rules: &[Rule],
    schema: &[Table],
) -> Result<(), FilterRefusal>
    ensures ok { OnOk result (first_unbound (map meant_as rules.now) schema.now ≡ None) }
    ensures unbound { IfErr result (UnboundIs (map meant_as rules.now) schema.now) }
{
    for (index, rule) in rules.iter().enumerate() {
        match check_take(alloc, schema, &rule.take) {
            Ok(()) => {}
            Err(SelectRefusal::Memory) => return Err(FilterRefusal::Memory),
            Err(why) => return Err(FilterRefusal::Unbound { index, why }),
        }
    }
    Ok(())
}

/// The first rule that fits a table of this name.
fn first_fit<'a>(
    alloc: Global,
    rules: &'a [Rule],
    name: &[u8],
) -> Result<Option<&'a Rule>, OutOfMemory>
    ensures { IfOk result (λ r. option_map (λ rule. meant_as rule.now) r ≡ find (λ m. fits m.pattern name.now) (map meant_as rules.now)) }
{
    for rule in rules {
        if rule.matching.fits(alloc, name)? {
            return Ok(Some(rule));
        }
    }
    Ok(None)
}

/// What a rule takes of a table.
fn taken_by(alloc: Global, take: &Take, table: &Table) -> Result<Option<BoundSelect>, OutOfMemory>
    ensures { IfOk result (λ s. s ≡ taken_by take.now table.now) }
{
    match take {
        Take::Nothing => Ok(None),
        Take::Everything => Ok(Some(BoundSelect::whole(alloc, table)?)),
        Take::Chosen(select) => match select.bind(alloc, table) {
            Ok(bound) => Ok(Some(bound)),
            Err(SelectRefusal::Memory) => Err(AllocError),
            Err(_) => Ok(None),
        },
    }
}

fn column_at(columns: &[Column], place: usize) -> Option<&Column>
    ensures { option_copied result ≡ slice_get columns.now place }
{
    columns.get(place)
}

/// The columns at these places.
fn columns_at(
    alloc: Global,
    columns: &[Column],
    places: &[usize],
) -> Result<List<Column>, OutOfMemory>
    ensures { IfOk result (λ taken. taken ≡ columns_at columns.now places.now) }
{
    let mut taken = List::new(alloc);
    for place in places {
        if let Some(column) = column_at(columns, *place) {
            taken.push(column.copy(alloc)?)?;
        }
    }
    Ok(taken)
}

/// A table as the first rule that fits it takes it.
fn pick_table(alloc: Global, rules: &[Rule], table: &Table) -> Result<Option<Picked>, OutOfMemory>
    ensures { IfOk result (λ p. p ≡ option_map (picked_as table.now) (taken_of (map meant_as rules.now) table.now)) }
{
    let Some(rule) = first_fit(alloc, rules, table.name.as_bytes())? else {
        return Ok(None);
    };
    let Some(select) = taken_by(alloc, &rule.take, table)? else {
        return Ok(None);
    };
    Ok(Some(Picked {
        name: table.name.copy(alloc)?,
        columns: columns_at(alloc, table.columns.as_slice(), select.columns())?,
        select,
    }))
}

/// The tables of which rules take something.
pub(crate) fn pick_tables(
    alloc: Global,
    rules: &[Rule],
    schema: &[Table],
) -> Result<List<Picked>, OutOfMemory>
    ensures { IfOk result (λ tables. tables ≡ picked_by (map meant_as rules.now) schema.now) }
{
    let mut tables = List::new(alloc);
    for table in schema {
        if let Some(picked) = pick_table(alloc, rules, table)? {
            tables.push(picked)?;
        }
    }
    Ok(tables)
}
