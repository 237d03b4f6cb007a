//! Selects on the rows of a table.
ghost use Rattle.std.specs.Prelude.{◌≡◌, IfOk};
ghost use Rattle.std.specs.List.{range_with_len};
ghost use Rattle.vs_select.specs.Binding.{whole};
ghost use Rattle.vs_base.specs.Keys.{cell_at, project};
ghost use Rattle.vs_select.specs.Rows.{check_holds, compares, keeps, taken_row};

use crate::Comparison;
use std::alloc::Global;
use std::cmp::Ordering;
use vs_base::{Cell, ColumnKind, Image, List, OutOfMemory, Table, Text, number_of};

/// A condition on a cell.
#[derive(Debug, Drop)]
pub enum Check {
    /// Of a column of whole numbers.
    Number {
        kind: ColumnKind,
        by: Comparison,
        value: i128,
    },
    /// Of any other.
    Bytes {
        by: Comparison,
        text: Text,
    },
    IsNull,
    IsNotNull,
}

/// A condition on the cell at a place.
#[derive(Debug, Drop)]
pub struct BoundTest {
    pub column: usize,
    pub check: Check,
}

/// A select whose columns are places in the rows of a table.
#[derive(Debug, Drop)]
pub struct BoundSelect {
    pub columns: List<usize>,
    pub tests: List<BoundTest>,
}

fn compares(by: Comparison, order: Ordering) -> bool
    ensures { result ≡ compares by order }
{
    match by {
        Comparison::Equal => order.is_eq(),
        Comparison::NotEqual => order.is_ne(),
        Comparison::Less => order.is_lt(),
        Comparison::AtMost => order.is_le(),
        Comparison::Greater => order.is_gt(),
        Comparison::AtLeast => order.is_ge(),
    }
}

impl Check {
    /// Whether the condition holds of a cell.
    fn holds(&self, cell: &Cell) -> bool
        ensures { result ≡ check_holds self.now cell.now }
    {
        match (self, cell) {
            (Check::IsNull, Cell::Null) | (Check::IsNotNull, Cell::Bytes(_)) => true,
            (Check::Number { kind, by, value }, Cell::Bytes(text)) => {
                match number_of(*kind, text.as_bytes()) {
                    Some(number) => compares(*by, number.cmp(value)),
                    None => false,
                }
            }
            (Check::Bytes { by, text }, Cell::Bytes(bytes)) => {
                compares(*by, bytes.as_bytes().cmp(text.as_bytes()))
            }
            _ => false,
        }
    }

    /// Whether it holds of the cell at a place; one that the row lacks counts as NULL.
    fn holds_at(&self, row: &[Cell], place: usize) -> bool
        ensures { result ≡ check_holds self.now (cell_at row.now place) }
    {
        match row.get(place) {
            Some(cell) => self.holds(cell),
            None => self.holds(&Cell::Null),
        }
    }
}

fn copy_cell(alloc: Global, row: &[Cell], place: usize) -> Result<Cell, OutOfMemory>
    ensures { IfOk result (λ c. c ≡ cell_at row.now place) }
{
    match row.get(place) {
        Some(cell) => cell.copy(alloc),
        None => Ok(Cell::Null),
    }
}

impl BoundSelect {
    /// Whether each condition holds of the row.
    pub fn keeps(&self, row: &Image) -> bool
        ensures { result ≡ keeps self.now row.now }
    {
        let cells = row.cells();
        self.tests
            .as_slice()
            .iter()
            .all(|test| test.check.holds_at(cells, test.column))
    }

    /// The places of the columns that are taken.
    pub fn columns(&self) -> &[usize]
        ensures { result.now ≡ self.now.columns }
    {
        self.columns.as_slice()
    }

    fn project(&self, alloc: Global, row: &Image) -> Result<Image, OutOfMemory>
        ensures { IfOk result (λ r. r ≡ project self.now.columns row.now) }
    {
        let mut taken = Image::new(alloc);
        for place in self.columns() {
            taken.push(copy_cell(alloc, row.cells(), *place)?)?;
        }
        Ok(taken)
    }

    /// The row, where it is kept, with the columns that are taken.
    pub fn take_row(&self, alloc: Global, row: &Image) -> Result<Option<Image>, OutOfMemory>
        ensures { IfOk result (λ r. r ≡ taken_row self.now row.now) }
    {
        if !self.keeps(row) {
            return Ok(None);
        }
        Ok(Some(self.project(alloc, row)?))
    }

    /// A table taken whole: each row, with each column.
    pub fn whole(alloc: Global, table: &Table) -> Result<BoundSelect, OutOfMemory>
        ensures { IfOk result (λ b. b ≡ whole table.now.columns) }
    {
        Ok(BoundSelect {
            columns: all_places(alloc, table.columns.as_slice().len())?,
            tests: List::new(alloc),
        })
    }
}

/// The places of so many columns.
#[tactic(auto, using(crate::proofs::BindLemmas::places_more))]
pub fn all_places(alloc: Global, count: usize) -> Result<List<usize>, OutOfMemory>
    ensures { IfOk result (λ places. places ≡ range_with_len 0 count) }
{
    let mut places = List::new(alloc);
    for place in 0..count {
        places.push(place)?;
    }
    Ok(places)
}
