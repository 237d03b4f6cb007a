ghost use Rattle.std.specs.Prelude.{◌≡◌, IfOk, OnErr, OnOk, ◌++◌, ◌∷◌, []};

use crate::{List, OutOfMemory, Text};
use std::alloc::Global;
use std::marker::Model;

/// The value of a column, as text; or NULL.
#[derive(Debug, Drop, PartialEq, Eq, PartialOrd, Ord, Hash)]
pub enum Cell {
    Null,
    Bytes(Text),
}

impl Cell {
    ghost use Rattle.vs_base.specs.Cells.{cell_size};

    /// The bytes of the value; NULL has none.
    pub fn size(&self) -> usize
        ensures { result ≡ cell_size self.now }
    {
        match self {
            Cell::Null => 0,
            Cell::Bytes(text) => text.as_bytes().len(),
        }
    }

    pub fn copy(&self, alloc: Global) -> Result<Cell, OutOfMemory>
        ensures { IfOk result (λ c. c ≡ self.now) }
    {
        match self {
            Cell::Null => Ok(Cell::Null),
            Cell::Bytes(text) => Ok(Cell::Bytes(text.copy(alloc)?)),
        }
    }
}

/// The cells of a row, or of a key.
#[derive(Debug, Drop)]
pub struct Image {
    cells: List<Cell>,
}

impl Model for Image {
    ghost use Rattle.std.specs.Prelude.{List};
    ghost use Rattle.vs_base.specs.declared.cell.Cell.{Cell};

    ghost Value = { List Cell };

    ghost view = { λ i. i.cells };
}

impl Image {
    pub fn new(alloc: Global) -> Image
        ensures { result ≡ [] }
    {
        Image {
            cells: List::new(alloc),
        }
    }

    /// Without cells, and with the memory for so many.
    pub fn with_capacity(alloc: Global, count: usize) -> Result<Image, OutOfMemory>
        ensures { IfOk result (λ i. i ≡ []) }
    {
        Ok(Image {
            cells: List::with_capacity(alloc, count)?,
        })
    }

    pub fn push(&mut self, cell: Cell) -> Result<(), OutOfMemory>
        ensures ok { OnOk result (self.new ≡ self.old ++ cell ∷ []) }
        ensures err { OnErr result (self.new ≡ self.old) }
    {
        self.cells.push(cell)
    }

    pub fn cells(&self) -> &[Cell]
        ensures { result.now ≡ self.now }
    {
        self.cells.as_slice()
    }

    pub fn copy(&self, alloc: Global) -> Result<Image, OutOfMemory>
        ensures { IfOk result (λ i. i ≡ self.now) }
    {
        Ok(Image {
            cells: self.cells.copy(alloc)?,
        })
    }
}
