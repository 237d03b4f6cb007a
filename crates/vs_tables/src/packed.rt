ghost use Rattle.std.specs.Prelude.{◌≡◌, IfOk, OnOk, ◌++◌, drop, take};
ghost use Rattle.vs_tables.specs.Packed.{length_marks, mark_of, marks_of, text_of, texts_of};

use std::alloc::Global;
use std::marker::Model;
use std::mem;
use vs_base::{Cell, Image, OutOfMemory, Text};

/// The mark of NULL.
const NULL: u8 = 255;

/// The mark of so many bytes of a cell that goes on.
const PIECE: u8 = 254;

/// The cells of a row in one piece of memory.
#[derive(Debug, Drop)]
pub struct PackedRow {
    /// The marks, which say how long the cells are, and behind them the cells' texts.
    bytes: Vec<u8>,
    marks: usize,
}

impl Model for PackedRow {
    ghost use Rattle.std.specs.Prelude.{List, [], drop, take};
    ghost use Rattle.vs_base.specs.declared.cell.Cell.{Cell};
    ghost use Rattle.vs_tables.specs.Packed.{cells_of};

    ghost Value = { List Cell };

    ghost view = { λ p. cells_of [] (take p.marks p.bytes.items) (drop p.marks p.bytes.items) };
}

/// How much memory is taken for a row.
fn packed_size(row: &[Cell]) -> usize {
    let mut size = 0usize;
    for cell in row {
        size = size
            .saturating_add(cell.size())
            .saturating_add(cell.size() / 254)
            .saturating_add(1);
    }
    size
}

/// Says how long a text is.
#[tactic(auto, using(crate::proofs::PackLemmas::marks_last))]
fn push_length(bytes: &mut Vec<u8>, length: usize) -> Result<(), OutOfMemory>
    ensures { OnOk result (bytes.new.items ≡ bytes.old.items ++ length_marks length) }
{
    let mut left = length;
    while left >= 254 {
        bytes.push(PIECE)?;
        left -= 254;
    }
    bytes.push(left as u8)?;
    Ok(())
}

fn push_mark(bytes: &mut Vec<u8>, cell: &Cell) -> Result<(), OutOfMemory>
    ensures { OnOk result (bytes.new.items ≡ bytes.old.items ++ mark_of cell.now) }
{
    match cell {
        Cell::Null => {
            bytes.push(NULL)?;
            Ok(())
        }
        Cell::Bytes(text) => push_length(bytes, text.as_bytes().len()),
    }
}

fn push_marks(bytes: &mut Vec<u8>, row: &[Cell]) -> Result<(), OutOfMemory>
    ensures { OnOk result (bytes.new.items ≡ bytes.old.items ++ marks_of row.now) }
{
    for cell in row {
        push_mark(bytes, cell)?;
    }
    Ok(())
}

fn push_text(bytes: &mut Vec<u8>, cell: &Cell) -> Result<(), OutOfMemory>
    ensures { OnOk result (bytes.new.items ≡ bytes.old.items ++ text_of cell.now) }
{
    if let Cell::Bytes(text) = cell {
        bytes.extend_from_slice(text.as_bytes())?;
    }
    Ok(())
}

fn push_texts(bytes: &mut Vec<u8>, row: &[Cell]) -> Result<(), OutOfMemory>
    ensures { OnOk result (bytes.new.items ≡ bytes.old.items ++ texts_of row.now) }
{
    for cell in row {
        push_text(bytes, cell)?;
    }
    Ok(())
}

/// The first bytes, so many where there are as many, and the others.
fn split(bytes: &[u8], count: usize) -> (&[u8], &[u8])
    ensures first { result.0.now ≡ take count bytes.now }
    ensures others { result.1.now ≡ drop count bytes.now }
{
    if count > bytes.len() {
        (bytes, &[])
    } else {
        bytes.split_at(count)
    }
}

impl PackedRow {
    #[tactic(auto, using(crate::proofs::PackLemmas::packed))]
    pub fn new(alloc: Global, row: &Image) -> Result<PackedRow, OutOfMemory>
        ensures { IfOk result (λ packed. packed ≡ row.now) }
    {
        let mut bytes = Vec::with_capacity(alloc, packed_size(row.cells()))?;
        push_marks(&mut bytes, row.cells())?;
        let marks = bytes.len();
        push_texts(&mut bytes, row.cells())?;
        Ok(PackedRow { bytes, marks })
    }

    /// The row as it was before it was packed.
    pub fn image(&self, alloc: Global) -> Result<Image, OutOfMemory>
        ensures { IfOk result (λ image. image ≡ self.now) }
    {
        let (marks, texts) = split(self.bytes.as_slice(), self.marks);
        let mut image = Image::with_capacity(alloc, marks.len())?;
        let mut text = Text::new(alloc);
        let mut left = texts;
        for mark in marks {
            if *mark == NULL {
                image.push(Cell::Null)?;
            } else {
                let (bytes, others) = split(left, usize::from(*mark));
                text.append(bytes)?;
                left = others;
                if *mark != PIECE {
                    let whole = mem::replace(&mut text, Text::new(alloc));
                    image.push(Cell::Bytes(whole))?;
                }
            }
        }
        Ok(image)
    }
}
