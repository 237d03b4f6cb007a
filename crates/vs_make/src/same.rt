//! Whether what was read is what was asked for.
ghost use Rattle.std.specs.Prelude.{◌≡◌, IsTrue};

use vs_base::{Cell, Change, Image};

fn is_same_cell(a: &Cell, b: &Cell) -> bool
    ensures { IsTrue result → a.now ≡ b.now }
{
    match (a, b) {
        (Cell::Null, Cell::Null) => true,
        (Cell::Bytes(x), Cell::Bytes(y)) => x.as_bytes() == y.as_bytes(),
        _ => false,
    }
}

fn are_same_cells(a: &[Cell], b: &[Cell]) -> bool
    ensures { IsTrue result → a.now ≡ b.now }
{
    let (mut left, mut right) = (a, b);
    while let [x, xs @ ..] = left {
        let [y, ys @ ..] = right else {
            return false;
        };
        if !is_same_cell(x, y) {
            return false;
        }
        left = xs;
        right = ys;
    }
    right.is_empty()
}

fn is_same_image(a: &Option<Image>, b: &Option<Image>) -> bool
    ensures { IsTrue result → a.now ≡ b.now }
{
    match (a, b) {
        (None, None) => true,
        (Some(x), Some(y)) => are_same_cells(x.cells(), y.cells()),
        _ => false,
    }
}

fn is_same_change(a: &Change, b: &Change) -> bool
    ensures { IsTrue result → a.now ≡ b.now }
{
    a.table.as_bytes() == b.table.as_bytes()
        && (is_same_image(&a.before, &b.before) && is_same_image(&a.after, &b.after))
}

pub(crate) fn are_same_changes(a: &[Change], b: &[Change]) -> bool
    ensures { IsTrue result → a.now ≡ b.now }
{
    let (mut left, mut right) = (a, b);
    while let [x, xs @ ..] = left {
        let [y, ys @ ..] = right else {
            return false;
        };
        if !is_same_change(x, y) {
            return false;
        }
        left = xs;
        right = ys;
    }
    right.is_empty()
}
