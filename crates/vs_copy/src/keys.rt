ghost use Rattle.std.specs.Prelude.{◌≡◌};
ghost use Rattle.std.specs.List.{list_all, zip};
ghost use Rattle.vs_base.specs.declared.cell.Cell.{Cell};
ghost use Rattle.vs_base.specs.declared.table.ColumnKind.{ColumnKind};
ghost use Rattle.vs_copy.specs.LastKeys.{are_key_cells, is_key_cell};

use vs_base::{Cell, ColumnKind, is_whole, number_of};

fn is_key_cell(kind: ColumnKind, cell: &Cell) -> bool
    ensures { result ≡ is_key_cell kind cell.now }
{
    match cell {
        Cell::Null => true,
        Cell::Bytes(text) => !is_whole(kind) || number_of(kind, text.as_bytes()).is_some(),
    }
}

fn are_each_key_cells(kinds: &[ColumnKind], key: &[Cell]) -> bool
    ensures { result ≡ list_all (λ (p : ColumnKind × Cell). is_key_cell p.0 p.1) (zip kinds.now key.now) }
{
    kinds
        .iter()
        .zip(key)
        .all(|(kind, cell)| is_key_cell(*kind, cell))
}

/// Whether a key has one cell for each of these kinds, and in whole-number columns NULL or a number.
pub(crate) fn are_key_cells(kinds: &[ColumnKind], key: &[Cell]) -> bool
    ensures { result ≡ are_key_cells kinds.now key.now }
{
    kinds.len() == key.len() && are_each_key_cells(kinds, key)
}
