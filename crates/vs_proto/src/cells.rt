ghost use Rattle.std.specs.Prelude.{◌≡◌};
ghost use Rattle.vs_proto.specs.Cells.{cell_left as left_of, cells_fill};

/// Tests that cells of these lengths have so many bytes, and that no length is below -1.
pub(crate) fn is_filled(lengths: &[i64], count: usize) -> bool
    ensures { result ≡ cells_fill lengths.now count }
{
    let mut left = count;
    for length in lengths {
        match cell_left(*length, left) {
            Some(rest) => left = rest,
            None => return false,
        }
    }
    left == 0
}

/// What a cell of this length leaves of so many bytes.
fn cell_left(length: i64, left: usize) -> Option<usize>
    ensures { result ≡ left_of length left }
{
    if length < 0 {
        if length == -1 { Some(left) } else { None }
    } else {
        left.checked_sub(length.cast_unsigned() as usize)
    }
}
