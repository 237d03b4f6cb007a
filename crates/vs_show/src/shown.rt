ghost use Rattle.std.specs.Prelude.{◌≡◌, ◌++◌, ℕ, List, OnOk};
ghost use Rattle.std.specs.List.{flat_map, join_by};
ghost use Rattle.std.specs.Fmt.{signed_decimal};

use crate::OutOfMemory;
use itoa::Buffer;

/// What has a text in a line.
pub(crate) trait Shown {
    ghost text: { Self → List ℕ };

    /// Appends the text, or a part of it where memory runs out.
    fn put(&self, out: &mut Vec<u8>) -> Result<(), OutOfMemory>
        ensures { OnOk result (out.new.items ≡ out.old.items ++ text self.now) };
}

/// Appends the texts of the items one after the other.
pub(crate) fn put_all<T: Shown>(items: &[T], out: &mut Vec<u8>) -> Result<(), OutOfMemory>
    ensures { OnOk result (out.new.items ≡ out.old.items ++ flat_map T.text items.now) }
{
    for item in items {
        item.put(out)?;
    }
    Ok(())
}

/// Appends the texts of the items with a separator between them.
pub(crate) fn put_joined<T: Shown>(
    items: &[T],
    separator: &[u8],
    out: &mut Vec<u8>,
) -> Result<(), OutOfMemory>
    ensures { OnOk result (out.new.items ≡ out.old.items ++ join_by T.text separator.now items.now) }
{
    let Some((first, others)) = items.split_first() else {
        return Ok(());
    };
    first.put(out)?;
    for item in others {
        out.extend_from_slice(separator)?;
        item.put(out)?;
    }
    Ok(())
}

pub(crate) fn put_number(number: i64, out: &mut Vec<u8>) -> Result<(), OutOfMemory>
    ensures { OnOk result (out.new.items ≡ out.old.items ++ signed_decimal number) }
{
    let mut buffer = Buffer::new();
    out.extend_from_slice(buffer.format(number).as_bytes())
}
