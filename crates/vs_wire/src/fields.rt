ghost use Rattle.std.specs.Prelude.{◌≡◌, ◌<◌, ◌^◌, ◌++◌, ℕ, List, All, length};
ghost use Rattle.vs_wire.specs.Fields.{
  IsField,
  Value,
  fields_from,
  fields_of,
  placed,
  spelled,
  then_from,
};
ghost use Rattle.vs_wire.specs.Seen.{StepsField};

use crate::field::read_field;
use crate::{Field, Flaw, WireRefusal};
use std::marker::Model;

/// A walk over the fields of a message, seen as the fields and the fault that are still to come.
#[derive(Debug, Drop)]
pub struct Fields<'a> {
    at: usize,
    bytes: &'a [u8],
}

impl<'a> Model for Fields<'a> {
    ghost use Rattle.std.specs.Prelude.{◌+◌, ◌<◌, ◌^◌, length};
    ghost use Rattle.vs_wire.specs.Fields.{Walk, fields_from};

    ghost Value = { Walk };

    ghost view = { λ f. fields_from f.at f.bytes.now };

    ghost invariant = { λ f. f.at + length f.bytes.now < 2 ^ 63 };
}

impl<'a> Fields<'a> {
    /// Begins at the front of a message.
    pub fn new(bytes: &'a [u8]) -> Fields<'a>
        ensures { result ≡ fields_of bytes.now }
    {
        Fields { at: 0, bytes }
    }

    /// The next field, or why there is none. After a refusal, and at the end, it answers `None`.
    pub fn next_field(&mut self) -> Option<Result<Field<'a>, WireRefusal>>
        ensures { StepsField self.old result self.new }
    {
        if self.bytes.is_empty() {
            return None;
        }
        let at = self.at;
        match read_field(self.bytes) {
            Ok((number, value, taken)) => {
                self.at = at + taken;
                self.bytes = &self.bytes[taken..];
                Some(Ok(Field { number, at, value }))
            }
            Err(flaw) => {
                self.bytes = &[];
                Some(Err(WireRefusal::new(at, flaw)))
            }
        }
    }
}

/// Fields that are spelled are read again, each at its place, whatever follows.
pub fn law_fields()
    ensures { (fs : List (ℕ × Value)) (after : List ℕ) → All IsField fs →
        fields_of (spelled fs ++ after) ≡
        then_from (placed 0 fs) (fields_from (length (spelled fs)) after) }
{}
