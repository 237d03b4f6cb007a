ghost use Rattle.std.specs.Prelude.{◌≡◌, OnOk};
ghost use Rattle.vs_wire.specs.Seen.{seen_value};
ghost use Rattle.vs_proto.specs.Answers.{TakesField};
ghost use Rattle.vs_proto.specs.Shapes.{Shape, slots_before, take_field};

use crate::OutOfMemory;
use crate::backward::Backward;
use crate::refusal::Stop;
use std::alloc::Global;
use vs_wire::FieldValue;

/// A message: how its fields are taken one by one, and how they are spelled.
pub(crate) trait Message: Drop {
    ghost shape: { Shape Self };

    /// The message without fields.
    fn empty(alloc: Global) -> Self
        ensures { result ≡ shape.empty };

    /// Tests the rule over the whole message.
    fn is_whole(&self) -> bool
        ensures { result ≡ shape.is_whole self.now };

    /// Takes the value of one field, unless its number is unknown.
    fn take(&mut self, alloc: Global, number: u32, value: FieldValue<'_>) -> Result<(), Stop>
        ensures { TakesField result self.new (take_field shape.slots self.old number (seen_value value.entry)) };

    /// Writes its fields in front, the last one first.
    fn put(&self, out: &mut Backward) -> Result<(), OutOfMemory>
        ensures { OnOk result (out.new ≡ slots_before shape.slots self.now out.old) };
}
