ghost use Rattle.std.specs.Prelude.{◌≡◌, ◌⊎◌, ◌≤◌, ◌↔◌, ◌^◌, ℕ, None, Some, IfSome, IsTrue, length};
ghost use Rattle.vs_frame.specs.declared.FrameWhy.{FrameWhy};
ghost use Rattle.vs_outside.specs.Counts.{Rose};
ghost use Rattle.vs_outside.specs.Told.{Takes, Writes};
ghost use Rattle.vs_show.specs.Recordings.{bad_frame, lines};
ghost use Rattle.vs_command.specs.Causes.{IsOutside};
ghost use Rattle.vs_command.specs.Showing.{IsShown, status_of};
ghost use Rattle.vs_command.specs.Words.{AreShowWords};

use crate::status::Status;
use std::alloc::Global;
use vs_outside::{Sink, Source, Tablets};
use vs_show::{ShowEnd, show};

/// Whether the word is `show`, and no other stands beside it.
fn is_show(words: &[String]) -> bool
    ensures { IsTrue result ↔ AreShowWords words.now }
{
    match words {
        [command] => command.as_str() == "show",
        _ => false,
    }
}

fn status_of(end: ShowEnd) -> Status
    ensures { result ≡ status_of end }
{
    match end {
        ShowEnd::Whole => Status::Done,
        ShowEnd::BadFrame { number, why } => Status::BadFrame { number, why },
        ShowEnd::LinkFault => Status::LinkFault,
        ShowEnd::InputFault => Status::InputFault,
        ShowEnd::Memory => Status::Memory,
    }
}

/// What the program does without waiting for anyone: with the word `show` it prints the recording on
/// the input as lines that a person reads. With other words nothing is read or written.
pub fn run_plain<I: Source, O: Sink, T: Tablets>(
    alloc: Global,
    words: &[String],
    input: &mut I,
    output: &mut O,
    _tablets: &mut T,
) -> Status
    ensures wrote { IfSome (I.left input.old) (λ bytes. Writes (O.sent output.old) (O.sent output.new) (IsShown (lines bytes) result)) }

    // when each answer comes
    ensures usage { result ≡ Status.Usage → AreShowWords words.now → ⊥ }
    ensures words { (AreShowWords words.now → ⊥) → (result ≡ Status.Usage) × (I.left input.new ≡ I.left input.old) }
    ensures silent { (AreShowWords words.now → ⊥) → O.sent output.new ≡ O.sent output.old }
    ensures tablets { _tablets.new ≡ _tablets.old }
    ensures untouched { (AreShowWords words.now → ⊥) → (input.new ≡ input.old) × (output.new ≡ output.old) }
    ensures input_later { I.faults input.old ≤ I.faults input.new }
    ensures output_later { O.faults output.old ≤ O.faults output.new }
    ensures whole { result ≡ Status.Done → IfSome (I.left input.old) (λ bytes. bad_frame bytes ≡ None) }
    ensures whole_when { AreShowWords words.now → IfSome (I.left input.old) (λ bytes. bad_frame bytes ≡ None → IsOutside result ⊎ (result ≡ Status.Done)) }
    ensures bad { (number : ℕ) (why : FrameWhy) → result ≡ Status.BadFrame number why → IfSome (I.left input.old) (λ bytes. bad_frame bytes ≡ Some (number, why)) }
    ensures bad_when { (number : ℕ) (why : FrameWhy) → AreShowWords words.now → IfSome (I.left input.old) (λ bytes. bad_frame bytes ≡ Some (number, why) → IsOutside result ⊎ (result ≡ Status.BadFrame number why)) }
    ensures link { result ≡ Status.LinkFault → Rose (O.faults output.old) (O.faults output.new) }
    ensures input { result ≡ Status.InputFault → Rose (I.faults input.old) (I.faults input.new) ⊎ Takes (I.left input.old) (I.left input.new) (λ taken. 2 ^ 62 ≤ length taken) }
{
    if !is_show(words) {
        return Status::Usage;
    }
    status_of(show(alloc, input, output))
}
