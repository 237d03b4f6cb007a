ghost use Rattle.std.specs.Prelude.{
  ◌≡◌,
  ◌≤◌,
  ◌⊎◌,
  ℕ,
  ℤ,
  List as Items,
  IfSome,
  MatchOption,
};
ghost use Rattle.vs_base.specs.declared.Gtid.{Gtid};
ghost use Rattle.vs_base.specs.declared.ShardName.{ShardName};
ghost use Rattle.vs_base.specs.declared.Why.{Why};
ghost use Rattle.vs_outside.specs.Counts.{Rose};
ghost use Rattle.vs_outside.specs.Feeds.{GivesAllBack};
ghost use Rattle.vs_outside.specs.Told.{Takes, Writes};
ghost use Rattle.vs_select.specs.declared.refusal.SelectRefusal.{SelectRefusal};
ghost use Rattle.vs_command.specs.declared.status.RequestFault.{RequestFault};
ghost use Rattle.vs_command.specs.declared.status.Status.{Status};
ghost use Rattle.vs_command.specs.Causes.{
  AnswersLog,
  HasRead,
  IsBadSchema,
  IsDue,
  IsOutside,
  IsUnbound,
  IsUnknown,
  OwesLog,
};
ghost use Rattle.vs_command.specs.Outside.{GoesOn, KeepsUnasked};
ghost use Rattle.vs_command.specs.Requests.{
  HasPatternIn,
  IsFaultOf,
  IsOfInput,
  IsWithinFrame,
  LacksPatterns,
};
ghost use Rattle.vs_command.specs.Stages.{IsBrought, stage};
ghost use Rattle.vs_command.specs.Streaming.{Headline};
ghost use Rattle.vs_command.specs.Words.{AreStreamWords};

use crate::connection::connection;
use crate::options::Options;
use crate::status::{RequestFault, Status};
use std::alloc::Global;
use std::sync::Wait;
use vs_outside::{Clock, Sink, Source, Tablets};

/// The folder of the words `stream FOLDER`.
fn folder_of(words: &[String]) -> Option<&str>
    ensures { MatchOption result ((folder : Items ℕ) → AreStreamWords words.now folder → ⊥) (λ folder. AreStreamWords words.now folder.now) }
{
    match words {
        [command, folder] => {
            if command.as_str() == "stream" {
                Some(folder.as_str())
            } else {
                None
            }
        }
        _ => None,
    }
}

/// The program's stream: reads the words `stream FOLDER` and a request frame from the input, and
/// writes a frame for each transaction of the shard that the position lacks to the output.
///
/// The headline holds where the tablets tell their cluster and the input and the output their bytes;
/// each clause on an answer where those that it names are told. An answer that is due comes, but for
/// one that is brought from outside.
pub fn run<R: Wait, I: Source, O: Sink, T: Tablets, C: Clock>(
    rt: &R,
    alloc: Global,
    words: &[String],
    input: &mut I,
    output: &mut O,
    tablets: &mut T,
    clock: &mut C,
) -> Status
    ensures headline { IfSome (T.cluster tablets.old) (λ c. IfSome (I.left input.old) (λ bytes. Writes (O.sent output.old) (O.sent output.new) (Headline c (λ n. Rose (T.waits tablets.old n) (T.waits tablets.new n)) bytes result))) }

    // the words
    ensures usage { result ≡ Status.Usage → (folder : Items ℕ) → AreStreamWords words.now folder → ⊥ }
    ensures words { ((folder : Items ℕ) → AreStreamWords words.now folder → ⊥) → result ≡ Status.Usage }
    ensures silent { ((folder : Items ℕ) → AreStreamWords words.now folder → ⊥) → O.sent output.new ≡ O.sent output.old }
    ensures untouched { ((folder : Items ℕ) → AreStreamWords words.now folder → ⊥) → (input.new ≡ input.old) × (output.new ≡ output.old) × (tablets.new ≡ tablets.old) }
    ensures pointed { (folder : Items ℕ) → AreStreamWords words.now folder → (T.folder tablets.new ≡ folder) ⊎ ((result ≡ Status.Memory) × (T.folder tablets.new ≡ T.folder tablets.old)) }

    // the request
    ensures request { (fault : RequestFault) → result ≡ Status.Request fault → IsOfInput fault → IfSome (I.left input.old) (λ bytes. IsFaultOf bytes fault) }
    ensures request_when { (folder : Items ℕ) (fault : RequestFault) → AreStreamWords words.now folder → IfSome (I.left input.old) (λ bytes. IsFaultOf bytes fault → IsOutside result ⊎ (result ≡ Status.Request fault)) }
    ensures taken { HasRead (I.left input.old) (I.left input.new) result }
    ensures refused_pattern { (index : ℕ) → result ≡ Status.Request (RequestFault.PatternRefused index) → IfSome (I.left input.old) (λ bytes. HasPatternIn bytes index) }
    ensures pattern { (index : ℕ) → result ≡ Status.Request (RequestFault.PatternRefused index) → Rose (T.pattern_faults tablets.old) (T.pattern_faults tablets.new) }
    ensures patterns { IfSome (I.left input.old) (λ bytes. LacksPatterns bytes → T.pattern_faults tablets.new ≡ T.pattern_faults tablets.old) }
    ensures unbound { (index : ℕ) (why : SelectRefusal) → result ≡ Status.Request (RequestFault.Unbound index why) → IfSome (T.cluster tablets.old) (λ c. IfSome (I.left input.old) (λ bytes. IsUnbound c bytes index why)) }
    ensures unbound_when { (folder : Items ℕ) (index : ℕ) (why : SelectRefusal) → AreStreamWords words.now folder → IfSome (T.cluster tablets.old) (λ c. IfSome (I.left input.old) (λ bytes. IsUnbound c bytes index why → IsOutside result ⊎ (result ≡ Status.Request (RequestFault.Unbound index why)))) }

    // the shard and its log
    ensures unknown { (name : ShardName) → result ≡ Status.UnknownShard name → IfSome (T.cluster tablets.old) (λ c. IfSome (I.left input.old) (λ bytes. IsUnknown c bytes name)) }
    ensures unknown_when { (folder : Items ℕ) (name : ShardName) → AreStreamWords words.now folder → IfSome (T.cluster tablets.old) (λ c. IfSome (I.left input.old) (λ bytes. IsUnknown c bytes name → IsOutside result ⊎ (result ≡ Status.UnknownShard name))) }
    ensures bad_schema { (name : ShardName) (line : ℕ) → result ≡ Status.BadSchema name line → IfSome (T.cluster tablets.old) (λ c. IfSome (I.left input.old) (λ bytes. IsBadSchema c bytes name line)) }
    ensures bad_schema_when { (folder : Items ℕ) (name : ShardName) (line : ℕ) → AreStreamWords words.now folder → IfSome (T.cluster tablets.old) (λ c. IfSome (I.left input.old) (λ bytes. IsBadSchema c bytes name line → IsOutside result ⊎ (result ≡ Status.BadSchema name line))) }
    ensures purged { (name : ShardName) (missing : Gtid) → result ≡ Status.Purged name missing → IfSome (T.cluster tablets.old) (λ c. IfSome (I.left input.old) (λ bytes. AnswersLog c bytes (Status.Purged name missing))) }
    ensures purged_when { (folder : Items ℕ) (name : ShardName) (missing : Gtid) → AreStreamWords words.now folder → IfSome (T.cluster tablets.old) (λ c. IfSome (I.left input.old) (λ bytes. OwesLog c bytes (Status.Purged name missing) → IsOutside result ⊎ (result ≡ Status.Purged name missing))) }
    ensures bad_log { (name : ShardName) (offset : ℕ) (why : Why) → result ≡ Status.BadLog name offset why → IfSome (T.cluster tablets.old) (λ c. IfSome (I.left input.old) (λ bytes. AnswersLog c bytes (Status.BadLog name offset why))) }
    ensures bad_log_when { (folder : Items ℕ) (name : ShardName) (offset : ℕ) (why : Why) → AreStreamWords words.now folder → IfSome (T.cluster tablets.old) (λ c. IfSome (I.left input.old) (λ bytes. OwesLog c bytes (Status.BadLog name offset why) → IsOutside result ⊎ (result ≡ Status.BadLog name offset why))) }
    ensures too_large { (name : ShardName) → result ≡ Status.PositionTooLarge name → IfSome (T.cluster tablets.old) (λ c. IfSome (I.left input.old) (λ bytes. AnswersLog c bytes (Status.PositionTooLarge name))) }
    ensures too_large_when { (folder : Items ℕ) (name : ShardName) → AreStreamWords words.now folder → IfSome (T.cluster tablets.old) (λ c. IfSome (I.left input.old) (λ bytes. OwesLog c bytes (Status.PositionTooLarge name) → IsOutside result ⊎ (result ≡ Status.PositionTooLarge name))) }
    ensures stopped { (name : ShardName) (id : ℤ) → result ≡ Status.Stopped name id → IfSome (T.cluster tablets.old) (λ c. IfSome (I.left input.old) (λ bytes. AnswersLog c bytes (Status.Stopped name id))) }
    ensures stopped_when { (folder : Items ℕ) (name : ShardName) (id : ℤ) → AreStreamWords words.now folder → IfSome (T.cluster tablets.old) (λ c. IfSome (I.left input.old) (λ bytes. OwesLog c bytes (Status.Stopped name id) → IsOutside result ⊎ (result ≡ Status.Stopped name id))) }
    ensures done { result ≡ Status.Done → IfSome (T.cluster tablets.old) (λ c. IfSome (I.left input.old) (λ bytes. AnswersLog c bytes Status.Done)) }
    ensures done_when { (folder : Items ℕ) → AreStreamWords words.now folder → IfSome (T.cluster tablets.old) (λ c. IfSome (I.left input.old) (λ bytes. OwesLog c bytes Status.Done → IsOutside result ⊎ (result ≡ Status.Done))) }

    // what is due, and what is outside
    ensures due { (folder : Items ℕ) → AreStreamWords words.now folder → IfSome (T.cluster tablets.old) (λ c. IfSome (I.left input.old) (λ bytes. IsBrought c bytes result ⊎ IsDue c bytes result)) }
    ensures stage { (folder : Items ℕ) (status : Status) → AreStreamWords words.now folder → IfSome (T.cluster tablets.old) (λ c. IfSome (I.left input.old) (λ bytes. IsDue c bytes status → stage result ≤ stage status)) }
    ensures link { result ≡ Status.LinkFault → Rose (O.faults output.old) (O.faults output.new) }
    ensures input { result ≡ Status.InputFault → Rose (I.faults input.old) (I.faults input.new) }
    ensures feed { (name : ShardName) → result ≡ Status.FeedFault name → Rose (T.faults tablets.old name) (T.faults tablets.new name) }
    ensures opening { (name : ShardName) → result ≡ Status.OpenFault name → Rose (T.open_faults tablets.old name) (T.open_faults tablets.new name) }

    // what stays, whatever the answer
    ensures within { Takes (I.left input.old) (I.left input.new) IsWithinFrame }
    ensures sent { Writes (O.sent output.old) (O.sent output.new) (λ written. Unit {0}) }
    ensures input_later { I.faults input.old ≤ I.faults input.new }
    ensures output_later { O.faults output.old ≤ O.faults output.new }
    ensures patterns_later { T.pattern_faults tablets.old ≤ T.pattern_faults tablets.new }
    ensures goes_on { GoesOn T.cluster T.faults T.waits T.open_faults T.list_faults T.sound tablets.old tablets.new }
    ensures gives_back { GivesAllBack (T.opened tablets.old) (T.returned tablets.old) (T.opened tablets.new) (T.returned tablets.new) }
    ensures others { IfSome (I.left input.old) (KeepsUnasked T.faults T.waits T.open_faults tablets.old tablets.new) }
    ensures clock { clock.new ≡ clock.old }
{
    let Some(folder) = folder_of(words) else {
        return Status::Usage;
    };
    if tablets.point(alloc, folder).is_err() {
        return Status::Memory;
    }
    let options = Options {
        until_end: true,
        capacity: 4,
    };
    connection(rt, alloc, options, input, output, tablets, clock)
}
