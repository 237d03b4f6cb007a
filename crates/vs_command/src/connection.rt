ghost use Rattle.std.specs.Prelude.{◌≡◌, ◌≢◌, ◌≤◌, ◌⊎◌, ℕ, IfSome, None, false, map};
ghost use Rattle.vs_base.specs.declared.ShardName.{ShardName};
ghost use Rattle.vs_base.specs.Names.{same_name};
ghost use Rattle.vs_outside.specs.Clusters.{find_shard};
ghost use Rattle.vs_outside.specs.Counts.{Rose};
ghost use Rattle.vs_outside.specs.Feeds.{GivesAllBack};
ghost use Rattle.vs_outside.specs.Told.{Takes, Writes};
ghost use Rattle.vs_filter.specs.Causes.{HasNoPattern, meant_as};
ghost use Rattle.vs_filter.specs.Rules.{first_fault, meant_by};
ghost use Rattle.vs_command.specs.declared.status.RequestFault.{RequestFault};
ghost use Rattle.vs_command.specs.declared.status.Status.{Status};
ghost use Rattle.vs_command.specs.Causes.{
  AnswersRules,
  HasRead,
  IsBindingFault,
  IsDue,
  IsOutside,
  IsOwed,
  LogAsksFor,
  RefusesRules,
  RulesAskFor,
  ShardAsksFor,
  refusal_status,
};
ghost use Rattle.vs_command.specs.Laws.{Laws};
ghost use Rattle.vs_command.specs.Outside.{GoesOn, KeepsName, KeepsUnasked};
ghost use Rattle.vs_command.specs.Requests.{
  HasPatternIn,
  IsFaultOf,
  IsOfInput,
  IsWithinFrame,
  LacksPatterns,
};
ghost use Rattle.vs_command.specs.Stages.{IsBrought, IsBroughtBy, IsBroughtOn, stage};
ghost use Rattle.vs_command.specs.Streaming.{Filtered, Headline, IsOfStream, Outcome};

use crate::fetch::{FetchEnd, fetch_log};
use crate::fetched::FetchedShard;
use crate::options::Options;
use crate::request::{Asked, RequestEnd, read_request};
use crate::status::{RequestFault, Status};
use crate::streaming::stream_log;
use std::alloc::Global;
use std::sync::Wait;
use vs_filter::{Filter, FilterRefusal};
use vs_frame::law_front;
use vs_log::{law_distinct, law_places};
use vs_model::{law_due, law_frames, law_steps};
use vs_outside::{Clock, Sink, Source, Tablets};
use vs_render::law_bodies;
use vs_request::law_requests;
use vs_rows::Maps;

/// The laws of the crates below, on which the headline and the causes of answers stand.
fn laws()
    ensures { Laws }
{
    law_steps();
    law_frames();
    law_due();
    law_distinct::<Maps>();
    law_places::<Maps>();
    law_front();
    law_requests();
    law_bodies();
}

/// Streams a shard of the tablets by the filter of its rules, from a start to the end of its log.
fn stream_shard<R: Wait, O: Sink, T: Tablets>(
    rt: &R,
    alloc: Global,
    asked: Asked,
    filter: &Filter,
    output: &mut O,
    tablets: &mut T,
) -> Status
    requires { map meant_as filter.now.rules ≡ map meant_by asked.rules }
    ensures answers { IfSome (T.cluster tablets.old) (λ c. Writes (O.sent output.old) (O.sent output.new) (Outcome c asked.name asked.start asked.rules (Rose (T.waits tablets.old asked.name) (T.waits tablets.new asked.name)) result)) }
    ensures due { IfSome (T.cluster tablets.old) (λ c. IsBroughtOn (find_shard c asked.name) asked.name asked.start (map meant_by asked.rules) result ⊎ ShardAsksFor LogAsksFor (find_shard c asked.name) asked.name asked.start (map meant_by asked.rules) result) }
    ensures kind { IsOfStream result }
    ensures rules { (fault : RequestFault) → result ≡ Status.Request fault → IsBindingFault fault }
    ensures patterns { T.pattern_faults tablets.new ≡ T.pattern_faults tablets.old }
    ensures link { result ≡ Status.LinkFault → Rose (O.faults output.old) (O.faults output.new) }
    ensures feed { (n : ShardName) → result ≡ Status.FeedFault n → Rose (T.faults tablets.old n) (T.faults tablets.new n) }
    ensures opening { (n : ShardName) → result ≡ Status.OpenFault n → Rose (T.open_faults tablets.old n) (T.open_faults tablets.new n) }
    ensures goes_on { GoesOn T.cluster T.faults T.waits T.open_faults T.list_faults T.sound tablets.old tablets.new }
    ensures gives_back { GivesAllBack (T.opened tablets.old) (T.returned tablets.old) (T.opened tablets.new) (T.returned tablets.new) }
    ensures folder { T.folder tablets.new ≡ T.folder tablets.old }
    ensures others { (n : ShardName) → same_name asked.name n ≡ false → KeepsName T.faults T.waits T.open_faults tablets.old tablets.new n }
    ensures sent { Writes (O.sent output.old) (O.sent output.new) (λ written. Unit {0}) }
    ensures output_later { O.faults output.old ≤ O.faults output.new }
{
    laws();
    let Asked { name, start, .. } = asked;
    match fetch_log(rt, alloc, tablets, &name, filter) {
        Ok(Some(shard)) => {
            let FetchedShard { log, bound } = shard;
            stream_log(alloc, output, name, start, &bound, log)
        }
        Ok(None) => Status::UnknownShard { name },
        Err(FetchEnd::Memory) => Status::Memory,
        Err(FetchEnd::BadSchema { line }) => Status::BadSchema { name, line },
        Err(FetchEnd::Refused(fault)) => Status::Request(fault),
        Err(FetchEnd::OpenFault) => Status::OpenFault { name },
        Err(FetchEnd::FeedFault) => Status::FeedFault { name },
    }
}

/// A refusal of rules, as the end that it is.
fn refused(refusal: FilterRefusal) -> Status
    ensures { result ≡ refusal_status refusal }
{
    let fault = match refusal {
        FilterRefusal::BadPattern { index } => RequestFault::BadPattern { index },
        FilterRefusal::PatternRefused { index } => RequestFault::PatternRefused { index },
        FilterRefusal::BadRule { index, at } => RequestFault::BadRule { index, at },
        FilterRefusal::Unbound { index, why } => RequestFault::Unbound { index, why },
        FilterRefusal::Memory => return Status::Memory,
    };
    Status::Request(fault)
}

/// Builds the filter of the rules that were asked for, and streams the shard by it.
fn stream_asked<R: Wait, O: Sink, T: Tablets>(
    rt: &R,
    alloc: Global,
    asked: Asked,
    output: &mut O,
    tablets: &mut T,
) -> Status
    ensures answers { IfSome (T.cluster tablets.old) (λ c. Writes (O.sent output.old) (O.sent output.new) (Filtered c asked.name asked.start asked.rules (Rose (T.waits tablets.old asked.name) (T.waits tablets.new asked.name)) result)) }
    ensures due { IfSome (T.cluster tablets.old) (λ c. IsBroughtBy (find_shard c asked.name) asked.name asked.start asked.rules result ⊎ RulesAskFor (find_shard c asked.name) asked.name asked.start asked.rules result) }
    ensures kind { IsOfStream result }
    ensures rules { (fault : RequestFault) → result ≡ Status.Request fault → RefusesRules asked.rules (T.pattern_faults tablets.old) (T.pattern_faults tablets.new) fault }
    ensures said { AnswersRules asked.rules result }
    ensures quiet { HasNoPattern asked.rules → T.pattern_faults tablets.new ≡ T.pattern_faults tablets.old }
    ensures patterns_later { T.pattern_faults tablets.old ≤ T.pattern_faults tablets.new }
    ensures link { result ≡ Status.LinkFault → Rose (O.faults output.old) (O.faults output.new) }
    ensures feed { (n : ShardName) → result ≡ Status.FeedFault n → Rose (T.faults tablets.old n) (T.faults tablets.new n) }
    ensures opening { (n : ShardName) → result ≡ Status.OpenFault n → Rose (T.open_faults tablets.old n) (T.open_faults tablets.new n) }
    ensures goes_on { GoesOn T.cluster T.faults T.waits T.open_faults T.list_faults T.sound tablets.old tablets.new }
    ensures gives_back { GivesAllBack (T.opened tablets.old) (T.returned tablets.old) (T.opened tablets.new) (T.returned tablets.new) }
    ensures folder { T.folder tablets.new ≡ T.folder tablets.old }
    ensures others { (n : ShardName) → same_name asked.name n ≡ false → KeepsName T.faults T.waits T.open_faults tablets.old tablets.new n }
    ensures unlawful { (n : ShardName) → first_fault asked.rules ≢ None → KeepsName T.faults T.waits T.open_faults tablets.old tablets.new n }
    ensures sent { Writes (O.sent output.old) (O.sent output.new) (λ written. Unit {0}) }
    ensures output_later { O.faults output.old ≤ O.faults output.new }
{
    match Filter::build(alloc, asked.rules.as_slice(), tablets) {
        Ok(filter) => stream_shard(rt, alloc, asked, &filter, output, tablets),
        Err(refusal) => refused(refusal),
    }
}

/// Reads one request frame, and writes a frame for each transaction of the shard that its position
/// lacks. Nothing behind the request is used. A log's end ends the stream, whatever the options say,
/// and one shard needs no queue.
pub fn connection<R: Wait, I: Source, O: Sink, T: Tablets, C: Clock>(
    rt: &R,
    alloc: Global,
    options: Options,
    input: &mut I,
    output: &mut O,
    tablets: &mut T,
    _clock: &mut C,
) -> Status
    requires low { 1 ≤ options.capacity }
    requires high { options.capacity ≤ 16 }
    ensures headline { IfSome (T.cluster tablets.old) (λ c. IfSome (I.left input.old) (λ bytes. Writes (O.sent output.old) (O.sent output.new) (Headline c (λ n. Rose (T.waits tablets.old n) (T.waits tablets.new n)) bytes result))) }

    // when each answer comes
    ensures due { IfSome (T.cluster tablets.old) (λ c. IfSome (I.left input.old) (λ bytes. IsBrought c bytes result ⊎ IsDue c bytes result)) }
    ensures only { (status : Status) → IfSome (T.cluster tablets.old) (λ c. IfSome (I.left input.old) (λ bytes. IsOwed c bytes status → IsOutside result ⊎ (result ≡ status))) }
    ensures stage { (status : Status) → IfSome (T.cluster tablets.old) (λ c. IfSome (I.left input.old) (λ bytes. IsDue c bytes status → stage result ≤ stage status)) }
    ensures request { (fault : RequestFault) → result ≡ Status.Request fault → IsOfInput fault → IfSome (I.left input.old) (λ bytes. IsFaultOf bytes fault) }
    ensures request_when { (fault : RequestFault) → IfSome (I.left input.old) (λ bytes. IsFaultOf bytes fault → IsOutside result ⊎ (result ≡ Status.Request fault)) }
    ensures refused_pattern { (index : ℕ) → result ≡ Status.Request (RequestFault.PatternRefused index) → IfSome (I.left input.old) (λ bytes. HasPatternIn bytes index) }
    ensures pattern { (index : ℕ) → result ≡ Status.Request (RequestFault.PatternRefused index) → Rose (T.pattern_faults tablets.old) (T.pattern_faults tablets.new) }
    ensures patterns { IfSome (I.left input.old) (λ bytes. LacksPatterns bytes → T.pattern_faults tablets.new ≡ T.pattern_faults tablets.old) }
    ensures words { result ≡ Status.Usage → ⊥ }
    ensures taken { HasRead (I.left input.old) (I.left input.new) result }
    ensures link { result ≡ Status.LinkFault → Rose (O.faults output.old) (O.faults output.new) }
    ensures input { result ≡ Status.InputFault → Rose (I.faults input.old) (I.faults input.new) }
    ensures feed { (name : ShardName) → result ≡ Status.FeedFault name → Rose (T.faults tablets.old name) (T.faults tablets.new name) }
    ensures opening { (name : ShardName) → result ≡ Status.OpenFault name → Rose (T.open_faults tablets.old name) (T.open_faults tablets.new name) }

    // what stays, whatever the answer
    ensures within { Takes (I.left input.old) (I.left input.new) IsWithinFrame }
    ensures sent { Writes (O.sent output.old) (O.sent output.new) (λ written. Unit {0}) }
    ensures input_later { I.faults input.old ≤ I.faults input.new }
    ensures output_later { O.faults output.old ≤ O.faults output.new }
    ensures patterns_later { T.pattern_faults tablets.old ≤ T.pattern_faults tablets.new }
    ensures goes_on { GoesOn T.cluster T.faults T.waits T.open_faults T.list_faults T.sound tablets.old tablets.new }
    ensures gives_back { GivesAllBack (T.opened tablets.old) (T.returned tablets.old) (T.opened tablets.new) (T.returned tablets.new) }
    ensures folder { T.folder tablets.new ≡ T.folder tablets.old }
    ensures others { IfSome (I.left input.old) (KeepsUnasked T.faults T.waits T.open_faults tablets.old tablets.new) }
    ensures clock { _clock.new ≡ _clock.old }
{
    laws();
    match read_request(alloc, input) {
        Ok(asked) => stream_asked(rt, alloc, asked, output, tablets),
        Err(RequestEnd::Memory) => Status::Memory,
        Err(RequestEnd::InputFault) => Status::InputFault,
        Err(RequestEnd::Fault(fault)) => Status::Request(fault),
    }
}
