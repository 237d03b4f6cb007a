ghost use Rattle.std.specs.Prelude.{
  ◌≡◌,
  ◌≢◌,
  ◌≤◌,
  ◌<◌,
  ℕ,
  [],
  Ok,
  Err,
  IfErr,
  IfOk,
  IfSome,
  MatchOption,
  length,
};
ghost use Rattle.std.specs.List.{AllByRecursion};
ghost use Rattle.vs_base.specs.Names.{FitsName};
ghost use Rattle.vs_outside.specs.Counts.{Rose};
ghost use Rattle.vs_outside.specs.Told.{Takes};
ghost use Rattle.vs_base.specs.Frames.{framed};
ghost use Rattle.vs_frame.specs.Frames.{IsWithinLimit};
ghost use Rattle.vs_request.specs.Requests.{Says};
ghost use Rattle.vs_request.specs.declared.request.Request.{Request};
ghost use Rattle.vs_command.specs.declared.status.RequestFault.{RequestFault};
ghost use Rattle.vs_command.specs.Requests.{
  AsksBy,
  HasEnded,
  HasTaken,
  IsFaultOf,
  IsFaultOfMessage,
  IsRequestFrame,
  IsNotBuilt,
  IsPlain,
  IsUnbuilt,
  IsWithinFrame,
  SaysLength,
  TakesOf,
  end_of,
  entry_of,
  has_no_flags,
  rules_or_any,
};

use crate::start::Start;
use crate::status::RequestFault;
use std::alloc::Global;
use vs_base::{List, OutOfMemory, RuleText, ShardName, Text};
use vs_frame::LIMIT;
use vs_outside::{Failed, Source};
use vs_request::{Flags, Request, RequestRefusal, StartAt, Wanted};

/// Why no request was read.
#[derive(Debug, Drop)]
pub enum RequestEnd {
    Memory,
    /// A read of the input failed.
    InputFault,
    Fault(RequestFault),
}

/// What a request asks for.
#[derive(Debug, Drop)]
pub struct Asked {
    pub name: ShardName,
    pub start: Start,
    /// by which rules
    pub rules: List<RuleText>,
}

/// How many bytes a read asks for, at most.
const READ_SIZE: usize = 65536;

/// Takes so many bytes, or all that are left where they are fewer.
fn take_bytes<I: Source>(alloc: Global, input: &mut I, count: usize) -> Result<Vec<u8>, RequestEnd>
    ensures took { IfOk result (λ v. TakesOf (I.left input.old) (I.left input.new) (λ taken rest. (taken ≡ v.items) × (length taken < count → rest ≡ []))) }
    ensures most { IfOk result (λ v. length v.items ≤ count) }
    ensures within { Takes (I.left input.old) (I.left input.new) (λ taken. length taken ≤ count) }
    ensures kind { (fault : RequestFault) → result ≡ Err (RequestEnd.Fault fault) → ⊥ }
    ensures later { I.faults input.old ≤ I.faults input.new }
    ensures failed { result ≡ Err RequestEnd.InputFault → Rose (I.faults input.old) (I.faults input.new) }
{
    let mut buf = [0u8; READ_SIZE];
    let mut bytes = Vec::new(alloc);
    while bytes.len() < count {
        let wanted = (count - bytes.len()).min(READ_SIZE);
        match input.read(&mut buf[..wanted]) {
            Ok(0) => return Ok(bytes),
            Ok(n) => {
                if bytes.extend_from_slice(&buf[..n]).is_err() {
                    return Err(RequestEnd::Memory);
                }
            }
            Err(Failed) => return Err(RequestEnd::InputFault),
        }
    }
    Ok(bytes)
}

/// The length that the first four bytes say, where there are four.
fn length_in(head: &[u8]) -> Option<u32>
    ensures { MatchOption result (length head.now < 4) (λ n. SaysLength head.now n) }
{
    let (first, _) = head.split_first_chunk::<4>()?;
    Some(u32::from_be_bytes(*first))
}

/// Takes the frame at the front of the input, and gives its message. No byte behind it is asked for,
/// and of a frame that is too long none behind its length.
fn read_frame<I: Source>(alloc: Global, input: &mut I) -> Result<Vec<u8>, RequestEnd>
    ensures frame { IfOk result (λ m. TakesOf (I.left input.old) (I.left input.new) (λ taken rest. (taken ≡ framed m.items) × IsWithinLimit m.items)) }
    ensures fault { (fault : RequestFault) → result ≡ Err (RequestEnd.Fault fault) → TakesOf (I.left input.old) (I.left input.new) (HasEnded fault) }
    ensures no_pattern { (index : ℕ) → result ≡ Err (RequestEnd.Fault (RequestFault.PatternRefused index)) → ⊥ }
    ensures within { Takes (I.left input.old) (I.left input.new) IsWithinFrame }
    ensures later { I.faults input.old ≤ I.faults input.new }
    ensures failed { result ≡ Err RequestEnd.InputFault → Rose (I.faults input.old) (I.faults input.new) }
{
    let head = take_bytes(alloc, input, 4)?;
    let Some(length) = length_in(&head) else {
        let held = head.len();
        return Err(RequestEnd::Fault(RequestFault::Cut { held }));
    };
    if length > LIMIT {
        return Err(RequestEnd::Fault(RequestFault::TooLong { length }));
    }
    let message = take_bytes(alloc, input, length as usize)?;
    if message.len() < length as usize {
        let held = 4 + message.len();
        return Err(RequestEnd::Fault(RequestFault::Cut { held }));
    }
    Ok(message)
}

/// Whether no flag is set.
fn has_no_flags(flags: &Flags) -> bool
    ensures { result ≡ has_no_flags flags.now }
{
    flags.max_skew == 0
        && flags.heartbeat_interval == 0
        && !flags.stop_on_reshard
        && !flags.include_journals
}

/// What the entry asks for, where that is one shard, from a position or from its log's end.
fn asked_by(wanted: Wanted, rules: List<RuleText>) -> Option<Asked>
    requires { FitsName wanted.keyspace wanted.shard }
    ensures { MatchOption result (IsUnbuilt wanted) (λ asked. (wanted ≡ entry_of asked.name asked.start) × (asked.name.shard ≢ []) × (asked.rules ≡ rules)) }
{
    let Wanted {
        keyspace,
        shard,
        start,
        last_key,
    } = wanted;
    if last_key.is_some() {
        return None;
    }
    if shard.as_bytes().is_empty() {
        return None;
    }
    let start = match start {
        StartAt::Fresh => return None,
        StartAt::Current => Start::Current,
        StartAt::At(set) => Start::At(set),
    };
    match ShardName::new(keyspace, shard) {
        Some(name) => Some(Asked { name, start, rules }),
        None => unreachable!(),
    }
}

/// What the request asks for, where this release does it, by the rules that it has.
fn asked_of(request: Request) -> Result<Asked, RequestFault>
    requires some { 1 ≤ length request.entries }
    requires names { AllByRecursion (λ w. FitsName w.keyspace w.shard) request.entries }
    ensures asks { IfOk result (λ asked. IsPlain request asked.name asked.start (rules_or_any asked.rules)) }
    ensures not_built { IfErr result (λ fault. (index : ℕ) × (fault ≡ RequestFault.NotBuilt index) × IsNotBuilt request index) }
{
    let Request {
        entries,
        rules,
        flags,
    } = request;
    let mut entries = entries.into_vec();
    if entries.len() > 1 {
        return Err(RequestFault::NotBuilt { index: 1 });
    }
    if !has_no_flags(&flags) {
        return Err(RequestFault::NotBuilt { index: 0 });
    }
    let Some(wanted) = entries.pop() else {
        unreachable!();
    };
    match asked_by(wanted, rules) {
        Some(asked) => Ok(asked),
        None => Err(RequestFault::NotBuilt { index: 0 }),
    }
}

/// The rule of a request without rules, which takes all rows of all tables.
fn any_rule(alloc: Global) -> Result<List<RuleText>, OutOfMemory>
    ensures { IfOk result (λ rules. rules ≡ rules_or_any []) }
{
    let mut rules = List::new(alloc);
    rules.push(RuleText {
        pattern: Text::from_bytes(alloc, b"/.*")?,
        filter: Text::new(alloc),
    })?;
    Ok(rules)
}

/// The rules by which rows are taken.
fn rules_or_any(alloc: Global, rules: List<RuleText>) -> Result<List<RuleText>, OutOfMemory>
    ensures { IfOk result (λ taken. taken ≡ rules_or_any rules) }
{
    if rules.as_slice().is_empty() {
        any_rule(alloc)
    } else {
        Ok(rules)
    }
}

/// What is asked for, with the rule of a request without rules.
fn with_rules(alloc: Global, asked: Asked) -> Result<Asked, OutOfMemory>
    ensures { IfOk result (λ whole. (whole.name ≡ asked.name) × (whole.start ≡ asked.start) × (whole.rules ≡ rules_or_any asked.rules)) }
{
    let Asked { name, start, rules } = asked;
    Ok(Asked {
        name,
        start,
        rules: rules_or_any(alloc, rules)?,
    })
}

/// A refusal of the message, as the fault of the request that it is.
fn refused(refusal: RequestRefusal) -> RequestEnd
    ensures { result ≡ end_of refusal }
{
    let fault = match refusal {
        RequestRefusal::Memory => return RequestEnd::Memory,
        RequestRefusal::Message(why) => RequestFault::Message(why),
        RequestRefusal::NoShards => RequestFault::NoShards,
        RequestRefusal::TooManyShards { n } => RequestFault::TooManyShards { n },
        RequestRefusal::BadName { index } => RequestFault::BadName { index },
        RequestRefusal::BadPosition { index, at } => RequestFault::BadPosition { index, at },
        RequestRefusal::NeedsShard { index } => RequestFault::NeedsShard { index },
        RequestRefusal::TooManyKeys { index } => RequestFault::TooManyKeys { index },
        RequestRefusal::LongKey { index } => RequestFault::LongKey { index },
        RequestRefusal::TooManyRules { n } => RequestFault::TooManyRules { n },
    };
    RequestEnd::Fault(fault)
}

/// What the message of a request asks for.
fn read_message(alloc: Global, message: &[u8]) -> Result<Asked, RequestEnd>
    ensures asks { IfOk result (λ asked. (request : Request) × Says message.now (Ok request) × IsPlain request asked.name asked.start asked.rules) }
    ensures fault { (fault : RequestFault) → result ≡ Err (RequestEnd.Fault fault) → IsFaultOfMessage message.now fault }
    ensures kind { result ≡ Err RequestEnd.InputFault → ⊥ }
{
    match vs_request::read_request(alloc, message) {
        Ok(request) => match asked_of(request) {
            Ok(asked) => match with_rules(alloc, asked) {
                Ok(whole) => Ok(whole),
                Err(_) => Err(RequestEnd::Memory),
            },
            Err(fault) => Err(RequestEnd::Fault(fault)),
        },
        Err(refusal) => Err(refused(refusal)),
    }
}

/// Reads the frame at the front of the input, and what its message asks for.
pub fn read_request<I: Source>(alloc: Global, input: &mut I) -> Result<Asked, RequestEnd>
    ensures asks { IfOk result (λ asked. IfSome (I.left input.old) (λ bytes. AsksBy bytes asked.name asked.start asked.rules)) }
    ensures took { IfOk result (λ _. TakesOf (I.left input.old) (I.left input.new) (λ taken rest. IsRequestFrame taken)) }
    ensures fault { (fault : RequestFault) → result ≡ Err (RequestEnd.Fault fault) → IfSome (I.left input.old) (λ bytes. IsFaultOf bytes fault) }
    ensures no_pattern { (index : ℕ) → result ≡ Err (RequestEnd.Fault (RequestFault.PatternRefused index)) → ⊥ }
    ensures took_of_fault { (fault : RequestFault) → result ≡ Err (RequestEnd.Fault fault) → TakesOf (I.left input.old) (I.left input.new) (HasTaken fault) }
    ensures within { Takes (I.left input.old) (I.left input.new) IsWithinFrame }
    ensures later { I.faults input.old ≤ I.faults input.new }
    ensures failed { result ≡ Err RequestEnd.InputFault → Rose (I.faults input.old) (I.faults input.new) }
{
    let message = read_frame(alloc, input)?;
    read_message(alloc, &message)
}
