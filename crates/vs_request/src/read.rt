ghost use Rattle.std.specs.Prelude.{◌≡◌, ◌⊎◌, ◌≤◌, ◌<◌, IfOk, MatchResult, Result, length, map};
ghost use Rattle.vs_request.specs.declared.refusal.RequestRefusal.{RequestRefusal};
ghost use Rattle.vs_request.specs.declared.request.Request.{Request};
ghost use Rattle.vs_request.specs.Entries.{AskFor, IsFaultIn};
ghost use Rattle.vs_request.specs.Requests.{
  IsFirstFault,
  IsLawful,
  Means,
  Says,
  entries_in,
  flags_in,
  rule_text,
  rules_in,
};

use crate::entry::read_entries;
use crate::{Flags, Request, RequestRefusal, Wanted};
use std::alloc::Global;
use vs_base::{List, RuleText};
use vs_proto::{Filter, VGtid, VStreamRequest};

/// How many shards a request may name.
const MOST_SHARDS: usize = 64;

/// How many rules it may have.
const MOST_RULES: usize = 256;

/// Reads the message of a client. Of several faults the first counts: the bytes are no message;
/// there is no entry, or there are too many; then entry by entry its names, its position, a set
/// without a shard, its last keys; then the rules.
pub fn read_request(alloc: Global, bytes: &[u8]) -> Result<Request, RequestRefusal>
    ensures says { (result ≡ Err RequestRefusal.Memory) ⊎ Says bytes.now result }
    ensures only { (r : Result Request RequestRefusal) → Says bytes.now r → (result ≡ Err RequestRefusal.Memory) ⊎ (result ≡ r) }
    ensures lawful { IfOk result (λ asked. IsLawful asked) }
{
    let message = vs_proto::read_request(alloc, bytes)?;
    request_of(alloc, message)
}

/// What a message asks for.
fn request_of(alloc: Global, message: VStreamRequest) -> Result<Request, RequestRefusal>
    ensures { MatchResult result (λ request. Means message request) (λ e. (e ≡ RequestRefusal.Memory) ⊎ IsFirstFault message e) }
{
    let VStreamRequest {
        vgtid,
        filter,
        flags,
    } = message;
    let entries = wanted_of(alloc, &vgtid)?;
    let rules = rules_of(alloc, filter)?;
    Ok(Request {
        entries,
        rules,
        flags: flags_of(flags),
    })
}

fn flags_of(flags: Option<vs_proto::Flags>) -> Flags
    ensures { result ≡ flags_in flags }
{
    match flags {
        Some(flags) => Flags {
            max_skew: flags.max_skew,
            heartbeat_interval: flags.heartbeat_interval,
            stop_on_reshard: flags.stop_on_reshard,
            include_journals: flags.include_journals,
        },
        None => Flags {
            max_skew: 0,
            heartbeat_interval: 0,
            stop_on_reshard: false,
            include_journals: false,
        },
    }
}

/// What the entries of a position vector ask for.
fn wanted_of(alloc: Global, vgtid: &Option<VGtid>) -> Result<List<Wanted>, RequestRefusal>
    ensures { MatchResult result (λ wanted. AskFor (entries_in vgtid.now) wanted) (λ e. (e ≡ RequestRefusal.Memory) ⊎ IsFaultIn (entries_in vgtid.now) e) }
{
    let Some(vgtid) = vgtid else {
        return Err(RequestRefusal::NoShards);
    };
    let entries = vgtid.shard_gtids.as_slice();
    let n = entries.len();
    if n == 0 {
        return Err(RequestRefusal::NoShards);
    }
    if n > MOST_SHARDS {
        return Err(RequestRefusal::TooManyShards { n });
    }
    Ok(List::from_vec(read_entries(alloc, entries)?))
}

/// The texts of the rules.
fn rules_of(alloc: Global, filter: Option<Filter>) -> Result<List<RuleText>, RequestRefusal>
    ensures { MatchResult result (λ rules. (rules ≡ map rule_text (rules_in filter)) × (length (rules_in filter) ≤ MOST_RULES)) (λ e. (e ≡ RequestRefusal.Memory) ⊎ ((e ≡ RequestRefusal.TooManyRules (length (rules_in filter))) × (MOST_RULES < length (rules_in filter)))) }
{
    let Some(filter) = filter else {
        return Ok(List::new(alloc));
    };
    let rules = filter.rules.into_vec();
    let n = rules.len();
    if n > MOST_RULES {
        return Err(RequestRefusal::TooManyRules { n });
    }
    let rules = rules
        .into_iter()
        .map(|rule| RuleText {
            pattern: rule.pattern,
            filter: rule.filter,
        })
        .collect(alloc)?;
    Ok(List::from_vec(rules))
}
