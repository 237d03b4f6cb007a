ghost use Rattle.std.specs.Prelude.{◌≡◌, ◌<◌, ◌≤◌, ℕ, List, All, Err, IfOk, OnOk};
ghost use Rattle.vs_outside.specs.Counts.{KeepsCounts, Rose};
ghost use Rattle.vs_outside.specs.Patterns.{IsNoPattern, IsPattern};
ghost use Rattle.vs_outside.specs.declared.built_patterns.PatternEnd.TheVariants.{Refused, Syntax};
ghost use Rattle.vs_filter.specs.Fits.{
  IsRegexMatch,
  before_slashes,
  begins_with_slash,
  behind_slashes,
  fits,
  fits_by,
  is_any,
  trimmed,
};

use regex::bytes::Regex;
use std::alloc::Global;
use vs_base::{OutOfMemory, Text};
use vs_outside::{PatternEnd, Tablets};

/// The text without the slashes in front.
fn without_front(text: &[u8]) -> &[u8]
    ensures { result.now ≡ behind_slashes text.now }
{
    let mut left = text;
    while let Some((first, rest)) = left.split_first() {
        if *first != b'/' {
            return left;
        }
        left = rest;
    }
    left
}

/// The text without the slashes at its end.
#[tactic(auto, using(crate::proofs::SlashLemmas::slash_at_end, crate::proofs::SlashLemmas::other_at_end))]
fn without_end(text: &[u8]) -> &[u8]
    ensures { result.now ≡ before_slashes text.now }
{
    let mut left = text;
    while let Some((last, rest)) = left.split_last() {
        if *last != b'/' {
            return left;
        }
        left = rest;
    }
    left
}

/// The text without the slashes at both ends.
fn trim(text: &[u8]) -> &[u8]
    ensures { result.now ≡ trimmed text.now }
{
    without_end(without_front(text))
}

/// Whether a match stands for a pattern.
pub(crate) fn begins_with_slash(text: &[u8]) -> bool
    ensures { result ≡ begins_with_slash text.now }
{
    match text.first() {
        Some(first) => *first == b'/',
        None => false,
    }
}

/// Whether the pattern fits every name by its text.
fn is_any(text: &[u8]) -> bool
    ensures { result ≡ is_any text.now }
{
    text == b".*".as_slice()
}

/// How a match is tried.
#[derive(Drop)]
pub enum Fitting {
    Name,
    Any,
    Found(Regex),
}

/// The match of a rule, ready to be tried on the names of tables.
#[derive(Drop)]
pub struct RuleMatch {
    pub text: Text,
    pub fitting: Fitting,
    ghost decides: { (name : List ℕ) → All (λ x. x < 256) name → fits_by fitting text name ≡ fits text name },
}

impl RuleMatch {
    /// Of the tablets it calls `pattern` alone.
    pub fn build<T: Tablets>(
        alloc: Global,
        text: &[u8],
        tablets: &mut T,
    ) -> Result<RuleMatch, PatternEnd>
        ensures text { IfOk result (λ m. m.text ≡ text.now) }
        ensures lawful { OnOk result (IsRegexMatch text.now → IsPattern (trimmed text.now)) }
        ensures syntax { result ≡ Err Syntax → IsRegexMatch text.now × IsNoPattern (trimmed text.now) }
        ensures refused { result ≡ Err Refused → IsRegexMatch text.now × IsPattern (trimmed text.now) × Rose (T.pattern_faults tablets.old) (T.pattern_faults tablets.new) }
        ensures kept { ¬ (result ≡ Err Refused) → T.pattern_faults tablets.new ≡ T.pattern_faults tablets.old }
        ensures later { T.pattern_faults tablets.old ≤ T.pattern_faults tablets.new }
        ensures cluster { T.cluster tablets.new ≡ T.cluster tablets.old }
        ensures opened { T.opened tablets.new ≡ T.opened tablets.old }
        ensures returned { KeepsCounts (T.returned tablets.old) (T.returned tablets.new) }
        ensures faults { KeepsCounts (T.faults tablets.old) (T.faults tablets.new) }
        ensures waits { KeepsCounts (T.waits tablets.old) (T.waits tablets.new) }
        ensures open_faults { KeepsCounts (T.open_faults tablets.old) (T.open_faults tablets.new) }
        ensures list_faults { T.list_faults tablets.new ≡ T.list_faults tablets.old }
        ensures folder { T.folder tablets.new ≡ T.folder tablets.old }
        ensures sound { T.sound tablets.new ≡ T.sound tablets.old }
    {
        let Ok(owned) = Text::from_bytes(alloc, text) else {
            return Err(PatternEnd::Memory);
        };
        if !begins_with_slash(text) {
            return Ok(RuleMatch {
                text: owned,
                fitting: Fitting::Name,
            });
        }
        let pattern = trim(text);
        if is_any(pattern) {
            return Ok(RuleMatch {
                text: owned,
                fitting: Fitting::Any,
            });
        }
        match tablets.pattern(alloc, pattern) {
            Ok(regex) => Ok(RuleMatch {
                text: owned,
                fitting: Fitting::Found(regex),
            }),
            Err(end) => Err(end),
        }
    }

    /// Whether the match fits the name of a table.
    pub fn fits(&self, alloc: Global, name: &[u8]) -> Result<bool, OutOfMemory>
        ensures { IfOk result (λ b. b ≡ fits self.now.text name.now) }
    {
        match &self.fitting {
            Fitting::Name => Ok(self.text.as_bytes() == name),
            Fitting::Any => Ok(true),
            Fitting::Found(regex) => {
                let mut matcher = regex.matcher(alloc)?;
                Ok(matcher.is_match(name))
            }
        }
    }
}
