ghost use Rattle.std.specs.Prelude.{◌≡◌, ◌≤◌, Err, IfOk, OnOk};
ghost use Rattle.regex.specs.Bytes.{IsReadFromSource, regex_config, regex_source};
ghost use Rattle.vs_outside.specs.Counts.{Rose};
ghost use Rattle.vs_outside.specs.Patterns.{IsNoPattern, IsPattern, byte_config};
ghost use Rattle.vs_outside.specs.declared.built_patterns.PatternEnd.TheVariants.{Refused, Syntax};

use regex::Error;
use regex::bytes::Regex;
use std::alloc::Global;
use std::str;

/// Why there is no pattern.
#[derive(Debug, Clone, Copy, PartialEq, Eq)]
pub enum PatternEnd {
    /// The text is no pattern, or is nested too deep.
    Syntax,
    /// The pattern was refused for another reason, as its size.
    Refused,
    Memory,
}

/// Builds patterns, and counts the refusals that have no cause in the grammar.
#[derive(Debug, Drop)]
pub struct BuiltPatterns {
    pub refused: u64,
}

impl BuiltPatterns {
    pub fn new() -> BuiltPatterns
        ensures { result.refused ≡ 0 }
    {
        BuiltPatterns { refused: 0 }
    }

    /// The pattern of a text, over bytes.
    #[tactic(auto, using(crate::proofs::PatternLemmas::built_is_pattern, crate::proofs::PatternLemmas::read_is_pattern, crate::proofs::PatternLemmas::bytes_are_none))]
    pub fn pattern(&mut self, alloc: Global, text: &[u8]) -> Result<Regex, PatternEnd>
        ensures source { IfOk result (λ r. regex_source r ≡ text.now) }
        ensures read { IfOk result IsReadFromSource }
        ensures config { IfOk result (λ r. regex_config r ≡ byte_config) }
        ensures lawful { OnOk result (IsPattern text.now) }
        ensures syntax { result ≡ Err Syntax → IsNoPattern text.now }
        ensures refused { result ≡ Err Refused → IsPattern text.now × Rose self.old.refused self.new.refused }
        ensures later { self.old.refused ≤ self.new.refused }
        ensures kept { ¬ (result ≡ Err Refused) → self.new.refused ≡ self.old.refused }
    {
        let Ok(source) = str::from_utf8(text) else {
            return Err(PatternEnd::Syntax);
        };
        match Regex::new(alloc, source) {
            Ok(regex) => Ok(regex),
            Err(Error::Syntax(_)) => Err(PatternEnd::Syntax),
            Err(Error::OutOfMemory) => Err(PatternEnd::Memory),
            Err(Error::CompiledTooBig | Error::Internal) => {
                self.refused = self.refused.saturating_add(1);
                Err(PatternEnd::Refused)
            }
        }
    }
}
