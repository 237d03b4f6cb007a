ghost use Rattle.std.specs.Prelude.{◌≡◌, ◌∷◌, [], IfOk, MatchOption, OnOk, length};

use crate::token::Bracket;
use std::alloc::Global;
use std::marker::Model;
use vs_base::OutOfMemory;

/// The brackets that are open round a place, seen from the innermost to the outermost.
#[derive(Debug, Drop)]
pub struct Brackets {
    brackets: Vec<Bracket>,
}

impl Model for Brackets {
    ghost use Rattle.std.specs.Prelude.{List};
    ghost use Rattle.std.proofs.Common.{reverse};
    ghost use Rattle.vs_journal.specs.declared.token.Bracket.{Bracket};

    ghost Value = { List Bracket };

    ghost view = { λ b. reverse b.brackets.items };
}

impl Brackets {
    pub fn new(alloc: Global) -> Brackets
        ensures { result ≡ [] }
    {
        Brackets {
            brackets: Vec::new(alloc),
        }
    }

    pub fn len(&self) -> usize
        ensures { result ≡ length self.now }
    {
        self.brackets.len()
    }

    pub fn push(&mut self, bracket: Bracket) -> Result<(), OutOfMemory>
        ensures { OnOk result (self.new ≡ bracket ∷ self.old) }
    {
        self.brackets.push(bracket)?;
        Ok(())
    }

    /// Takes the innermost bracket away.
    pub fn pop(&mut self) -> Option<Bracket>
        ensures { MatchOption result ((self.old ≡ []) × (self.new ≡ [])) (λ b. self.old ≡ b ∷ self.new) }
    {
        self.brackets.pop()
    }
}
