//! What schema texts keep to, as contracts of functions that do nothing.
ghost use Rattle.std.specs.Prelude.{◌≡◌, Err, List as Items, Ok, ℕ};
ghost use Rattle.vs_schema.specs.declared.refusal.SchemaRefusal.TheVariants.{BadSchema};
ghost use Rattle.vs_schema.specs.declared.schema.Schema.{Schema};
ghost use Rattle.vs_schema.specs.Laws.{IsFirstFault, IsLawful};
ghost use Rattle.vs_schema.specs.Lines.{lines_of};
ghost use Rattle.vs_schema.specs.Rules.{schema_of};

/// The tables of each schema that is read ascend by name, and each keeps the rules of tables.
#[tactic(auto, using(crate::proofs::Lawful::lawful))]
pub fn law_lawful()
    ensures { (text : Items ℕ) (schema : Schema) → schema_of text ≡ Ok schema → IsLawful schema }
{}

/// The line that a refusal names is the first at fault.
#[tactic(auto, using(crate::proofs::FaultLemmas::first_fault))]
pub fn law_faults()
    ensures { (text : Items ℕ) (line : ℕ) → schema_of text ≡ Err (BadSchema line) → IsFirstFault (lines_of text) line }
{}
