ghost use Rattle.std.specs.Prelude.{◌≡◌, Err, MatchOption, Ok, map, nat_eq};
ghost use Rattle.std.specs.Cmp.Lexicographic.{pointwise};
ghost use Rattle.vs_base.specs.declared.Why.TheVariants.{BadEvent};
ghost use Rattle.vs_binlog.specs.Words.{first_word, upper};
ghost use Rattle.vs_entries.specs.Queries.{is_ddl, said, statement_of, told_by};

use crate::kind::StatementKind;
use vs_binlog::{first_word, is_same_word, read_query};
use vs_rows::is_schema_of;

/// What a query says, and its text.
#[derive(Clone, Copy)]
pub struct Told<'a> {
    pub kind: StatementKind,
    pub text: &'a [u8],
}

/// What the body of a query event says in the log of a shard of the keyspace; none where it is against
/// its layout.
#[tactic(auto, unfolding(crate::specs::Queries::statement_of))]
pub fn read_statement<'a>(body: &'a [u8], keyspace: &[u8]) -> Option<Told<'a>>
    ensures { MatchOption result (statement_of keyspace.now body.now ≡ Err (BadEvent 2)) (λ t. statement_of keyspace.now body.now ≡ Ok (told_by t.kind t.text.now)) }
{
    match read_query(body) {
        Some(query) => Some(Told {
            kind: kind_of(query.schema, query.text, keyspace),
            text: query.text,
        }),
        None => None,
    }
}

/// What a statement under a default schema is in the log of a shard of the keyspace.
pub fn kind_of(schema: &[u8], text: &[u8], keyspace: &[u8]) -> StatementKind
    ensures { told_by result text.now ≡ said keyspace.now schema.now text.now (first_word text.now) }
{
    let word = first_word(text);
    if is_word(word, b"BEGIN") {
        return StatementKind::Begin;
    }
    if is_word(word, b"COMMIT") {
        return StatementKind::Commit;
    }
    if is_word(word, b"SAVEPOINT") {
        return StatementKind::Savepoint;
    }
    if is_word(word, b"XA") {
        return StatementKind::Xa;
    }
    if changes_schemas(word) && is_schema_of(schema, keyspace) {
        return StatementKind::Ddl;
    }
    StatementKind::Other
}

/// Whether the first word of a statement is one of those that change schemas.
#[tactic(auto, using(crate::proofs::WordLemmas::same_word_swapped))]
fn changes_schemas(word: &[u8]) -> bool
    ensures { result ≡ is_ddl (map upper word.now) }
{
    if is_word(word, b"CREATE") {
        return true;
    }
    if is_word(word, b"ALTER") {
        return true;
    }
    if is_word(word, b"DROP") {
        return true;
    }
    if is_word(word, b"TRUNCATE") {
        return true;
    }
    is_word(word, b"RENAME")
}

/// Whether the word is this one, in any case of its letters. A word of another length isn't looked at.
#[inline(always)]
fn is_word(word: &[u8], wanted: &[u8]) -> bool
    ensures { result ≡ pointwise nat_eq (map upper word.now) wanted.now }
{
    if word.len() != wanted.len() {
        return false;
    }
    is_same_word(word, wanted)
}
