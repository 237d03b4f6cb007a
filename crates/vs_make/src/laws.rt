//! What written logs mean, as contracts of functions that do nothing.
ghost use Rattle.vs_make.specs.Journals.{WritesJournals};
ghost use Rattle.vs_make.specs.Rows.{WritesTransactions};
ghost use Rattle.vs_make.specs.Written.{WritesBases, WritesStatements};

/// A statement that is written behind a whole log is read as its next entry, and nothing else is.
pub fn law_statements()
    ensures { WritesStatements }
{}

/// A log that is begun has its base, no entry and no fault.
pub fn law_bases()
    ensures { WritesBases }
{}

/// A transaction of rows that is written behind a whole log is read as its next entry, and nothing
/// else is.
pub fn law_transactions()
    ensures { WritesTransactions }
{}

/// A journal that is written behind a whole log, for shards of its keyspace, is read as its next
/// entry, and nothing else is.
pub fn law_journals()
    ensures { WritesJournals }
{}
