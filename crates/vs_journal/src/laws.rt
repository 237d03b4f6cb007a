//! What journals keep to, as contracts of functions that do nothing.
ghost use Rattle.vs_gtid.specs.declared.journal.JournalValue.{JournalValue};
ghost use Rattle.vs_journal.specs.Journals.{HasFewNames, JournalsAreValues, StandOnce, participant_names, successor_names};
ghost use Rattle.vs_journal.specs.Names.{JudgementsAreNames};
ghost use Rattle.vs_journal.specs.Productions.{JournalsAreProductions};
ghost use Rattle.vs_journal.specs.Written.{WrittenIsRead};

/// A journal names each participant, and each successor, at one place alone.
pub fn law_names()
    ensures participants { (j : JournalValue) → StandOnce (participant_names j) }
    ensures successors { (j : JournalValue) → StandOnce (successor_names j) }
{}

/// A journal has at most 64 participants, and at most 64 successors.
pub fn law_few_names()
    ensures { (j : JournalValue) → HasFewNames j }
{}

/// Each journal that a text says can be had as a value, and each value is of one journal.
pub fn law_values()
    ensures { JournalsAreValues }
{}

/// A text is read as a journal exactly where the productions say that it is one, byte by byte, and is
/// refused at the first place from which no journal goes on.
pub fn law_journal_texts()
    ensures { JournalsAreProductions }
{}

/// The names of a journal are those that its text says, ascending, each once; where one is unlawful,
/// comes twice or is one too many, there is no journal.
pub fn law_judgements()
    ensures { JudgementsAreNames }
{}

/// What `write_text` writes of a journal that some text says is read as an equal journal.
pub fn law_written()
    ensures { WrittenIsRead }
{}
