ghost use Rattle.vs_copy.specs.Laws.{ClientHasCopy, GoesOn, KeysAreTold, TellsAsBound};

/// Where each picked table has its key, what a copy tells of changes, and which rows it tells next, are those
/// of the filter that was bound; and that filter is one of which the law on a client's rows speaks.
pub fn law_bound()
    ensures tells { TellsAsBound }
    ensures keys { KeysAreTold }
{}

/// A client that applies to empty tables, in order, what was told of each change and the rows of each
/// chunk, has the picked rows up to the last row that was sent, and no others; where no picked row is
/// left it has all of them. Each call of a copy is a turn of such a run, and a copy that is resumed goes
/// on with the run of the one before it. The picked tables ascend by their names, and each change fits
/// the rows that the changes before it leave.
pub fn law_client()
    ensures client { ClientHasCopy }
    ensures resumed { GoesOn }
{}
