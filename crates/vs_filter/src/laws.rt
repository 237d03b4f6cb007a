ghost use Rattle.vs_filter.specs.Laws.{ChangesArePicked, KeysAreOrdered, KeysStay, RowsAreOfPicked};

/// A change is picked as the rows of a copy are, and only of a picked table.
pub fn law_changes()
    ensures picked { ChangesArePicked }
    ensures of_picked { RowsAreOfPicked }
{}

/// The keys of a table are in one total order, and a client can tell the key of a row from what is picked of it.
pub fn law_keys()
    ensures ordered { KeysAreOrdered }
    ensures stay { KeysStay }
{}
