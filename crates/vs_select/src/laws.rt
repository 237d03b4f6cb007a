//! What selects keep to, as contracts of functions that do nothing.
ghost use Rattle.vs_select.specs.Productions.{SelectsAreProductions};

/// A text is read as a select exactly where the productions say that it is one, and is refused at the
/// first place from which no select goes on.
pub fn law_selects()
    ensures { SelectsAreProductions }
{}
