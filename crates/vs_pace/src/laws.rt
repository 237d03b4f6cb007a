//! What holds of every choice.
ghost use Rattle.vs_pace.specs.Heads.{IsOneChoice, OneMore};

/// There is one next head at most.
pub fn law_choice()
    ensures { IsOneChoice }
{}

/// What one more head does to a choice.
pub(crate) fn steps()
    ensures { OneMore }
{}
