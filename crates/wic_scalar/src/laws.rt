//! A law of the definitions that the contracts of sets cite. A call has no effect at run time.
ghost use Rattle.wic_scalar.specs.Laws.{ListsAndSetsAgree};

/// The ascending list that a walk gives has each member of the set once, and as many as there are; all are below the width.
pub fn law_members()
    ensures { ListsAndSetsAgree }
{}
