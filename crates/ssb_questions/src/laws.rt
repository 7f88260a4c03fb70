//! Laws of star questions, over the definitions in `specs/`.
//!
//! Each is the contract of a function that does nothing.
ghost use Rattle.ssb_questions.specs.Laws.{ClausesArePlain, ClausesAreSpelled};

/// The constants that `star` takes are texts that a table file can hold as they are.
pub fn clauses_are_plain()
    ensures { ClausesArePlain }
{}

/// Clauses within the bounds, each where it may stand, are spelled by constants that `star` takes; so is their plan.
pub fn clauses_are_spelled()
    ensures { ClausesAreSpelled }
{}
