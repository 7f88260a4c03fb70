//! What the plan of a star question means, as a law over the definitions in `specs/`.
//!
//! It is the contract of a function that does nothing.
ghost use Rattle.ssb_questions.specs.StarMeaning.{StarPlanMeans};

/// A line passes exactly where of each column with values one is the line's and each range holds; the measure, the group
/// columns and the order are those that the clauses spell.
pub fn star_plan_means()
    ensures { StarPlanMeans }
{}
