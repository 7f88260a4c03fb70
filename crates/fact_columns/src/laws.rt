//! What follows of columns that stand for a history: the contract of a function that does nothing.
ghost use Rattle.fact_columns.specs.Laws.{LiveFactsAreTheLines};

/// The live facts are the lines after any history that the columns stand for, rearranged.
pub fn live_facts_are_the_lines()
    ensures { LiveFactsAreTheLines }
{}
