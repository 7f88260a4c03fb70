//! What is true of statements, over the definitions in `specs/`.
//!
//! Each is the contract of a function that does nothing.
ghost use Rattle.ssb_statements.specs.Laws.{QuestionsAreOfStar, StatementsAreTheirQuestions};

/// The answers to a statement's questions, side by side, are the statement's rows.
pub fn statements_are_their_questions()
    ensures { StatementsAreTheirQuestions }
{}

/// The question of each of a statement's sums is one that `star` asks.
pub fn questions_are_of_star()
    ensures { QuestionsAreOfStar }
{}
