//! What every run of the protocol is, and what every world keeps.
ghost use Rattle.history_core.specs.Kept.{EachEventKeeps, EveryWorldKeeps};
ghost use Rattle.history_core.specs.Responses.{AnswersAreInOrder, AnswersAreOfOneMoment};
ghost use Rattle.history_core.specs.Runs.{EveryRunIsTrue};
ghost use Rattle.history_core.specs.TrueRun.{AnswersNeverGoBack};

/// Each run from an opening world is a true run, and leaves each client its own commits.
pub fn every_run_is_true()
    ensures { EveryRunIsTrue }
{}

/// The answers to one client never go back to fewer commits.
pub fn answers_never_go_back()
    ensures { AnswersNeverGoBack }
{}

/// The answers to one request are of one moment: all that have rows are after the same number of commits.
pub fn answers_are_of_one_moment()
    ensures { AnswersAreOfOneMoment }
{}

/// A request is answered question by question, in order, each as if it had been alone.
pub fn answers_are_in_order()
    ensures { AnswersAreInOrder }
{}

/// What a world keeps, each event keeps.
pub fn each_event_keeps()
    ensures { EachEventKeeps }
{}

/// Every world that events lead to from an opening one has a legal history, of which all that was seen is a beginning;
/// floors are no more than the marks that answer them, and answers are right.
pub fn every_world_keeps()
    ensures { EveryWorldKeeps }
{}
