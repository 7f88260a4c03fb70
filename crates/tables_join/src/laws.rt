//! Joined histories: each law is the contract of a function that does nothing.
ghost use Rattle.tables_join.specs.Joined.{TablesJoin, LegalHistoriesJoin, TablesFollowCommits};

/// The tables after one history and then another are those after the two joined.
pub fn tables_join()
    ensures { TablesJoin }
{}

/// A history that is legal over the tables after a legal one is legal behind it, where the two are not too long.
pub fn legal_histories_join()
    ensures { LegalHistoriesJoin }
{}

/// The tables after a history are those after each of its commits in turn.
pub fn tables_follow_commits()
    ensures { TablesFollowCommits }
{}
