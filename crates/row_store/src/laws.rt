//! What holds of every history and state: each law is the contract of a function that does nothing.
ghost use Rattle.row_store.specs.Laws.{BeginningsAreLegal, AcceptedStaysLegal, LegalHistoriesAreFew};
ghost use Rattle.row_store.specs.Laws.{LinesFollowCommits, PuttingAmendsOrAdds, StatesFollowCommits};
ghost use Rattle.row_store.specs.Laws.{BeginsWithItself, BeginningsChain, OneMoreBeginsWithIt, BeginningsOfOneAgree};
ghost use Rattle.row_store.specs.Laws.{BeginningsAreShorter, AsLongIsTheWhole};
ghost use Rattle.row_store.specs.Laws.{SameFactsAreEqual, CountsTellOccurrences, OneFactCountsOnce, WithoutAnOrder};
ghost use Rattle.row_store.specs.Laws.{AppendedFactsCount, FactsCommute, RearrangedCountEqual, EqualCountsRearrange};
ghost use Rattle.row_store.specs.Laws.{OneStateOneAnswer};
ghost use Rattle.row_store.specs.Laws.{AcceptedIsCommitted, RefusedChangesNothing, RepliesTell};

/// A legal history is legal in all its beginnings.
pub fn beginnings_are_legal()
    ensures { BeginningsAreLegal }
{}

/// A legal history stays legal with one commit more that is not refused after it.
pub fn accepted_stays_legal()
    ensures { AcceptedStaysLegal }
{}

/// A legal history has no more commits than the limit, and leaves no more lines than the limit.
pub fn legal_histories_are_few()
    ensures { LegalHistoriesAreFew }
{}

/// "Begins with" is an order: a history begins with itself, a beginning of a beginning is a beginning, and a beginning
/// that is as long as the whole is the whole. A beginning is never longer.
pub fn beginnings_are_an_order()
    ensures itself { BeginsWithItself }
    ensures chain { BeginningsChain }
    ensures whole { AsLongIsTheWhole }
    ensures shorter { BeginningsAreShorter }
{}

/// A history is a beginning of it and one commit more; and of two beginnings of one history the one that is not longer
/// is a beginning of the other.
pub fn histories_grow()
    ensures one_more { OneMoreBeginsWithIt }
    ensures agree { BeginningsOfOneAgree }
{}

/// The lines after a history and one commit more are the commit's action on the lines after the history.
pub fn lines_follow_commits()
    ensures { LinesFollowCommits }
{}

/// An order that is put is amended where it is live, and else added: the lines after it are the same, and so is the
/// cause of its refusal.
pub fn putting_amends_or_adds()
    ensures { PuttingAmendsOrAdds }
{}

/// Where a state stands for a history, the state after a commit stands for the history and that commit.
pub fn states_follow_commits()
    ensures { StatesFollowCommits }
{}

/// The counts of a list tell how often each fact stands in it. Rearranged lists have the same counts.
pub fn counts_tell_occurrences()
    ensures same { SameFactsAreEqual }
    ensures counts { CountsTellOccurrences }
    ensures rearranged { RearrangedCountEqual }
{}

/// What facts that come and go do to the counts, in whatever order they come.
pub fn counts_follow_facts()
    ensures more { OneFactCountsOnce }
    ensures appended { AppendedFactsCount }
    ensures without { WithoutAnOrder }
    ensures commute { FactsCommute }
{}

/// Lists that have each fact as often are rearrangements of one another.
pub fn equal_counts_rearrange()
    ensures { EqualCountsRearrange }
{}

/// Two replicas in one state have the same live facts, rearranged, whatever their histories.
pub fn one_state_one_answer()
    ensures { OneStateOneAnswer }
{}

/// The one-thread warehouse makes a refresh that is not refused its next commit.
pub fn accepted_is_committed()
    ensures { AcceptedIsCommitted }
{}

/// The one-thread warehouse leaves its history where it refuses.
pub fn refused_changes_nothing()
    ensures { RefusedChangesNothing }
{}

/// What a client is told of a refresh tells its refusal, or that it has none.
pub fn replies_tell()
    ensures { RepliesTell }
{}
