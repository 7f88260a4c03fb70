//! Replies whose numbers of commits count those that came before the log.

ghost use Rattle.std.specs.Prelude.{◌≡◌, map};
ghost use Rattle.std.specs.List.{AllByRecursion};
ghost use Rattle.stream_sessions.specs.Replies.{reply_of};
ghost use Rattle.ssb_statements.specs.Listing.{listing_of};
ghost use Rattle.stream_sessions.specs.WithPast.{IsOfFew, IsOfFewAnswer, IsOfFewListing, IsOfFewOrder, IsOfFewOutcome};
ghost use Rattle.stream_sessions.specs.WithPast.{answer_with_past, listing_with_past, order_with_past};
ghost use Rattle.stream_sessions.specs.WithPast.{outcome_with_past, with_past};

use crate::past::Past;
use crate::reply::Reply;
use row_store::{Receipt, RefreshError};
use ssb_answers::Answer;
use ssb_report::ShownOrder;
use ssb_statements::Listing;

// The outcome of a refresh, told with the commits that came before.
fn outcome_with_past(
    outcome: Result<Receipt, RefreshError>,
    past: Past,
) -> Result<Receipt, RefreshError>
    requires { IsOfFewOutcome outcome }
    ensures { result ≡ outcome_with_past past.commits outcome }
{
    match outcome {
        Ok(receipt) => Ok(Receipt {
            number: past.with(receipt.number),
        }),
        Err(RefreshError::Refused { at, action, cause }) => Err(RefreshError::Refused {
            at: past.with(at),
            action,
            cause,
        }),
        Err(RefreshError::OutOfMemory) => Err(RefreshError::OutOfMemory),
    }
}

// Tells an answer with the commits that came before.
fn add_past(answer: &mut Answer, past: Past)
    requires { IsOfFewAnswer answer.old }
    ensures { answer.new ≡ answer_with_past past.commits answer.old }
{
    if let Answer::Rows {
        question: _,
        at,
        rows: _,
    } = answer
    {
        *at = past.with(*at);
    }
}

// The same of each answer.
fn add_past_to_all(answers: &mut [Answer], past: Past)
    requires { AllByRecursion IsOfFewAnswer answers.old }
    ensures { answers.new ≡ map (answer_with_past past.commits) answers.old }
{
    for answer in answers.iter_mut() {
        add_past(answer, past);
    }
}

// Tells what is listed of a statement with the commits that came before.
fn add_past_to_listing(listing: &mut Listing, past: Past)
    requires { IsOfFewListing (listing_of listing.old) }
    ensures { listing_of listing.new ≡ listing_with_past past.commits (listing_of listing.old) }
{
    if let Listing::Rows(rows) = listing {
        rows.at = past.with(rows.at);
    }
}

// An order, told with the commits that came before.
fn order_with_past(order: ShownOrder, past: Past) -> ShownOrder
    requires { IsOfFewOrder order }
    ensures { result ≡ order_with_past past.commits order }
{
    match order {
        ShownOrder::Lines { key, at, lines } => ShownOrder::Lines {
            key,
            at: past.with(at),
            lines,
        },
        ShownOrder::Unserved { key } => ShownOrder::Unserved { key },
    }
}

impl Reply {
    /// The reply, told with the commits that came before.
    pub(crate) fn with_past(self, past: Past) -> Reply
        requires { IsOfFew (reply_of self) }
        ensures { reply_of result ≡ with_past past.commits (reply_of self) }
    {
        match self {
            Reply::Refreshed(outcome) => Reply::Refreshed(outcome_with_past(outcome, past)),
            Reply::Answered(answers) => {
                let mut answers = answers;
                add_past_to_all(&mut answers, past);
                Reply::Answered(answers)
            }
            Reply::Listed(answers, listing) => {
                let (mut answers, mut listing) = (answers, listing);
                add_past_to_all(&mut answers, past);
                add_past_to_listing(&mut listing, past);
                Reply::Listed(answers, listing)
            }
            Reply::Shown(order) => Reply::Shown(order_with_past(order, past)),
            Reply::Aborted => Reply::Aborted,
        }
    }
}
