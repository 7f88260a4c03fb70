//! One client or two and a dispatcher, in one thread.

use crate::tests::trial::TrialDeed::{Adds, Asks, Polls, Withdraws};
use crate::tests::trial::TrialStep::{Counting, First, Meeting, Second, Turn};
use crate::tests::trial::played;
use crate::tests::{LOADED, WITH_NINE};
use std::test::Fail;

#[test]
fn own_commit_is_in_the_next_answer_which_comes_once(rt: HostRuntime) -> Result<(), Fail> {
    played(
        &rt,
        &[
            (Turn, "idle"),
            (First(Adds(9)), "committed 1"),
            (First(Asks("Q4.1")), "asked"),
            (First(Polls), "no answer"),
            (Turn, "answered 1 at 1"),
            (First(Polls), WITH_NINE),
            (First(Polls), "no answer"),
            (Turn, "idle"),
        ],
    )
}

#[test]
fn commit_that_returned_is_in_a_strangers_answer(rt: HostRuntime) -> Result<(), Fail> {
    played(
        &rt,
        &[
            (First(Adds(9)), "committed 1"),
            (Second(Asks("Q4.1")), "asked"),
            (Turn, "answered 1 at 1"),
            (Second(Polls), WITH_NINE),
        ],
    )
}

#[test]
fn client_that_met_another_sees_its_commit(rt: HostRuntime) -> Result<(), Fail> {
    played(
        &rt,
        &[
            (First(Adds(9)), "committed 1"),
            (Meeting, "sees 1"),
            (Second(Asks("Q4.1")), "asked"),
            (Turn, "answered 1 at 1"),
            (Second(Polls), WITH_NINE),
        ],
    )
}

#[test]
fn question_asked_before_a_commit_is_answered_after_it(rt: HostRuntime) -> Result<(), Fail> {
    played(
        &rt,
        &[
            (Second(Asks("Q4.1")), "asked"),
            (First(Adds(9)), "committed 1"),
            (Turn, "answered 1 at 1"),
            (Second(Polls), WITH_NINE),
        ],
    )
}

#[test]
fn answer_from_before_a_commit_stays_so(rt: HostRuntime) -> Result<(), Fail> {
    played(
        &rt,
        &[
            (Second(Asks("Q4.1")), "asked"),
            (Turn, "answered 1 at 0"),
            (First(Adds(9)), "committed 1"),
            (Second(Polls), LOADED),
        ],
    )
}

#[test]
fn what_was_done_is_counted_before_it_is_told(rt: HostRuntime) -> Result<(), Fail> {
    played(
        &rt,
        &[
            (
                Counting,
                "0 commits, 4 lines, 0 refused, 0 answers, 0 batches",
            ),
            (First(Adds(9)), "committed 1"),
            (First(Withdraws(77)), "refused at 1 action 1: 47 Absent 77"),
            (
                Counting,
                "1 commits, 5 lines, 1 refused, 0 answers, 0 batches",
            ),
            (First(Asks("Q4.1")), "asked"),
            (Second(Asks("Q4.1 Q1.1")), "asked"),
            (Turn, "answered 2 at 1"),
            (
                Counting,
                "1 commits, 5 lines, 1 refused, 3 answers, 1 batches",
            ),
        ],
    )
}

#[test]
fn two_clients_share_a_batch(rt: HostRuntime) -> Result<(), Fail> {
    played(
        &rt,
        &[
            (First(Asks("Q1.1")), "asked"),
            (Second(Asks("Q4.1")), "asked"),
            (Turn, "answered 2 at 0"),
            (First(Polls), "Q1.1 at 0 rows 1\n3000"),
            (Second(Polls), LOADED),
        ],
    )
}

#[test]
fn two_clients_that_ask_the_same_share_a_batch(rt: HostRuntime) -> Result<(), Fail> {
    played(
        &rt,
        &[
            (First(Asks("Q4.1")), "asked"),
            (Second(Asks("Q4.1")), "asked"),
            (Turn, "answered 2 at 0"),
            (First(Polls), LOADED),
            (Second(Polls), LOADED),
        ],
    )
}

#[test]
fn questions_of_a_request_are_answered_at_one_commit(rt: HostRuntime) -> Result<(), Fail> {
    played(
        &rt,
        &[
            (First(Asks("Q4.1 Q1.1 Q4.1")), "asked"),
            (Second(Adds(9)), "committed 1"),
            (Turn, "answered 1 at 1"),
            (Second(Adds(10)), "committed 2"),
            (
                First(Polls),
                "Q4.1 at 1 rows 1\n1997|UNITED STATES|-1330\nQ1.1 at 1 rows 1\n3000\n\
                 Q4.1 at 1 rows 1\n1997|UNITED STATES|-1330",
            ),
        ],
    )
}
