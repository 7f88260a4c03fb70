//! Copies that follow though nothing is asked, and what is forgotten then.

use crate::tests::trial::TrialDeed::{Adds, Asks, Polls, Withdraws};
use crate::tests::trial::TrialStep::{First, Following, Second, Turn};
use crate::tests::trial::played;
use crate::tests::{LOADED, WITH_NINE};
use std::test::Fail;

#[test]
fn who_asks_after_the_copies_followed_sees_all(rt: HostRuntime) -> Result<(), Fail> {
    played(
        &rt,
        &[
            (Following, "follows"),
            (First(Adds(9)), "committed 1"),
            (Following, "follows"),
            (Turn, "idle"),
            (Second(Asks("Q4.1")), "asked"),
            (Turn, "answered 1 at 1"),
            (Second(Polls), WITH_NINE),
        ],
    )
}

#[test]
fn what_was_asked_before_the_copies_followed_is_answered(rt: HostRuntime) -> Result<(), Fail> {
    played(
        &rt,
        &[
            (Second(Asks("Q4.1")), "asked"),
            (Following, "follows"),
            (Second(Polls), "no answer"),
            (Turn, "answered 1 at 0"),
            (First(Adds(9)), "committed 1"),
            (Following, "follows"),
            (Second(Polls), LOADED),
        ],
    )
}

#[test]
fn orders_outlive_the_commits_that_added_them(rt: HostRuntime) -> Result<(), Fail> {
    played(
        &rt,
        &[
            (First(Adds(9)), "committed 1"),
            (First(Adds(10)), "committed 2"),
            (Following, "follows"),
            (First(Adds(9)), "refused at 2 action 1: 41 Present 9"),
            (First(Withdraws(10)), "committed 3"),
            (Following, "follows"),
            (First(Withdraws(10)), "refused at 3 action 1: 47 Absent 10"),
            (First(Withdraws(9)), "committed 4"),
            (First(Adds(9)), "committed 5"),
            (Following, "follows"),
            (Following, "follows"),
            (Second(Asks("Q4.1")), "asked"),
            (Turn, "answered 1 at 5"),
            (Second(Polls), "Q4.1 at 5 rows 1\n1997|UNITED STATES|-1330"),
        ],
    )
}
