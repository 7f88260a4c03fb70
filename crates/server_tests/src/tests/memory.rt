//! What is left where a call lacks memory: nothing of it is done, and the same call again is answered as if it were
//! the first.
//!
//! Where memory lasts, as mostly, each first call is answered. `bench/growths server_tests lacks` runs these tests
//! again and again, each time with another growth of memory refused, so that each growth of each call is refused
//! once.

use crate::tests::trial::TrialDeed::{Adds, Asks, Polls};
use crate::tests::trial::TrialStep::{First, Turn};
use crate::tests::trial::played_at_last;
use crate::tests::{LOADED, WITH_NINE};
use std::test::Fail;

#[test]
fn a_refresh_that_lacks_memory_commits_nothing(rt: HostRuntime) -> Result<(), Fail> {
    let nothing_is_done = [
        (First(Asks("Q4.1")), "asked"),
        (Turn, "answered 1 at 0"),
        (First(Polls), LOADED),
        (First(Adds(9)), "committed 1"),
    ];
    played_at_last(
        &rt,
        &[],
        (First(Adds(9)), "committed 1"),
        ("refresh: out of memory", &nothing_is_done),
        &[
            (First(Asks("Q4.1")), "asked"),
            (Turn, "answered 1 at 1"),
            (First(Polls), WITH_NINE),
        ],
    )
}

#[test]
fn a_turn_that_lacks_memory_gives_up_and_the_next_one_answers(rt: HostRuntime) -> Result<(), Fail> {
    let given_up = [
        (
            First(Polls),
            "Q4.1 unserved: out of memory\nQ1.1 unserved: out of memory",
        ),
        (First(Asks("Q4.1 Q1.1")), "asked"),
        (Turn, "answered 1 at 1"),
    ];
    let answered = "Q4.1 at 1 rows 1\n1997|UNITED STATES|-1330\nQ1.1 at 1 rows 1\n3000";
    played_at_last(
        &rt,
        &[
            (First(Adds(9)), "committed 1"),
            (First(Asks("Q4.1 Q1.1")), "asked"),
        ],
        (Turn, "answered 1 at 1"),
        ("gave up 1: OutOfMemory", &given_up),
        &[(First(Polls), answered)],
    )
}
