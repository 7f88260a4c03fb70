//! A question made ready.
use crate::groups::Groups;
use ssb_answers::{Plan, Question};

/// A question with its plan, and its groups.
pub struct Ready {
    pub question: Question,
    pub plan: Plan,
    pub groups: Groups,
}

impl Drop for Ready {
    fn drop(self) {
        let Ready {
            question: _,
            plan: _,
            groups: _,
        } = self;
    }
}
