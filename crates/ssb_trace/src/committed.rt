//! What commits hold by their types: but for their clients, they may stand in an allowed trace.
ghost use Rattle.std.specs.Prelude.{◌≡◌, All, None};
ghost use Rattle.std.specs.List.{AllByRecursion};
ghost use Rattle.ssb_schema.specs.Orders.{order_fault};
ghost use Rattle.ssb_script.specs.Requests.{IsWholeAction};
ghost use Rattle.ssb_trace.specs.Allowed.{IsAllowedAction, IsAllowedCommit, IsAllowedLine, IsClient};

use row_store::Commit;
use ssb_schema::{Action, Order};
use ssb_text::are_table_rows;

// An order is one, of lines that may stand in an allowed trace.
fn order_is_allowed(order: &Order)
    ensures whole { order_fault order.now ≡ None }
    ensures lines { AllByRecursion IsAllowedLine order.now }
{
    order.soundness();
    are_table_rows(order.lines());
}

fn action_is_allowed(action: &Action)
    ensures whole { IsWholeAction action.now }
    ensures allowed { IsAllowedAction action.now }
{
    match action {
        Action::Add(order) => order_is_allowed(order),
        Action::Amend(order) => order_is_allowed(order),
        Action::Put(order) => order_is_allowed(order),
        Action::Withdraw(key) => {
            let _key = *key;
        },
    }
}

fn actions_are_allowed(actions: &[Action])
    ensures whole { All IsWholeAction actions.now }
    ensures allowed { AllByRecursion IsAllowedAction actions.now }
{
    for action in actions {
        action_is_allowed(action);
    }
}

// A commit of a client may stand in an allowed trace.
fn commit_is_allowed(commit: &Commit)
    ensures { IsClient commit.now.client → IsAllowedCommit commit.now }
{
    commit.refresh.soundness();
    actions_are_allowed(commit.refresh.actions());
}

/// Commits of clients 1 to 16 may stand in an allowed trace. This looks at each, and does nothing.
pub fn commits_are_allowed(commits: &[Commit])
    ensures { AllByRecursion (λ commit. IsClient commit.client → IsAllowedCommit commit) commits.now }
{
    for commit in commits {
        commit_is_allowed(commit);
    }
}
