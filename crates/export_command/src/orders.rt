//! What the actions of commits hold by their types: they add orders.

ghost use Rattle.std.specs.List.{AllByRecursion};
ghost use Rattle.export_command.specs.After.{AddsOrder};

use ssb_schema::Action;

// Whatever an action adds is an order. This looks at it, and does nothing.
pub(crate) fn adds_order(action: &Action)
    ensures { AddsOrder action.now }
{
    match action {
        Action::Add(order) | Action::Amend(order) | Action::Put(order) => {
            let _lines = order.lines();
        }
        Action::Withdraw(_) => {}
    }
}

// The same of each action of a commit.
pub(crate) fn all_add_orders(actions: &[Action])
    ensures { AllByRecursion AddsOrder actions.now }
{
    for action in actions {
        adds_order(action);
    }
}
