//! What an action adds.
ghost use Rattle.std.specs.Prelude.{◌≡◌, All};
ghost use Rattle.row_store.specs.Lines.{added_by};
ghost use Rattle.fact_columns.specs.Coded.{key_of};

use ssb_schema::{Action, Line};

/// The lines that an action adds.
pub fn added(action: &Action) -> &[Line]
    ensures lines { result.now ≡ added_by action.now }
    ensures alike { All (λ line. line.order_key ≡ key_of action.now) result.now }
{
    match action {
        Action::Add(order) | Action::Amend(order) | Action::Put(order) => order.lines(),
        Action::Withdraw(_) => &[],
    }
}
