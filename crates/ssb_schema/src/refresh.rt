//! Refreshes: lists of actions on whole orders, in the manner of the refresh functions of TPC-H.

ghost use Rattle.std.specs.Prelude.{◌≡◌, ◌≤◌, ◌<◌, IfOk, IfErr, None, length};
ghost use Rattle.ssb_schema.specs.Refusals.{fault_of};

use crate::fault::{Refused, SchemaFault};
use crate::order::Order;
use std::marker::Model;

/// The most actions of a refresh.
pub const MOST_ACTIONS: usize = 64;

/// What a refresh does with one order.
pub enum Action {
    /// Adds an order whose key is absent.
    Add(Order),
    /// Puts an order in the place of the one of its key, which is present.
    Amend(Order),
    /// Puts an order in the place of the one of its key, or adds it where the key is absent.
    Put(Order),
    /// Takes away the order of this key, which is present.
    Withdraw(u64),
}

impl Drop for Action {
    fn drop(self) {
        match self {
            Action::Add(_) => {}
            Action::Amend(_) => {}
            Action::Put(_) => {}
            Action::Withdraw(_) => {}
        }
    }
}

/// One to 64 actions, which take effect together or not at all. Contracts see the list of actions.
pub struct Refresh {
    actions: Vec<Action>,
}

impl Drop for Refresh {
    fn drop(self) {
        let Refresh { actions: _ } = self;
    }
}

impl Model for Refresh {
    ghost use Rattle.std.specs.Prelude.{◌≡◌, List, None};
    ghost use Rattle.ssb_schema.specs.declared.refresh.Action.{Action};
    ghost use Rattle.ssb_schema.specs.Refreshes.{refresh_fault, most_actions};

    ghost Value = { List Action };

    ghost view = { λ refresh. refresh.actions.items };

    ghost invariant = { λ refresh. refresh_fault refresh.actions.items ≡ None };
}

impl Refresh {
    ghost use Rattle.ssb_schema.specs.Refreshes.{refresh_fault, most_actions};

    /// A refresh of these actions, or its fault with the actions: none, or more than 64.
    pub fn new(actions: Vec<Action>) -> Result<Refresh, Refused<Vec<Action>>>
        ensures fault { fault_of result ≡ refresh_fault actions.items }
        ensures actions { IfOk result (λ refresh. refresh ≡ actions.items) }
        ensures back { IfErr result (λ refused. refused.back ≡ actions) }
    {
        if actions.is_empty() {
            return Err(Refused {
                fault: SchemaFault::NoActions,
                back: actions,
            });
        }
        if actions.len() > MOST_ACTIONS {
            return Err(Refused {
                fault: SchemaFault::TooManyActions,
                back: actions,
            });
        }
        Ok(Refresh { actions })
    }

    /// The schema finds no fault in any refresh. The law alone: it does nothing.
    pub fn soundness(&self)
        ensures { refresh_fault self.now ≡ None }
    {
        let _actions = &self.actions;
    }

    /// The actions.
    pub fn actions(&self) -> &[Action]
        ensures actions { result.now ≡ self.now }
        ensures few { (0 < length self.now) × (length self.now ≤ most_actions) }
    {
        self.actions.as_slice()
    }
}
