//! The rule over the copies: what each seat of the cell knows of the published one, and what a step tells it.
ghost use Rattle.std.specs.Prelude.{[], List};
ghost use Rattle.row_store.specs.History.{CommitRecord};

use crate::side::Side;
use atomic_table::{Join, Split};
use crossbeam_utils::rule::{Outcome, Protocol};
use row_store::{Commit, Replica};
use ssb_base::Base;
use std::marker::{Brand, PhantomData};

/// What a seat of the cell knows. No value of it is made.
pub struct CellView {
    pub base: Option<Base>,
    // What it was told, or has published. A clause reads an array as a list, of any length.
    pub told: [Commit; 0],
    // What the copy that it entered last stands for.
    pub seen: [Commit; 0],
}

/// The rule: the published replica stands for a list that begins with all that any seat was told.
pub struct Published;

impl<R: Replica> Protocol<Side<R>, CellView> for Published {
    ghost use Rattle.twin_cell.specs.Rule.{Follows, newcomer};

    ghost holds = { λ side. Follows (R.state side.replica) };

    ghost first = { newcomer };
}

/// What a reader knows once it has entered.
pub struct Sees;

impl<R: Replica> Outcome<Side<R>, CellView> for Sees {
    ghost use Rattle.twin_cell.specs.Rule.{HasSeen};

    ghost then = { λ before replaced entered after. HasSeen before (R.state entered.replica) after };
}

/// The commits that a publication adds. Each call picks them.
pub trait Pending {
    ghost list: { List CommitRecord };
}

impl Pending for Brand {
    ghost list = { [] };
}

/// What the writer knows once it has published.
pub struct Adds<K> {
    commits: PhantomData<K>,
}

impl<R: Replica, K: Pending> Outcome<Side<R>, CellView> for Adds<K> {
    ghost use Rattle.twin_cell.specs.Rule.{HasPublished};

    ghost then = { λ before replaced shown after. HasPublished K.list before (R.state shown.replica) after };
}

/// The writer tells all that it knows, and a new reader takes it over.
pub struct Tells;

impl Split<CellView> for Tells {
    ghost left = { λ writer. writer };

    ghost right = { λ writer. writer };
}

impl Join<CellView> for Tells {
    ghost use Rattle.twin_cell.specs.Rule.{newcomer};

    ghost both = { λ reader told. told };

    ghost spent = { newcomer };
}
