//! The tables after a history.

ghost use Rattle.std.specs.Prelude.{◌≡◌};
ghost use Rattle.ssb_base.specs.Base.{IsSound};
ghost use Rattle.export_command.specs.After.{tables_after};
ghost use Rattle.export_command.specs.Standing.{Follows};
ghost use Rattle.ssb_text.specs.RoundTrip.{AreTableRows};
ghost use Rattle.ssb_text.specs.TableText.{base_texts};

use crate::standing_orders::StandingOrders;
use crate::writing::write_table;
use row_store::RowStore;
use ssb_base::Base;
use ssb_schema::Table;
use std::io::{self, ErrorKind, Write};
use std::marker::Model;
use std::sync::Arc;
use table_folder::TableTexts;

/// The tables after a legal history over a base. Contracts see them as the tables of a base; memory has the base and
/// the added orders that stand.
#[derive(Drop)]
pub struct TablesAfter {
    pub(crate) base: Arc<Base>,
    pub(crate) orders: StandingOrders,
}

impl Model for TablesAfter {
    ghost use Rattle.ssb_base.specs.Base.{IsSound, Tables};
    ghost use Rattle.export_command.specs.Standing.{tables_left};

    ghost Value = { Tables };

    ghost view = { λ after. tables_left after.base.value after.orders };

    ghost invariant = { λ after. IsSound (tables_left after.base.value after.orders) };
}

impl TablesAfter {
    /// The tables after the history of a row store, of which these orders stand.
    pub(crate) fn new(store: RowStore, orders: StandingOrders) -> TablesAfter
        requires { Follows store.base store.log orders }
        ensures { result ≡ tables_after store.base store.log }
    {
        store.soundness();
        store.base().soundness();
        let (base, _) = store.into_parts();
        TablesAfter { base, orders }
    }

    /// They keep what the tables of a base keep, so that one can be loaded of them. The law alone: it does nothing.
    pub fn soundness(&self)
        ensures { IsSound self.now }
    {
        let _orders = &self.orders;
    }
}

impl TableTexts for TablesAfter {
    ghost texts = { λ tables. base_texts tables };

    ghost known = { λ tables t. AreTableRows tables t };

    fn write<W: Write>(&self, out: &mut W, table: Table) -> io::Result<()> {
        match write_table(out, self, table) {
            Ok(()) => Ok(()),
            Err(_) => Err(io::Error::from(ErrorKind::Other)),
        }
    }
}
