//! A base of the tables after a history.

ghost use Rattle.std.specs.Prelude.{◌≡◌, ◌++◌, nat_eq, IfOk, OnOk};
ghost use Rattle.std.specs.HashMap.{get};
ghost use Rattle.std.specs.HashSet.{contains};
ghost use Rattle.export_command.specs.Standing.{left_of, left_of_added, left_of_loaded};

use crate::copied_rows::copied_rows;
use crate::standing_orders::StandingOrders;
use crate::tables_after::TablesAfter;
use ssb_base::{Base, BaseError, BaseParts};
use ssb_schema::Line;
use std::alloc::{AllocError, Global};

// How many lines stand.
fn count_left(orders: &StandingOrders, loaded: &[Line]) -> usize {
    let mut count = 0usize;
    for line in loaded {
        if orders.has_loaded(line.order_key()) {
            count = count.saturating_add(1);
        }
    }
    for order in orders.added() {
        if orders.has_added(order) {
            count = count.saturating_add(order.lines().len());
        }
    }
    count
}

// Copies the loaded lines that stand behind others.
fn copy_loaded(
    lines: &mut Vec<Line>,
    orders: &StandingOrders,
    loaded: &[Line],
) -> Result<(), AllocError>
    ensures { OnOk result (lines.new.items
        ≡ lines.old.items ++ left_of_loaded (contains nat_eq orders.now.gone) loaded.now) }
{
    for line in loaded {
        if orders.has_loaded(line.order_key()) {
            lines.push(line.clone()?)?;
        }
    }
    Ok(())
}

// Copies lines behind others.
fn copy_lines(lines: &mut Vec<Line>, more: &[Line]) -> Result<(), AllocError>
    ensures { OnOk result (lines.new.items ≡ lines.old.items ++ more.now) }
{
    for line in more {
        lines.push(line.clone()?)?;
    }
    Ok(())
}

// Copies the lines that were added and stand behind others.
fn copy_added(lines: &mut Vec<Line>, orders: &StandingOrders) -> Result<(), AllocError>
    ensures { OnOk result (lines.new.items
        ≡ lines.old.items ++ left_of_added (get nat_eq orders.now.numbers) orders.now.added.items) }
{
    for order in orders.added() {
        if orders.has_added(order) {
            copy_lines(lines, order.lines())?;
        }
    }
    Ok(())
}

// The lines that stand. They are counted first, so that they take no more memory than they need.
fn lines_left(
    alloc: Global,
    orders: &StandingOrders,
    loaded: &[Line],
) -> Result<Vec<Line>, AllocError>
    ensures { IfOk result (λ lines. lines.items ≡ left_of loaded.now orders.now) }
{
    let mut lines = Vec::with_capacity(alloc, count_left(orders, loaded))?;
    copy_loaded(&mut lines, orders, loaded)?;
    copy_added(&mut lines, orders)?;
    Ok(lines)
}

impl TablesAfter {
    /// A base of copies of their rows. Memory has the loaded lines meanwhile, and those of the base.
    pub fn to_base(&self, alloc: Global) -> Result<Base, AllocError>
        ensures { IfOk result (λ base. base ≡ self.now) }
    {
        self.soundness();
        let parts = BaseParts {
            customers: copied_rows(alloc, self.base.customers().rows())?,
            suppliers: copied_rows(alloc, self.base.suppliers().rows())?,
            parts: copied_rows(alloc, self.base.parts().rows())?,
            dates: copied_rows(alloc, self.base.dates().rows())?,
            lines: lines_left(alloc, &self.orders, self.base.lines())?,
        };
        match Base::new(alloc, self.base.limits(), parts) {
            Ok(base) => Ok(base),
            Err(BaseError::OutOfMemory(_)) => Err(AllocError),
            // They keep what a base keeps.
            Err(BaseError::Refused(_)) => unreachable!(),
        }
    }
}
