//! The masks of a batch.
ghost use Rattle.std.specs.Prelude.{◌≤◌, IfOk, length};
ghost use Rattle.scan_kernel.specs.Masks.{questions_a_pass};
ghost use Rattle.shared_scan.specs.Prepared.{AreMasksOf};
ghost use Rattle.shared_scan.specs.Masking.{CoverRows};

use crate::masking::{dimension_masks, terms_masks};
use dimension_index::FirstRows;
use scan_kernel::Masks;
use ssb_answers::Plan;
use ssb_schema::{Items, Table};
use std::alloc::{AllocError, Global};

/// The masks of the rows of all dimensions, and of all codes of quantity and discount.
pub fn batch_masks(alloc: Global, index: &FirstRows, plans: &[Plan]) -> Result<Masks, AllocError>
    requires few { length plans.now ≤ questions_a_pass }
    ensures tell { IfOk result (AreMasksOf plans.now index.now.dimensions) }
    ensures cover { IfOk result (CoverRows index.now.dimensions) }
{
    let customers = dimension_masks(alloc, index, plans, Table::Customer)?;
    let suppliers = dimension_masks(alloc, index, plans, Table::Supplier)?;
    let parts = dimension_masks(alloc, index, plans, Table::Part)?;
    let dates = dimension_masks(alloc, index, plans, Table::Date)?;
    let terms = terms_masks(alloc, plans)?;
    Ok(Masks {
        customers,
        suppliers,
        parts,
        dates,
        terms: Items::from_vec(terms),
    })
}
