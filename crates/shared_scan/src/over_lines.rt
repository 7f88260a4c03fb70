//! The pass over the columns of a list of places.
ghost use Rattle.std.specs.Prelude.{◌≡◌, List, IfOk};
ghost use Rattle.fact_columns.specs.declared.place.Place.{Place};
ghost use Rattle.fact_columns.specs.Columns.{AreColumnsOf};
ghost use Rattle.fact_columns.specs.Places.{live_facts};
ghost use Rattle.shared_scan.specs.Answers.{answers_over};
ghost use Rattle.shared_scan.specs.Lines.{AreOfBase, HavePlaces};

use crate::grouping::groupings;
use crate::prepared::PreparedBatch;
use crate::scan::Scan;
use crate::sums::batch_rows;
use scan_kernel::{LineColumns, parallel_totals};
use ssb_answers::Rows;
use std::alloc::{AllocError, Global};
use std::thread::Threads;

/// The answers over columns, by as many threads as there are processors.
pub fn scan_lines<'a, R: Threads + Sync>(
    rt: &R,
    alloc: Global,
    lines: LineColumns<'a>,
    batch: &'a PreparedBatch<'a>,
) -> Result<Vec<Rows>, AllocError>
    requires { HavePlaces batch.now.columns.base lines }
    ensures { (places : List Place) → AreColumnsOf places lines.entry → AreOfBase batch.now.columns.base places
        → IfOk result (λ rows. rows.items ≡ answers_over batch.now.columns.base.dimensions
        (live_facts batch.now.columns.base.dimensions places) batch.now.questions) }
{
    let index = batch.columns.index();
    index.base().soundness();
    let first_rows = index.first_rows();
    first_rows.soundness();
    let groupings = groupings(alloc, first_rows, &lines, &batch.questions)?;
    let totals = parallel_totals(rt, alloc, &lines, &batch.masks, &groupings)?;
    let scan = Scan {
        index: first_rows,
        lines,
        masks: &batch.masks,
    };
    batch_rows(alloc, scan, &batch.questions, &totals)
}
