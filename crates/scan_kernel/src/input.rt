//! What a scan goes over.
ghost use Rattle.scan_kernel.specs.Wanted.{AreWanted};

use crate::columns::{Grouping, LineColumns};
use crate::masks::Masks;
use crate::wanted::Wanted;

/// The lines that a scan goes over, the masks of their rows, and what each question of the batch adds up.
#[derive(Clone, Copy)]
pub struct ScanInput<'a> {
    pub lines: &'a LineColumns<'a>,
    pub masks: &'a Masks,
    pub groupings: &'a [Grouping<'a>],
    /// What each question makes of the rows.
    pub wanted: &'a [Wanted],
    pub ghost wants: { AreWanted lines.now masks.now wanted.now },
}
