//! What the questions of a batch are read over.
use dimension_index::FirstRows;
use scan_kernel::{LineColumns, Masks};

/// The lines that a batch goes over, the index of their rows, and the masks of these.
#[derive(Clone, Copy)]
pub struct Scan<'a> {
    pub index: &'a FirstRows,
    pub lines: LineColumns<'a>,
    pub masks: &'a Masks,
}
