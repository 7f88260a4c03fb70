//! What a crash leaves: each law is the contract of a function that does nothing.
ghost use Rattle.segment_steps.specs.Steps.{AppendingIsAStep, ANewSegmentIsEmpty, AFolderHasTablesOrNone};

use ssb_journal::laws::one_list_of_commits;

/// While commits are appended to a journal, a crash leaves of it what it leaves of a segment into which they were
/// written, and in which those before them are on the disk.
pub fn appending_is_a_step()
    ensures { AppendingIsAStep }
{}

/// What a crash leaves of a journal that is being made is opened as one without commits.
pub fn a_new_segment_is_empty()
    ensures { ANewSegmentIsEmpty }
{
    one_list_of_commits();
}

/// While a folder is filled, a crash leaves no tables in it, or those that are on the disk.
pub fn a_folder_has_tables_or_none()
    ensures { AFolderHasTablesOrNone }
{}
