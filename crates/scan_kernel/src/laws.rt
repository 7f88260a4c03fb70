//! What the scan rests on, as laws over the definitions.
//!
//! Each is the contract of a function that does nothing.
ghost use Rattle.scan_kernel.specs.Combined.{CombinesEachLine, CombinesAtPositions};
ghost use Rattle.scan_kernel.specs.Groups.{CodesAreNumbered, GroupsAreApart, CodesNumberGroups};
ghost use Rattle.scan_kernel.specs.Lines.{GroupsAreOfLines};
ghost use Rattle.scan_kernel.specs.Masks.{MasksCombine};
ghost use Rattle.scan_kernel.specs.Scan.{ScanMakesTotals};
ghost use Rattle.scan_kernel.specs.Dense.{SortedRowsAnswer, OneRowAnswers};

/// Over a sound base each line makes one combination, and those that pass are combinations of the
/// lines that pass.
pub fn combines_each_line()
    ensures { CombinesEachLine }
{}

/// The combination of a line is made of the rows at the positions that its keys have.
pub fn combines_at_positions()
    ensures { CombinesAtPositions }
{}

/// Codes below their columns' counts and numbers below the product of the counts stand for each other.
pub fn codes_are_numbered()
    ensures { CodesAreNumbered }
{}

/// Groups of different numbers are different, where each column lists no value twice.
pub fn groups_are_apart()
    ensures { GroupsAreApart }
{}

/// The rows of the numbers that have combinations, sorted, are the rows over what was found.
pub fn sorted_rows_answer()
    ensures { SortedRowsAnswer }
{}

/// Without group columns the one row has the sum, or NULL where there is no combination.
pub fn one_row_answers()
    ensures { OneRowAnswers }
{}

/// A combination's codes number its group.
pub fn codes_number_groups()
    ensures { CodesNumberGroups }
{}

/// The combinations of a group are those of the lines that pass and have its number.
pub fn groups_are_of_lines()
    ensures { GroupsAreOfLines }
{}

/// The masks of a line's rows and of its numbers, joined by `&`, are the mask of its combination.
pub fn masks_combine()
    ensures { MasksCombine }
{}

/// Counts and sums over the lines, by group number, are dense totals of the combinations.
pub fn scan_makes_totals()
    ensures { ScanMakesTotals }
{}
