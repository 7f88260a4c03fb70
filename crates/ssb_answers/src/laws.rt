//! Laws that the benchmark's words ask of an answer, over the definitions in `specs/`.
//!
//! Each is the contract of a function that does nothing.
ghost use Rattle.ssb_answers.specs.Laws.{RowsListGroups, RowsHaveDistinctGroups, RowsHaveTheirSums, TotalIsOneRow};
ghost use Rattle.ssb_answers.specs.Laws.{AnswersIgnoreOrder, QuestionsIgnoreOrder, CombinationsAppend};
ghost use Rattle.ssb_answers.specs.Passing.{PlansPass, StarClausesPass};
ghost use Rattle.ssb_answers.specs.Sums.{EverySumFits};
ghost use Rattle.ssb_answers.specs.ColumnValues.{ColumnsHaveTheirValues};

/// What queries read in a column is what the row has at the column's place.
pub fn columns_have_their_values()
    ensures { ColumnsHaveTheirValues }
{}

/// A combination passes exactly where the plan's tests hold of what it has in their columns and its numbers lie in the
/// ranges; of `star`, exactly where its clauses let it pass.
pub fn plans_pass()
    ensures plans { PlansPass }
    ensures clauses { StarClausesPass }
{}

/// With group columns the rows are one for each group among the combinations, strictly in the
/// plan's order, and no other list of rows is.
pub fn rows_list_groups()
    ensures { RowsListGroups }
{}

/// No two rows are of one group.
pub fn rows_have_distinct_groups()
    ensures { RowsHaveDistinctGroups }
{}

/// The sum of each row is the sum over its group's combinations.
pub fn rows_have_their_sums()
    ensures { RowsHaveTheirSums }
{}

/// Without group columns there is one row, whose sum is NULL where there is no combination.
pub fn total_is_one_row()
    ensures { TotalIsOneRow }
{}

/// A rearrangement of the lines has the same answer.
pub fn answers_ignore_order()
    ensures { AnswersIgnoreOrder }
{}

/// A rearrangement of the lines has the same answer to each question.
pub fn questions_ignore_order()
    ensures { QuestionsIgnoreOrder }
{}

/// Over at most 134,217,728 facts, each within the ranges of its columns, the sum of every measure fits an `i64`, and so
/// do its gains and its losses by themselves.
pub fn every_sum_fits()
    ensures { EverySumFits }
{}

/// The combinations over lines in two parts are those over the one and then those over the other.
pub fn combinations_append()
    ensures { CombinationsAppend }
{}
