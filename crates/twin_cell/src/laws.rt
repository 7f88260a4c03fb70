//! What holds of every copy: the law is the contract of a function that does nothing.
ghost use Rattle.twin_cell.specs.Laws.{ToldNumberIsToldList};

/// A copy that has as many commits as its reader was told stands for exactly the told commits.
pub fn told_number_is_told_list()
    ensures { ToldNumberIsToldList }
{}
