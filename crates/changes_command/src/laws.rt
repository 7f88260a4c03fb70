//! What holds of the signed lines of every history: the law is the contract of a function that does nothing.

ghost use Rattle.changes_command.specs.Laws.{SignsAddUp};

/// The signs add up: for each line and each n, those up to the nth commit tell how often the line is among the lines
/// after the first n commits, however many came before these.
pub fn signs_add_up()
    ensures { SignsAddUp }
{}
