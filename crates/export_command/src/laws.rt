//! What holds of the tables after every history: each law is the contract of a function that does nothing.

ghost use Rattle.export_command.specs.After.{LinesStand, TablesAfterAreSound};

/// The lines after a history are the loaded lines that stand after its actions, and then those that the actions added
/// and that stand, action by action. The tables after a legal one, whose actions add orders, keep what those of a base
/// keep.
pub fn tables_after_are_sound()
    ensures lines { LinesStand }
    ensures sound { TablesAfterAreSound }
{}
