//! That the model of a folder is no empty one: a law is the contract of a function that does nothing.

ghost use Rattle.std.specs.Prelude.{List};
ghost use Rattle.table_folder.specs.Calls.{FolderCall, Leaves, Shows};

/// After all calls something stands under the names, and a crash may leave just that.
pub fn a_crash_leaves_something()
    ensures { (calls : List FolderCall) → (found : _) × Shows calls found × Leaves calls found }
{}
