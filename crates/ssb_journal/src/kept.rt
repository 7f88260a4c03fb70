//! What a journal's file keeps.
ghost use Rattle.std.specs.Prelude.{◌≡◌, length};

use crate::head::HeadForm;
use ghost_list::GhostList;
use row_store::Commit;

/// What a journal's file keeps.
#[derive(Drop)]
pub struct KeptCommits {
    /// Its commits, in order. No memory holds them.
    pub commits: GhostList<Commit>,
    /// How many they are.
    pub count: u64,
    /// The form of its head: whether it knows the tables by their checksums.
    pub form: HeadForm,
    /// Whether it is a new one, which has no head yet.
    pub is_new: bool,
    pub ghost counted: { count ≡ length commits.items },
}
