//! What a run leaves behind: its commits, and what its clients were told.

use row_store::Commit;
use ssb_answers::ResultRow;
use ssb_questions::Question;
use ssb_schema::Items;

/// An answer that a client got: the rows of its question after the first `at` commits.
pub struct Told {
    pub client: u32,
    pub at: u64,
    pub question: Question,
    pub rows: Items<ResultRow>,
}

impl Drop for Told {
    fn drop(self) {
        let Told {
            client: _,
            at: _,
            question: _,
            rows: _,
        } = self;
    }
}

/// The commits of a run, in the order of its log, and the answers that its clients got, each client's in the order in
/// which it got them.
#[derive(Drop)]
pub struct Trace {
    pub commits: Items<Commit>,
    pub answers: Items<Told>,
}
