//! What is told of a journal whose head knows the tables by their sizes alone.

use ssb_journal::HeadForm;
use std::io::Write;

/// Tells on a line that the head is of form 1, if it is: then another value in a table, of the same length, goes
/// unseen.
pub fn tell_form<E: Write>(err: &mut E, form: HeadForm) {
    if let HeadForm::Sizes = form {
        let _ = writeln!(err, "ssb_live: journal: form 1, its tables are not checked");
    }
}
