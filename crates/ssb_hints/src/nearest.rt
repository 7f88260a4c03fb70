//! The name that is meant, it may be.

use std::alloc::{AllocError, Global};
use strsim::levenshtein;

// A text in capitals.
fn in_capitals(alloc: Global, text: &str) -> Result<String, AllocError> {
    let mut text = String::from_str(alloc, text)?;
    text.make_ascii_uppercase();
    Ok(text)
}

/// The first of the names that differs from a text in the fewest letters, whatever their case; none where all differ in
/// more than so many, or in all.
pub fn nearest<'a>(
    alloc: Global,
    text: &str,
    names: &[&'a str],
    most_wrong: usize,
) -> Result<Option<&'a str>, AllocError> {
    let text = in_capitals(alloc, text)?;
    let mut found = None;
    let mut fewest = usize::MAX;
    for name in names {
        let capitals = in_capitals(alloc, name)?;
        let wrong = levenshtein(alloc, text.as_str(), capitals.as_str())?;
        if wrong <= most_wrong && wrong < fewest && wrong < name.len() {
            found = Some(*name);
            fewest = wrong;
        }
    }
    Ok(found)
}
