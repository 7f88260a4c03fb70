//! The line above the rows of an answer that people read.

ghost use Rattle.std.specs.Prelude.{◌≡◌, ◌++◌, OnOk};
ghost use Rattle.ssb_formats.specs.Title.{as_of, commit_text, count_text, title_text};

use itoa::Buffer;
use ssb_questions::Query;
use std::alloc::AllocError;

// Adds how many rows there are.
pub(crate) fn push_count(text: &mut Vec<u8>, count: usize) -> Result<(), AllocError>
    ensures { OnOk result (text.new.items ≡ text.old.items ++ count_text count) }
{
    let word = if count == 1 { " row" } else { " rows" };
    text.extend_from_slice(Buffer::new().format(count).as_bytes())?;
    text.extend_from_slice(word.as_bytes())
}

// What stands before the number of commits.
#[tactic(auto, unfolding(crate::specs::Title::as_of))]
fn as_of() -> &'static str
    ensures { result.now ≡ as_of }
{
    ", as of commit "
}

// Adds after how many commits the rows are so.
pub(crate) fn push_commit(text: &mut Vec<u8>, at: u64) -> Result<(), AllocError>
    ensures { OnOk result (text.new.items ≡ text.old.items ++ commit_text at) }
{
    text.extend_from_slice(as_of().as_bytes())?;
    text.extend_from_slice(Buffer::new().format(at).as_bytes())?;
    Ok(text.push(b'\n')?)
}

/// Adds the title: the query, how many rows there are, and after how many commits.
pub(crate) fn push_title(
    text: &mut Vec<u8>,
    query: Query,
    at: u64,
    count: usize,
) -> Result<(), AllocError>
    ensures { OnOk result (text.new.items ≡ text.old.items ++ title_text query at count) }
{
    text.extend_from_slice(query.name().as_bytes())?;
    text.extend_from_slice(b": ")?;
    push_count(text, count)?;
    push_commit(text, at)
}
