//! Requests of several lines, and what a line is to the request that is being read.

ghost use Rattle.std.specs.Prelude.{◌≡◌};
ghost use Rattle.std.specs.Io.BufRead.{strip_last};
ghost use Rattle.csv.specs.Reading.{strip_bom};
ghost use Rattle.ssb_script.specs.Blocks as spec;

use crate::word::ScriptWord;
use ssb_text::trimmed;

/// A request of several lines.
#[derive(Clone, Copy, Debug, PartialEq, Eq)]
pub enum BlockKind {
    /// A refresh, from a `begin` through the first `commit` or `abort`.
    Refreshing,
    /// Questions, from an `ask` through the first `answer` or `abort`.
    Asking,
}

// The bytes without the last, if that is this byte.
fn without_last(bytes: &[u8], last: u8) -> &[u8]
    ensures { result.now ≡ strip_last last bytes.now }
{
    match bytes.split_last() {
        Some((byte, rest)) if *byte == last => rest,
        _ => bytes,
    }
}

// The bytes without a byte order mark at their start.
#[tactic(auto, unfolding(csv::specs::Reading::strip_bom))]
fn without_mark(bytes: &[u8]) -> &[u8]
    ensures { result.now ≡ strip_bom bytes.now }
{
    match bytes {
        [0xEF, 0xBB, 0xBF, rest @ ..] => rest,
        _ => bytes,
    }
}

// The text that a line has alone.
fn text_alone(line: &[u8]) -> &[u8]
    ensures { result.now ≡ spec.text_alone line.now }
{
    trimmed(without_last(without_last(without_last(line, b'\n'), b'\r'), b'|'))
}

// Whether a line has this word alone.
#[tactic(auto, unfolding(crate::specs::Blocks::has_alone))]
fn has_alone(word: ScriptWord, line: &[u8]) -> bool
    ensures { result ≡ spec.has_alone word line.now }
{
    text_alone(line) == word.spelling()
}

// The block that a line begins.
fn opens(line: &[u8]) -> Option<BlockKind>
    ensures { result ≡ spec.opens line.now }
{
    let line = without_mark(line);
    if has_alone(ScriptWord::Begin, line) {
        Some(BlockKind::Refreshing)
    } else if has_alone(ScriptWord::Ask, line) {
        Some(BlockKind::Asking)
    } else {
        None
    }
}

// Whether a line ends a block.
fn closes(block: BlockKind, line: &[u8]) -> bool
    ensures { result ≡ spec.closes block line.now }
{
    let own = match block {
        BlockKind::Refreshing => ScriptWord::Commit,
        BlockKind::Asking => ScriptWord::Answer,
    };
    has_alone(own, line) || has_alone(ScriptWord::Abort, line)
}

/// Whether a line ends the block that was begun, or, where none was, is a request.
pub fn ends_request(begun: Option<BlockKind>, line: &[u8]) -> bool
    ensures { result ≡ spec.ends_request begun line.now }
{
    match begun {
        Some(block) => closes(block, line),
        None => opens(line).is_none(),
    }
}

/// The block that is begun behind a line which ends no request.
pub fn begun_behind(begun: Option<BlockKind>, line: &[u8]) -> Option<BlockKind>
    ensures { result ≡ spec.begun_behind begun line.now }
{
    match begun {
        Some(block) => Some(block),
        None => opens(line),
    }
}
