//! Many requests, read together as one script: one reader of records serves them all.

ghost use Rattle.std.specs.Prelude.{map, IfSome};
ghost use Rattle.ssb_script.specs.Ahead.{AskInTurn};
ghost use Rattle.ssb_script.specs.Requests.{request_of};

use crate::request::Request;
use crate::script::{MOST_RECORDS, read_script};
use ssb_text::is_plain_text;
use std::alloc::Global;

/// Reads a text of so many requests as one script, and gives what they ask, one thing each, in order. None where the
/// text has a CR without an LF or may have a byte order mark, where it has a fault, and where some request asks
/// nothing: then its requests are to be read one by one.
pub fn read_together(alloc: Global, text: &[u8], count: usize) -> Option<Vec<Request>>
    ensures { IfSome result (λ asked. AskInTurn count text.now (map request_of asked.items)) }
{
    if !is_plain_text(text) {
        return None;
    }
    let Ok(script) = read_script(alloc, text, MOST_RECORDS) else {
        return None;
    };
    if script.requests.len() != count {
        return None;
    }
    Some(script.requests)
}
