//! Which requests stand whole at the front of bytes.

ghost use Rattle.std.specs.Prelude.{◌≡◌, ◌<◌, ◌≤◌, true, false, length, drop, IfSome, IfNone};
ghost use Rattle.ssb_script.specs.Ahead.{IsWhole, StandFirst};
ghost use Rattle.ssb_script.specs.Cutting.{BeginsWithRequest, IsUnfinished};

use crate::block::{begun_behind, ends_request};
use crate::pieces::line_length;

/// How many bytes the request takes that stands whole at the front of these bytes, if one does.
pub fn request_length(bytes: &[u8]) -> Option<usize>
    ensures whole { IfSome result (λ size. IsWhole size bytes.now) }
    ensures none { IfNone result (IsUnfinished bytes.now) }
{
    let mut rest = bytes;
    let mut begun = None;
    while let Some(count) = line_length(rest) {
        let (line, behind) = rest.split_at(count);
        if ends_request(begun, line) {
            return Some(bytes.len() - behind.len());
        }
        begun = begun_behind(begun, line);
        rest = behind;
    }
    None
}

/// Whether a whole request stands at the front of these bytes.
pub fn has_request(bytes: &[u8]) -> bool
    ensures whole { result ≡ true → BeginsWithRequest bytes.now }
    ensures none { result ≡ false → IsUnfinished bytes.now }
{
    match request_length(bytes) {
        Some(_) => true,
        None => false,
    }
}

/// Whole requests at the front of bytes.
#[derive(Clone, Copy, Debug, PartialEq, Eq)]
pub struct AtHand {
    /// How many they are.
    pub count: usize,
    /// How many bytes they take.
    pub size: usize,
}

/// The whole requests at the front of these bytes: all of them, or the first so many.
pub fn requests_at_hand(bytes: &[u8], most: usize) -> AtHand
    ensures within { result.size ≤ length bytes.now }
    ensures most { result.count ≤ most }
    ensures first { StandFirst result.count result.size bytes.now }
    ensures all { result.count < most → IsUnfinished (drop result.size bytes.now) }
{
    let mut rest = bytes;
    for count in 0..most {
        let Some(size) = request_length(rest) else {
            return AtHand {
                count,
                size: bytes.len() - rest.len(),
            };
        };
        let (_, behind) = rest.split_at(size);
        rest = behind;
    }
    AtHand {
        count: most,
        size: bytes.len() - rest.len(),
    }
}
