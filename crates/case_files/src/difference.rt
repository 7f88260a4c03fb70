//! Where two texts first differ.

ghost use Rattle.std.specs.Prelude.{◌≡◌, ◌↔◌, IsNone};

use std::fmt;

/// The first line in which two texts differ.
#[derive(Drop)]
pub struct Difference<'a> {
    // How many lines stand before it.
    same: usize,
    // Of both texts, with its end of line; none where the text has ended.
    wanted: Option<&'a [u8]>,
    got: Option<&'a [u8]>,
}

// A line, its bytes escaped.
#[derive(Drop)]
struct ShownLine<'a>(Option<&'a [u8]>);

impl<'a> fmt::Display for ShownLine<'a> {
    fn fmt<W: fmt::Write>(&self, f: &mut fmt::Formatter<W>) -> fmt::Result {
        match self.0 {
            Some(bytes) => write!(f, "\"{}\"", bytes.escape_ascii()),
            None => f.write_str("the end"),
        }
    }
}

impl<'a> fmt::Display for Difference<'a> {
    fn fmt<W: fmt::Write>(&self, f: &mut fmt::Formatter<W>) -> fmt::Result {
        let number = self.same.saturating_add(1);
        let (wanted, got) = (ShownLine(self.wanted), ShownLine(self.got));
        write!(f, "line {number}: wanted {wanted}, got {got}")
    }
}

fn is_line_feed(byte: &u8) -> bool {
    *byte == b'\n'
}

/// Where the texts first differ; nothing where they are the same bytes.
pub fn first_difference<'a>(wanted: &'a [u8], got: &'a [u8]) -> Option<Difference<'a>>
    ensures { IsNone result ↔ (wanted.now ≡ got.now) }
{
    if wanted == got {
        return None;
    }
    let mut wanted_lines = wanted.split_inclusive(is_line_feed);
    let mut got_lines = got.split_inclusive(is_line_feed);
    let same = wanted
        .split_inclusive(is_line_feed)
        .zip(got.split_inclusive(is_line_feed))
        .take_while(|(wanted, got)| wanted == got)
        .count();
    Some(Difference {
        same,
        wanted: wanted_lines.nth(same),
        got: got_lines.nth(same),
    })
}
