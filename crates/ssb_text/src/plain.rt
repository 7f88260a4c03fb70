//! Plain texts, which can be parted behind each LF.

ghost use Rattle.std.specs.Prelude.{◌↔◌, IsTrue};
ghost use Rattle.ssb_text.specs.TextLines.{IsPlainText};

use memchr::memchr2;

// The first byte of a byte order mark.
const MARK: u8 = 0xEF;

/// Whether a text is plain: each CR stands before an LF, and no byte begins a byte order mark. The records of a plain
/// text are those of its lines, each read as a text of its own.
pub fn is_plain_text(bytes: &[u8]) -> bool
    ensures { IsTrue result ↔ IsPlainText bytes.now }
{
    let mut rest = bytes;
    while let Some(at) = memchr2(b'\r', MARK, rest) {
        let (_, found) = rest.split_at(at);
        let Some(behind) = found.strip_prefix(b"\r\n".as_slice()) else {
            return false;
        };
        rest = behind;
    }
    true
}
