//! What the bytes of one field spell.

ghost use Rattle.std.specs.Prelude.{◌≡◌, option_map};
ghost use Rattle.ssb_text.specs.Spelling.{text_of, without_spaces};

use std::str;

/// A field without the spaces (byte 32) at its end.
#[inline]
pub fn trimmed(field: &[u8]) -> &[u8]
    ensures { result.now ≡ without_spaces field.now }
{
    let mut end = field.len();
    while end > 0 && field[end - 1] == b' ' {
        end -= 1;
    }
    &field[..end]
}

/// The text that bytes spell, if they are UTF-8.
pub fn text(bytes: &[u8]) -> Option<&str>
    ensures { option_map (λ s. s.now) result ≡ text_of bytes.now }
{
    match str::from_utf8(bytes) {
        Ok(text) => Some(text),
        Err(_) => None,
    }
}
