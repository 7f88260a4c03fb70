//! The texts of rows and questions.

ghost use Rattle.std.specs.Prelude.{◌≡◌, ◌≤◌, IfOk, length, nat_eq, refl, Some};
ghost use Rattle.std.specs.Cmp.{partial_equiv_from_equiv};
ghost use Rattle.std.specs.Cmp.Lexicographic.{pointwise, slice_cmp, nat_list_eq_equiv, nat_list_cmp_total};
ghost use Rattle.std.specs.Cmp.Lexicographic.{texts_ties, texts_po};
ghost use Rattle.std.specs.Ordering.{nat_cmp};
ghost use Rattle.std.specs.String.{string_bytes};

use std::alloc::{AllocError, Global};
use std::cmp::Ordering;
use std::marker::Model;
use std::{fmt, str};

// Up to 30 bytes lie in the value itself, and more in memory of their own: both forms take 32 bytes.
#[derive(Clone, Drop)]
enum HeldText {
    Short { len: u8, bytes: [u8; 30] },
    Long(String),
}

/// A text, which contracts see as its UTF-8 bytes. It is compared and ordered by them.
#[derive(Clone)]
pub struct Text {
    held: HeldText,
}

impl Drop for Text {
    fn drop(self) {
        let Text { held: _ } = self;
    }
}

impl Model for Text {
    ghost use Rattle.std.specs.Prelude.{ℕ, List};
    ghost use Rattle.ssb_schema.specs.Held.{held_bytes, IsHeld};

    ghost Value = { List ℕ };

    ghost view = { λ t. held_bytes t.held };

    ghost invariant = { λ t. IsHeld t.held };
}

impl Text {
    // A text of up to 30 bytes, which takes no memory.
    fn short(text: &str) -> Text
        requires { length text.now ≤ 30 }
        ensures { result ≡ text.now }
    {
        let len = text.len();
        let mut bytes = [0u8; 30];
        bytes[..len].copy_from_slice(text.as_bytes());
        Text {
            held: HeldText::Short {
                len: len as u8,
                bytes,
            },
        }
    }

    /// This text, which takes no memory.
    pub fn new(text: String) -> Text
        ensures { result ≡ string_bytes text }
    {
        if text.len() <= 30 {
            return Text::short(text.as_str());
        }
        Text {
            held: HeldText::Long(text),
        }
    }

    /// A copy of this text, which takes memory where it has more than 30 bytes.
    pub fn from_str(alloc: Global, text: &str) -> Result<Text, AllocError>
        ensures { IfOk result (λ copy. copy ≡ text.now) }
    {
        if text.len() <= 30 {
            return Ok(Text::short(text));
        }
        Ok(Text {
            held: HeldText::Long(String::from_str(alloc, text)?),
        })
    }

    /// The text.
    pub fn as_str(&self) -> &str
        ensures { result.now ≡ self.now }
    {
        match &self.held {
            HeldText::Short { len, bytes } => unsafe {
                str::from_utf8_unchecked(&bytes[..*len as usize])
            },
            HeldText::Long(text) => text.as_str(),
        }
    }
}

impl fmt::Display for Text {
    fn fmt<W: fmt::Write>(&self, f: &mut fmt::Formatter<W>) -> fmt::Result {
        f.write_str(self.as_str())
    }
}

impl fmt::Debug for Text {
    fn fmt<W: fmt::Write>(&self, f: &mut fmt::Formatter<W>) -> fmt::Result {
        fmt::Debug::fmt(self.as_str(), f)
    }
}

impl PartialEq for Text {
    ghost eq = { pointwise nat_eq };

    ghost laws = { partial_equiv_from_equiv nat_list_eq_equiv };

    fn eq(&self, other: &Text) -> bool {
        self.as_str() == other.as_str()
    }
}

impl Eq for Text {
    ghost laws = { nat_list_eq_equiv };
}

impl PartialOrd for Text {
    ghost partial_cmp = { λ x y. Some (slice_cmp nat_cmp x y) };

    ghost laws = { texts_po };

    fn partial_cmp(&self, other: &Text) -> Option<Ordering> {
        Some(self.cmp(other))
    }
}

impl Ord for Text {
    ghost cmp = { slice_cmp nat_cmp };

    ghost total = { nat_list_cmp_total };

    ghost matches_partial_cmp = { λ x y. refl };

    ghost matches_eq = { texts_ties };

    fn cmp(&self, other: &Text) -> Ordering {
        self.as_str().cmp(other.as_str())
    }
}
