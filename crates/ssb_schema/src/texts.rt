//! The three texts of a line, one behind the other.

ghost use Rattle.std.specs.Prelude.{◌≡◌, ◌≤◌, ◌+◌, ◌-◌, ◌++◌, IfOk, length, take, drop};

use std::alloc::{AllocError, Global};
use std::marker::Model;
use std::str;

// How many bytes lie in the value itself.
const ROOM: usize = 28;

// Texts that are longer together have memory of their own.
#[derive(Clone, Drop)]
struct Apart {
    order_priority: String,
    ship_priority: String,
    ship_mode: String,
}

// Up to 28 bytes of three texts lie one behind the other: the first up to `first`, the second up to `second` and the
// third up to `len`. Both forms take 32 bytes.
#[derive(Clone, Drop)]
enum Kept {
    Short {
        first: u8,
        second: u8,
        len: u8,
        bytes: [u8; 28],
    },
    Long(Box<Apart>),
}

/// The texts of a line: LO_ORDERPRIORITY, LO_SHIPPRIORITY and LO_SHIPMODE. Contracts see the three.
#[derive(Clone)]
pub struct LineTexts {
    kept: Kept,
}

impl Drop for LineTexts {
    fn drop(self) {
        let LineTexts { kept: _ } = self;
    }
}

impl Model for LineTexts {
    ghost use Rattle.ssb_schema.specs.Kept.{IsKept, kept_texts};
    ghost use Rattle.ssb_schema.specs.Texts.{Texts};

    ghost Value = { Texts };

    ghost view = { λ t. kept_texts t.kept };

    ghost invariant = { λ t. IsKept t.kept };
}

// Puts a text into bytes at a place.
fn put(bytes: &mut [u8], at: usize, text: &str)
    requires { at + length text.now ≤ length bytes.old }
    ensures { bytes.new ≡ take at bytes.old ++ text.now ++ drop (at + length text.now) bytes.old }
{
    bytes[at..at + text.len()].copy_from_slice(text.as_bytes());
}

impl LineTexts {
    ghost use Rattle.ssb_schema.specs.Texts.{texts_of};

    // Texts that have up to 28 bytes together, which take no memory.
    fn short(order_priority: &str, ship_priority: &str, ship_mode: &str) -> LineTexts
        requires { length order_priority.now + length ship_priority.now + length ship_mode.now ≤ 28 }
        ensures { result ≡ texts_of order_priority.now ship_priority.now ship_mode.now }
    {
        let first = order_priority.len();
        let second = first + ship_priority.len();
        let len = second + ship_mode.len();
        let mut bytes = [0u8; ROOM];
        put(&mut bytes, 0, order_priority);
        put(&mut bytes, first, ship_priority);
        put(&mut bytes, second, ship_mode);
        LineTexts {
            kept: Kept::Short {
                first: first as u8,
                second: second as u8,
                len: len as u8,
                bytes,
            },
        }
    }

    // Texts with memory of their own.
    fn long(
        alloc: Global,
        order_priority: &str,
        ship_priority: &str,
        ship_mode: &str,
    ) -> Result<LineTexts, AllocError>
        ensures { IfOk result (λ texts. texts ≡ texts_of order_priority.now ship_priority.now ship_mode.now) }
    {
        let apart = Apart {
            order_priority: String::from_str(alloc, order_priority)?,
            ship_priority: String::from_str(alloc, ship_priority)?,
            ship_mode: String::from_str(alloc, ship_mode)?,
        };
        match Box::new(alloc, apart) {
            Ok(apart) => Ok(LineTexts {
                kept: Kept::Long(apart),
            }),
            Err(_) => Err(AllocError),
        }
    }

    /// These texts, which take memory where they have more than 28 bytes together.
    pub fn new(
        alloc: Global,
        order_priority: &str,
        ship_priority: &str,
        ship_mode: &str,
    ) -> Result<LineTexts, AllocError>
        ensures { IfOk result (λ texts. texts ≡ texts_of order_priority.now ship_priority.now ship_mode.now) }
    {
        let (first, second, third) = (order_priority.len(), ship_priority.len(), ship_mode.len());
        if first <= ROOM && second <= ROOM && third <= ROOM && first + second + third <= ROOM {
            return Ok(LineTexts::short(order_priority, ship_priority, ship_mode));
        }
        LineTexts::long(alloc, order_priority, ship_priority, ship_mode)
    }

    /// LO_ORDERPRIORITY.
    pub fn order_priority(&self) -> &str
        ensures { result.now ≡ self.now.order_priority }
    {
        match &self.kept {
            Kept::Short { first, bytes, .. } => unsafe {
                str::from_utf8_unchecked(&bytes[..*first as usize])
            },
            Kept::Long(apart) => apart.order_priority.as_str(),
        }
    }

    /// LO_SHIPPRIORITY.
    pub fn ship_priority(&self) -> &str
        ensures { result.now ≡ self.now.ship_priority }
    {
        match &self.kept {
            Kept::Short {
                first,
                second,
                bytes,
                ..
            } => unsafe { str::from_utf8_unchecked(&bytes[*first as usize..*second as usize]) },
            Kept::Long(apart) => apart.ship_priority.as_str(),
        }
    }

    /// LO_SHIPMODE.
    pub fn ship_mode(&self) -> &str
        ensures { result.now ≡ self.now.ship_mode }
    {
        match &self.kept {
            Kept::Short {
                second,
                len,
                bytes,
                ..
            } => unsafe { str::from_utf8_unchecked(&bytes[*second as usize..*len as usize]) },
            Kept::Long(apart) => apart.ship_mode.as_str(),
        }
    }
}
