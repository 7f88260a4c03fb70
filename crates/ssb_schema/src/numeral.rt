//! Numbers as digits write them.

ghost use Rattle.std.specs.Prelude.{◌≡◌, ◌<◌, ◌≤◌, ◌+◌, ◌-◌, ◌*◌, ◌^◌, length, SomeIff};
ghost use Rattle.ssb_schema.specs.Numerals.{number_of};

// The number that one digit more writes, if it fits.
fn push_digit(value: u64, digit: u8) -> Option<u64>
    requires { 48 ≤ digit }
    ensures { SomeIff result (value * 10 + (digit - 48) < 2 ^ 64) (value * 10 + (digit - 48)) }
{
    value.checked_mul(10)?.checked_add(u64::from(digit - b'0'))
}

// The number that 1 to 19 digits write. All of these fit a `u64`, so nothing is checked as the digits are read.
#[inline]
fn short_number(bytes: &[u8]) -> Option<u64>
    requires some { 0 < length bytes.now }
    requires few { length bytes.now ≤ 19 }
    ensures { result ≡ number_of bytes.now }
{
    let mut value = 0u64;
    for b in bytes {
        if !b.is_ascii_digit() {
            return None;
        }
        value = value * 10 + u64::from(*b - b'0');
    }
    Some(value)
}

// The number that 1 to 20 digits write, if it fits a `u64`.
fn long_number(bytes: &[u8]) -> Option<u64>
    requires some { 0 < length bytes.now }
    requires few { length bytes.now ≤ 20 }
    ensures { result ≡ number_of bytes.now }
{
    let mut value = 0u64;
    for b in bytes {
        if !b.is_ascii_digit() {
            return None;
        }
        let Some(next) = push_digit(value, *b) else {
            return None;
        };
        value = next;
    }
    Some(value)
}

/// The number that bytes spell: 1 to 20 digits, leading zeros among them, whose value fits a `u64`.
#[inline]
pub fn number(bytes: &[u8]) -> Option<u64>
    ensures { result ≡ number_of bytes.now }
{
    if bytes.is_empty() || bytes.len() > 20 {
        return None;
    }
    if bytes.len() == 20 {
        return long_number(bytes);
    }
    short_number(bytes)
}
