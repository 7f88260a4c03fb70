//! Sums, as a trace has them.
ghost use Rattle.std.specs.Prelude.{◌≡◌};
ghost use Rattle.ssb_trace.specs.Rows as spec;

use ssb_schema::number;

// The number that 1 to 19 digits spell.
fn amount_of(digits: &[u8]) -> Option<u64>
    ensures { result ≡ spec.amount_of digits.now }
{
    if digits.len() > 19 {
        return None;
    }
    number(digits)
}

fn positive(n: u64) -> Option<i64>
    ensures { result ≡ spec.positive n }
{
    if n < 1 << 63 { Some(n as i64) } else { None }
}

fn negative(n: u64) -> Option<i64>
    ensures { result ≡ spec.negative n }
{
    if n < 1 << 63 {
        Some(-(n as i64))
    } else if n == 1 << 63 {
        Some(i64::MIN)
    } else {
        None
    }
}

/// The number that an optional `-` and 1 to 19 digits spell, if it fits an `i64`.
pub(crate) fn signed_of(bytes: &[u8]) -> Option<i64>
    ensures { result ≡ spec.signed_of bytes.now }
{
    match bytes {
        [] => None,
        [b'-', digits @ ..] => negative(amount_of(digits)?),
        _ => positive(amount_of(bytes)?),
    }
}
