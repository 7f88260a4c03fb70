//! Zones: which rows the lines of each chunk of places name, by a coarse code of 64.
ghost use Rattle.std.specs.Prelude.{◌≡◌, ◌<◌, ℕ};
ghost use Rattle.scan_kernel.specs.Zones.{HasCode, coarse};

/// How many places a chunk has: what a scan finds of them stays in the nearest cache, and it looks at all of them or
/// at none.
pub const CHUNK: usize = 2048;

/// Of one dimension the coarse codes of its rows, and for each chunk of places the set of the codes of the rows that its
/// lines name: bit c is set where some line of the chunk names a row of code c.
#[derive(Clone, Copy)]
pub struct Zones<'a> {
    /// By row; a row that has none has the code 0.
    pub codes: &'a [u8],
    /// By chunk.
    pub sets: &'a [u64],
}

/// The coarse code of a row.
#[inline(always)]
pub fn coarse_code(codes: &[u8], row: usize) -> u8
    ensures code { result ≡ coarse codes.now row }
    ensures small { result < 64 }
{
    match codes.get(row) {
        Some(code) => *code % 64,
        None => 0,
    }
}

/// The set with a code more.
#[inline(always)]
pub fn with_code(set: u64, code: u8) -> u64
    requires { code < 64 }
    ensures here { HasCode result code }
    ensures kept { (other : ℕ) → HasCode set other → HasCode result other }
{
    set | (1 << code)
}
