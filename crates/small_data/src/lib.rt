//! The small data set that is built into the program: five texts, as the benchmark's table files have them, over which
//! each query can be answered by hand.
//!
//! The one contract, of [`tables`]: it reads the texts that stand, byte by byte, in `specs/SmallTexts.antt`.
//!
//! ```text
//! let base = load(rt, alloc, Limits::standard(), 64, tables())?;
//! ```
#![tactic(auto)]

pub mod stored;

ghost use Rattle.std.specs.Prelude.{Some};
ghost use Rattle.ssb_text.specs.Load.{AreTexts};
ghost use Rattle.small_data.specs.SmallTexts.{small_texts};

use ssb_text::Tables;

/// Its customers.
pub const CUSTOMER: &str = "\
1|C1|a|UNITED KI1|UNITED KINGDOM|EUROPE|p|m|
2|C2|a|CHINA    0|CHINA|ASIA|p|m|
3|C3|a|UNITED ST4|UNITED STATES|AMERICA|p|m|
";

/// Its suppliers.
pub const SUPPLIER: &str = "\
1|S1|a|UNITED KI5|UNITED KINGDOM|EUROPE|p|
2|S2|a|JAPAN    3|JAPAN|ASIA|p|
3|S3|a|UNITED ST7|UNITED STATES|AMERICA|p|
";

/// Its parts.
pub const PART: &str = "\
1|P1|MFGR#1|MFGR#12|MFGR#121|c|t|1|b|
2|P2|MFGR#2|MFGR#22|MFGR#2221|c|t|1|b|
3|P3|MFGR#2|MFGR#22|MFGR#222|c|t|1|b|
4|P4|MFGR#1|MFGR#14|MFGR#1440|c|t|1|b|
";

/// Its dates.
pub const DATE: &str = "\
19930101|d|w|m|1993|199301|Jan1993|1|1|1|1|1|s|0|0|0|1|
19940105|d|w|m|1994|199401|Jan1994|1|1|1|1|1|s|0|0|0|1|
19940208|d|w|m|1994|199402|Feb1994|1|1|1|1|6|s|0|0|0|1|
19971215|d|w|m|1997|199712|Dec1997|1|1|1|1|50|s|0|0|0|1|
";

/// Its loaded lines.
pub const LINEORDER: &str = "\
1|1|2|2|2|19930101|o|0|24|1000|3000|3|970|600|0|19930101|AIR|
1|2|2|3|2|19930101|o|0|25|2000|3000|1|1980|1200|0|19930101|AIR|
2|1|1|1|1|19971215|o|0|10|500|500|0|500|700|0|19971215|AIR|
3|1|3|4|3|19971215|o|0|30|800|800|5|760|100|0|19971215|AIR|
";

/// The five texts, as readers.
pub fn tables() -> Tables<&'static [u8]>
    ensures { AreTexts (λ source. Some source.now) result small_texts }
{
    Tables {
        customer: CUSTOMER.as_bytes(),
        supplier: SUPPLIER.as_bytes(),
        part: PART.as_bytes(),
        date: DATE.as_bytes(),
        lineorder: LINEORDER.as_bytes(),
    }
}
