//! How large a warehouse may grow.

ghost use Rattle.std.specs.Prelude.{◌≡◌, ◌≤◌, ◌↔◌, IsSome, IfSome};

/// The greatest number of rows of a dimension.
pub const MOST_DIMENSION_ROWS: usize = 1_048_576;

/// The greatest number of live lines: the sum of any measure over so many lines fits an `i64`.
pub const MOST_LINES: usize = 134_217_728;

/// The greatest number of commits: 2^56.
pub const MOST_COMMITS: u64 = 72_057_594_037_927_936;

/// How many commits a warehouse may have whose history is kept whole beside it, as a run's in its trace.
pub const STANDARD_COMMITS: u64 = 1_000_000;

/// How many rows each dimension, how many live lines and how many commits a warehouse may have.
#[derive(Clone, Copy, Debug, PartialEq, Eq)]
pub struct Limits {
    /// Rows of each dimension, 1 to 1,048,576.
    pub dimension_rows: usize,
    /// Live lines, up to 134,217,728.
    pub lines: usize,
    /// Commits, 1 to 2^56.
    pub commits: u64,
    ghost dimension_rows_range: { (1 ≤ dimension_rows) × (dimension_rows ≤ 1048576) },
    ghost lines_range: { lines ≤ 134217728 },
    ghost commits_range: { (1 ≤ commits) × (commits ≤ 72057594037927936) },
}

impl Limits {
    ghost use Rattle.ssb_base.specs.Limits.{AreLimits, limits_of, most_dimension_rows, most_lines, most_commits, standard_commits};

    /// These limits; none unless there are 1 to 1,048,576 rows of a dimension, up to 134,217,728 lines and 1 to
    /// 2^56 commits.
    pub fn new(dimension_rows: usize, lines: usize, commits: u64) -> Option<Limits>
        ensures given { IsSome result ↔ AreLimits dimension_rows lines commits }
        ensures values { IfSome result (λ limits. limits_of limits ≡ (dimension_rows, lines, commits)) }
    {
        if dimension_rows == 0 || dimension_rows > MOST_DIMENSION_ROWS {
            return None;
        }
        if lines > MOST_LINES || commits == 0 || commits > MOST_COMMITS {
            return None;
        }
        Some(Limits {
            dimension_rows,
            lines,
            commits,
        })
    }

    /// The greatest limits of a warehouse whose history is kept whole beside it.
    pub fn standard() -> Limits
        ensures { limits_of result ≡ (most_dimension_rows, most_lines, standard_commits) }
    {
        Limits {
            dimension_rows: MOST_DIMENSION_ROWS,
            lines: MOST_LINES,
            commits: STANDARD_COMMITS,
        }
    }

    /// The greatest limits.
    pub fn greatest() -> Limits
        ensures { limits_of result ≡ (most_dimension_rows, most_lines, most_commits) }
    {
        Limits {
            dimension_rows: MOST_DIMENSION_ROWS,
            lines: MOST_LINES,
            commits: MOST_COMMITS,
        }
    }
}
