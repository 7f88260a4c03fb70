//! Which lines a statement reads.

ghost use Rattle.std.specs.Prelude.{◌≡◌, ◌++◌, OnOk, map};
ghost use Rattle.std.specs.String.{string_bytes};
ghost use Rattle.ssb_explain.specs.Lines as spec;

use std::alloc::{AllocError, Global};

/// The lines that a statement reads.
#[derive(Clone, Copy, Debug, PartialEq, Eq)]
pub enum ReadLines {
    /// Those of the table of lines.
    Lineorder,
    /// Those that are live after so many commits, by the table of signed lines.
    AsOf(u64),
}

/// The name of the table that has the lines.
pub fn lines_table(lines: ReadLines) -> &'static str
    ensures { result.now ≡ spec.lines_table lines }
{
    match lines {
        ReadLines::Lineorder => "lineorder",
        ReadLines::AsOf(_) => "signed_lines",
    }
}

/// The name of the column of signs, where there is one.
pub fn sign_names(lines: ReadLines) -> &'static [&'static str]
    ensures { map (λ name. name.now) result.now ≡ spec.sign_names lines }
{
    match lines {
        ReadLines::Lineorder => &[],
        ReadLines::AsOf(_) => &["sign"],
    }
}

/// Which groups have lines, where this has to be said.
pub fn having(lines: ReadLines) -> &'static str
    ensures { result.now ≡ spec.having lines }
{
    match lines {
        ReadLines::Lineorder => "",
        ReadLines::AsOf(_) => "\nHAVING sum(sign) > 0",
    }
}

/// The condition of the commits, where there is one.
pub fn add_commit_condition(
    alloc: Global,
    found: &mut Vec<String>,
    lines: ReadLines,
) -> Result<(), AllocError>
    ensures { OnOk result (map string_bytes found.new.items
        ≡ map string_bytes found.old.items ++ spec.commit_conditions lines) }
{
    if let ReadLines::AsOf(commits) = lines {
        let commits = commits.to_string(alloc)?;
        found.push(["commit_number <= ", commits.as_str()].concat(alloc)?)?;
    }
    Ok(())
}
