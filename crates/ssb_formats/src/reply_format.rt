//! The formats of a live session.

ghost use Rattle.std.specs.Prelude.{◌≡◌};
ghost use Rattle.ssb_formats.specs.ReplyFormats.{answer_format, format_name, format_named};

use crate::format::Format;

/// How the replies of a session are written.
#[derive(Clone, Copy, Debug, PartialEq, Eq)]
pub enum ReplyFormat {
    /// The lines of the report.
    Report,
    /// Tables whose columns stand below one another.
    Table,
    /// Comma-separated values, below the names of the columns.
    Csv,
    /// A line of JSON for each reply.
    Json,
    /// Tables of Markdown.
    Markdown,
    /// Bars, beside the group columns and the sums.
    Bars,
}

/// All formats of a session.
pub const REPLY_FORMATS: [ReplyFormat; 6] = [
    ReplyFormat::Report,
    ReplyFormat::Table,
    ReplyFormat::Csv,
    ReplyFormat::Json,
    ReplyFormat::Markdown,
    ReplyFormat::Bars,
];

// How many columns of a terminal the bars of a session may take.
const BARS_WIDTH: usize = 80;

impl ReplyFormat {
    /// How it is named.
    pub fn name(self) -> &'static str
        ensures { result.now ≡ format_name self }
    {
        match self {
            ReplyFormat::Report => "report",
            ReplyFormat::Table => "table",
            ReplyFormat::Csv => "csv",
            ReplyFormat::Json => "json",
            ReplyFormat::Markdown => "markdown",
            ReplyFormat::Bars => "bars",
        }
    }

    /// The format that bytes name, letter for letter.
    pub fn named(bytes: &[u8]) -> Option<ReplyFormat>
        ensures { result ≡ format_named bytes.now }
    {
        REPLY_FORMATS
            .iter()
            .copied()
            .find(|format| format.name().as_bytes() == bytes)
    }

    /// How answers are written in it.
    pub(crate) fn of_answers(self) -> Format
        ensures { result ≡ answer_format self }
    {
        match self {
            ReplyFormat::Report => Format::Report,
            ReplyFormat::Table => Format::Table,
            ReplyFormat::Csv => Format::Csv,
            ReplyFormat::Json => Format::Json,
            ReplyFormat::Markdown => Format::Markdown,
            ReplyFormat::Bars => Format::Bars { width: BARS_WIDTH },
        }
    }
}
