//! The words that records begin with, but for the one that asks.

ghost use Rattle.std.specs.Prelude.{◌≡◌, find};
ghost use Rattle.terminal.specs.Typed.{record_spelling};
ghost use Rattle.terminal.specs.Typed as spec;

use crate::fields::{are_alike, trimmed};

/// The word that a record begins with which is no question.
#[derive(Clone, Copy, Debug, PartialEq, Eq)]
pub enum RecordWord {
    Format,
    Columns,
    Values,
    Begin,
    Add,
    Amend,
    Put,
    Line,
    Withdraw,
    Commit,
    Ask,
    Answer,
    Order,
    Abort,
}

/// Those of records whose fields bars part.
pub(crate) const BARRED: [RecordWord; 1] = [RecordWord::Format];

/// Those of records whose fields blanks part: all.
pub(crate) const BLANK: [RecordWord; 14] = [
    RecordWord::Format,
    RecordWord::Columns,
    RecordWord::Values,
    RecordWord::Begin,
    RecordWord::Add,
    RecordWord::Amend,
    RecordWord::Put,
    RecordWord::Line,
    RecordWord::Withdraw,
    RecordWord::Commit,
    RecordWord::Ask,
    RecordWord::Answer,
    RecordWord::Order,
    RecordWord::Abort,
];

impl RecordWord {
    /// How it is spelled.
    pub(crate) fn spelling(self) -> &'static [u8]
        ensures { result.now ≡ record_spelling self }
    {
        match self {
            RecordWord::Format => b"format",
            RecordWord::Columns => b"columns",
            RecordWord::Values => b"values",
            RecordWord::Begin => b"begin",
            RecordWord::Add => b"add",
            RecordWord::Amend => b"amend",
            RecordWord::Put => b"put",
            RecordWord::Line => b"line",
            RecordWord::Withdraw => b"withdraw",
            RecordWord::Commit => b"commit",
            RecordWord::Ask => b"ask",
            RecordWord::Answer => b"answer",
            RecordWord::Order => b"order",
            RecordWord::Abort => b"abort",
        }
    }

    /// The one of these words that a field is, in any case.
    pub(crate) fn among(words: &[RecordWord], field: &[u8]) -> Option<RecordWord>
        ensures { result ≡ spec.word_among words.now field.now }
    {
        let text = trimmed(field);
        words
            .iter()
            .copied()
            .find(|word| are_alike(word.spelling(), text))
    }
}
