//! The words that the records of a trace begin with.
ghost use Rattle.std.specs.Prelude.{◌≡◌};
ghost use Rattle.csv.specs.Records.{fields_of};
ghost use Rattle.ssb_trace.specs.Lines as spec;
ghost use Rattle.ssb_trace.specs.Lines.{spelling_of, word_spelled};

use csv::ByteRecord;
use ssb_text::trimmed_at;

/// The first field of a record.
#[derive(Clone, Copy, Debug, PartialEq, Eq)]
pub(crate) enum TraceWord {
    Commit,
    Add,
    Amend,
    Put,
    Line,
    Withdraw,
    End,
    Answer,
    Row,
}

/// All words.
pub(crate) const WORDS: [TraceWord; 9] = [
    TraceWord::Commit,
    TraceWord::Add,
    TraceWord::Amend,
    TraceWord::Put,
    TraceWord::Line,
    TraceWord::Withdraw,
    TraceWord::End,
    TraceWord::Answer,
    TraceWord::Row,
];

impl TraceWord {
    fn spelling(self) -> &'static [u8]
        ensures { result.now ≡ spelling_of self }
    {
        match self {
            TraceWord::Commit => b"commit",
            TraceWord::Add => b"add",
            TraceWord::Amend => b"amend",
            TraceWord::Put => b"put",
            TraceWord::Line => b"line",
            TraceWord::Withdraw => b"withdraw",
            TraceWord::End => b"end",
            TraceWord::Answer => b"answer",
            TraceWord::Row => b"row",
        }
    }

    // The word that bytes spell, letter for letter.
    fn spelled(bytes: &[u8]) -> Option<TraceWord>
        ensures { result ≡ word_spelled bytes.now }
    {
        WORDS.iter().copied().find(|word| word.spelling() == bytes)
    }

    /// The word of a record, if its first field is one.
    #[tactic(auto, unfolding(crate::specs::Lines::word_of))]
    pub(crate) fn of(fields: &ByteRecord) -> Option<TraceWord>
        ensures { result ≡ spec.word_of (fields_of fields.now) }
    {
        TraceWord::spelled(trimmed_at(fields, 0))
    }
}

/// Whether a record of this word is a `line`.
pub(crate) fn is_line(word: Option<TraceWord>) -> bool
    ensures { result ≡ spec.is_line word }
{
    matches!(word, Some(TraceWord::Line))
}
