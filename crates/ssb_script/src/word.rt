//! The words that the records of a script begin with.

ghost use Rattle.std.specs.Prelude.{◌≡◌};
ghost use Rattle.ssb_script.specs.Lines as spec;
ghost use Rattle.ssb_script.specs.Lines.{spelling_of, word_spelled};

/// The first field of a record.
#[derive(Clone, Copy, Debug, PartialEq, Eq)]
pub(crate) enum ScriptWord {
    Query,
    Sql,
    Begin,
    Add,
    Amend,
    Put,
    Line,
    Withdraw,
    Commit,
    Ask,
    Answer,
    Order,
    Abort,
}

/// All words.
pub(crate) const WORDS: [ScriptWord; 13] = [
    ScriptWord::Query,
    ScriptWord::Sql,
    ScriptWord::Begin,
    ScriptWord::Add,
    ScriptWord::Amend,
    ScriptWord::Put,
    ScriptWord::Line,
    ScriptWord::Withdraw,
    ScriptWord::Commit,
    ScriptWord::Ask,
    ScriptWord::Answer,
    ScriptWord::Order,
    ScriptWord::Abort,
];

/// Whether a record of this word is a `line`.
pub(crate) fn is_line(word: Option<ScriptWord>) -> bool
    ensures { result ≡ spec.is_line word }
{
    matches!(word, Some(ScriptWord::Line))
}

/// Whether a record of this word is a `query`.
pub(crate) fn is_query(word: Option<ScriptWord>) -> bool
    ensures { result ≡ spec.is_query word }
{
    matches!(word, Some(ScriptWord::Query))
}

/// Whether a record of this word is a `sql`.
pub(crate) fn is_sql(word: Option<ScriptWord>) -> bool
    ensures { result ≡ spec.is_sql word }
{
    matches!(word, Some(ScriptWord::Sql))
}

/// Whether a record of this word is an `abort`.
pub(crate) fn is_abort(word: Option<ScriptWord>) -> bool
    ensures { result ≡ spec.is_abort word }
{
    matches!(word, Some(ScriptWord::Abort))
}

impl ScriptWord {
    /// How it is spelled.
    pub(crate) fn spelling(self) -> &'static [u8]
        ensures { result.now ≡ spelling_of self }
    {
        match self {
            ScriptWord::Query => b"query",
            ScriptWord::Sql => b"sql",
            ScriptWord::Begin => b"begin",
            ScriptWord::Add => b"add",
            ScriptWord::Amend => b"amend",
            ScriptWord::Put => b"put",
            ScriptWord::Line => b"line",
            ScriptWord::Withdraw => b"withdraw",
            ScriptWord::Commit => b"commit",
            ScriptWord::Ask => b"ask",
            ScriptWord::Answer => b"answer",
            ScriptWord::Order => b"order",
            ScriptWord::Abort => b"abort",
        }
    }

    /// The word that bytes spell, letter for letter.
    pub(crate) fn spelled(bytes: &[u8]) -> Option<ScriptWord>
        ensures { result ≡ word_spelled bytes.now }
    {
        WORDS.iter().copied().find(|word| word.spelling() == bytes)
    }
}
