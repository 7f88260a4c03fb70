//! The words that are the terminal's own.

ghost use Rattle.std.specs.Prelude.{◌≡◌};
ghost use Rattle.terminal.specs.Typed as spec;
ghost use Rattle.terminal.specs.Typed.{said_by, spelling_of, word_typed};

use crate::fields::{are_alike, said};

/// What a line at a terminal says that no session reads.
#[derive(Clone, Copy, Debug, PartialEq, Eq)]
pub enum TerminalWord {
    /// Help is shown.
    Help,
    /// Help with questions of one's own is shown.
    HelpStar,
    /// Help with refreshes is shown.
    HelpBegin,
    /// The tables and their columns are shown.
    Schema,
    /// From then on, or no more, it is shown how long a reply took.
    Timing,
    /// How the server does is shown.
    Status,
    /// The input ends.
    Quit,
}

/// A spelling of a word: its own, or one by which other programs have it.
#[derive(Clone, Copy, Debug, PartialEq, Eq)]
pub enum Spelling {
    Help,
    QuestionMark,
    PointHelp,
    StrokeMark,
    StrokeHelp,
    HelpStar,
    HelpBegin,
    Schema,
    PointSchema,
    PointTables,
    StrokeTables,
    StrokeTable,
    Timing,
    StrokeTiming,
    Status,
    Quit,
    StrokeQuit,
    PointQuit,
    Exit,
    PointExit,
}

/// All spellings.
pub(crate) const SPELLINGS: [Spelling; 20] = [
    Spelling::Help,
    Spelling::QuestionMark,
    Spelling::PointHelp,
    Spelling::StrokeMark,
    Spelling::StrokeHelp,
    Spelling::HelpStar,
    Spelling::HelpBegin,
    Spelling::Schema,
    Spelling::PointSchema,
    Spelling::PointTables,
    Spelling::StrokeTables,
    Spelling::StrokeTable,
    Spelling::Timing,
    Spelling::StrokeTiming,
    Spelling::Status,
    Spelling::Quit,
    Spelling::StrokeQuit,
    Spelling::PointQuit,
    Spelling::Exit,
    Spelling::PointExit,
];

impl Spelling {
    // Its letters.
    fn letters(self) -> &'static [u8]
        ensures { result.now ≡ spelling_of self }
    {
        match self {
            Spelling::Help => b"help",
            Spelling::QuestionMark => b"?",
            Spelling::PointHelp => b".help",
            Spelling::StrokeMark => b"\\?",
            Spelling::StrokeHelp => b"\\h",
            Spelling::HelpStar => b"help star",
            Spelling::HelpBegin => b"help begin",
            Spelling::Schema => b"schema",
            Spelling::PointSchema => b".schema",
            Spelling::PointTables => b".tables",
            Spelling::StrokeTables => b"\\dt",
            Spelling::StrokeTable => b"\\d",
            Spelling::Timing => b"timing",
            Spelling::StrokeTiming => b"\\timing",
            Spelling::Status => b"status",
            Spelling::Quit => b"quit",
            Spelling::StrokeQuit => b"\\q",
            Spelling::PointQuit => b".quit",
            Spelling::Exit => b"exit",
            Spelling::PointExit => b".exit",
        }
    }

    // The word that it spells.
    fn word(self) -> TerminalWord
        ensures { result ≡ said_by self }
    {
        match self {
            Spelling::Help => TerminalWord::Help,
            Spelling::QuestionMark => TerminalWord::Help,
            Spelling::PointHelp => TerminalWord::Help,
            Spelling::StrokeMark => TerminalWord::Help,
            Spelling::StrokeHelp => TerminalWord::Help,
            Spelling::HelpStar => TerminalWord::HelpStar,
            Spelling::HelpBegin => TerminalWord::HelpBegin,
            Spelling::Schema => TerminalWord::Schema,
            Spelling::PointSchema => TerminalWord::Schema,
            Spelling::PointTables => TerminalWord::Schema,
            Spelling::StrokeTables => TerminalWord::Schema,
            Spelling::StrokeTable => TerminalWord::Schema,
            Spelling::Timing => TerminalWord::Timing,
            Spelling::StrokeTiming => TerminalWord::Timing,
            Spelling::Status => TerminalWord::Status,
            Spelling::Quit => TerminalWord::Quit,
            Spelling::StrokeQuit => TerminalWord::Quit,
            Spelling::PointQuit => TerminalWord::Quit,
            Spelling::Exit => TerminalWord::Quit,
            Spelling::PointExit => TerminalWord::Quit,
        }
    }

    // The one of these spellings that a text is, in any case.
    #[tactic(auto, unfolding(crate::specs::Typed::spelling_among))]
    fn among(spellings: &[Spelling], text: &[u8]) -> Option<Spelling>
        ensures { result ≡ spec.spelling_among spellings.now text.now }
    {
        spellings
            .iter()
            .copied()
            .find(|spelling| are_alike(spelling.letters(), text))
    }
}

impl TerminalWord {
    /// The word that a line has alone, in any case, with or without blanks around it, and a `;` behind it.
    pub fn typed(line: &[u8]) -> Option<TerminalWord>
        ensures { result ≡ word_typed line.now }
    {
        let spelling = Spelling::among(&SPELLINGS, said(line))?;
        Some(spelling.word())
    }
}
