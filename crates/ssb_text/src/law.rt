//! What holds of every text: each law is the contract of a function that does nothing.

ghost use Rattle.std.specs.Prelude.{ℕ, List};
ghost use Rattle.ssb_text.specs.Appended.{FirstOfAppended, FirstOfLonger, RecordsOfAppended};
ghost use Rattle.ssb_text.specs.LineRecords.{HasRecordsOfLines};
ghost use Rattle.ssb_text.specs.RoundTrip.{NothingIsRefused, TextsSpellOneBase, TextsSpellTheirBase};
ghost use Rattle.ssb_text.specs.TextLines.{HasItsLines, IsPlainText};

/// The records of a text in two parts, the second of which begins with a line feed, are those of the first and then
/// those of the second: so a text is read in blocks.
pub fn records_of_appended()
    ensures all { RecordsOfAppended }
    ensures first { FirstOfAppended }
    ensures longer { FirstOfLonger }
{}

/// A text has lines, and bytes behind its last LF, and no others.
pub fn has_its_lines()
    ensures { (text : List ℕ) → HasItsLines text }
{}

/// The records of a plain text are those of its lines, one after another, and then those of the bytes behind its last LF:
/// so many texts of whole lines are read as one.
pub fn records_of_lines()
    ensures { (text : List ℕ) → IsPlainText text → HasRecordsOfLines text }
{}

/// The texts of a base spell it, where their rows are such as the tables may have. Texts spell the rows of one base
/// only, and nothing of them is refused where they are sound: so a load of what was written gives those rows, unless a
/// reader fails or memory runs out.
pub fn tables_are_read_back()
    ensures spelled { TextsSpellTheirBase }
    ensures one { TextsSpellOneBase }
    ensures taken { NothingIsRefused }
{}
