//! The records of a commit that are no `line`.
ghost use Rattle.std.specs.Prelude.{◌≡◌, false, option_map};
ghost use Rattle.csv.specs.Records.{fields_of};
ghost use Rattle.ssb_script.specs.Lines.{line_or_bad};
ghost use Rattle.ssb_script.specs.Steps.{line_of_control};
ghost use Rattle.ssb_trace.specs.Lines.{is_line, line_inside};

use crate::word::TraceWord;
use csv::ByteRecord;
use ssb_script::{Control, OrderOpening, key_of};

/// What a record of this word says in a commit, in a script's terms, if it says anything: `end` is a script's `commit`.
pub(crate) fn control_of(word: Option<TraceWord>, fields: &ByteRecord) -> Option<Control>
    requires { is_line word ≡ false }
    ensures { line_inside word (fields_of fields.now) ≡ line_or_bad (option_map line_of_control result) }
{
    match word {
        Some(TraceWord::Add) => Control::Open(OrderOpening::Add).alone(fields),
        Some(TraceWord::Amend) => Control::Open(OrderOpening::Amend).alone(fields),
        Some(TraceWord::Put) => Control::Open(OrderOpening::Put).alone(fields),
        Some(TraceWord::Withdraw) => key_of(fields).map(Control::Withdraw),
        Some(TraceWord::End) => Control::Commit.alone(fields),
        Some(TraceWord::Line) => None,
        Some(TraceWord::Commit) => None,
        Some(TraceWord::Answer) => None,
        Some(TraceWord::Row) => None,
        None => None,
    }
}
