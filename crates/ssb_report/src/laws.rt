//! What the subject says of a report, as laws over its definition. A function here does nothing: its
//! contract is the law.
ghost use Rattle.ssb_report.specs.Laws.{TrueRepliesAnswer, OthersGiveUp};

/// The replies of the one-thread warehouse answer every script, whatever causes of an unanswered question
/// may stand; and where no reply gives up, no others do. So the report is then one function of the
/// warehouse and the script.
pub fn one_report()
    ensures answers { TrueRepliesAnswer }
    ensures alone { OthersGiveUp }
{}
