//! What holds of every trace: each law is the contract of a function that does nothing.
ghost use Rattle.ssb_trace.specs.RoundTrip.{TextSpellsItsTrace, TextSpellsNoOther};
ghost use Rattle.ssb_trace.specs.RoundTrip.{AnswersHaveAllowedRows, LegalTracesAreAllowed};

/// The text of a trace that is allowed spells that trace, where so many records may be read as it has lines, and no
/// other trace, whatever the bound: so what `ssb_trace` writes of it, `ssb_trace` reads as that trace.
pub fn text_is_read_back()
    ensures spells { TextSpellsItsTrace }
    ensures no_other { TextSpellsNoOther }
{}

/// A legal trace over a base is allowed, where its commits, the heads of its answers and their sums are: the rows of an
/// answer over dimensions that the schema takes hold in their group columns what is read back.
pub fn legal_traces_are_allowed()
    ensures rows { AnswersHaveAllowedRows }
    ensures traces { LegalTracesAreAllowed }
{}
