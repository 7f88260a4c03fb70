//! What holds of every trace's text: the law is the contract of a function that does nothing.
ghost use Rattle.std.specs.Prelude.{ℕ, List};
ghost use Rattle.ssb_trace.specs.Laws.{HasOneReading};

/// A text spells at most one trace, whatever the bounds of records.
pub fn one_reading()
    ensures { (text : List ℕ) → HasOneReading text }
{}
