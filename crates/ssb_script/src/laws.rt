//! What holds of every script's text: each law is the contract of a function that does nothing.
ghost use Rattle.std.specs.Prelude.{ℕ, List};
ghost use Rattle.ssb_script.specs.CuttingLaws.{HasCutting, HasOneCutting, HasScriptOfRequests, IsCutAsItComes};
ghost use Rattle.ssb_script.specs.Laws.{HasNoFaultIfSpelled, HasOneReading, IsScriptOfQuestions};

/// A text spells at most one list of requests, whatever the bounds of records; of a statement that is said of its text, its
/// groups and its limit.
pub fn one_reading()
    ensures { (text : List ℕ) → HasOneReading text }
{}

/// A text that spells a script has no fault: `read_script` refuses it only where memory or its reader fails, or where it
/// asks a statement, for that statement's text.
pub fn spelled_has_no_fault()
    ensures { (text : List ℕ) → HasNoFaultIfSpelled text }
{}

/// What `read_questions` takes is a script, which asks each of the questions by itself.
pub fn questions_are_a_script()
    ensures { (text : List ℕ) → IsScriptOfQuestions text }
{}

/// A text can be cut into requests, and what is left behind them.
pub fn has_cutting()
    ensures { (text : List ℕ) → HasCutting text }
{}

/// A text is cut in one way only.
pub fn one_cutting()
    ensures { (text : List ℕ) → HasOneCutting text }
{}

/// Whatever follows a text, its requests come first, and then those of what was left with what follows.
pub fn cut_as_it_comes()
    ensures { (text : List ℕ) → IsCutAsItComes text }
{}

/// What a legal script asks is what its requests ask, at most one thing each, and then what is left, each read as a
/// script of its own: so serving the requests as they come serves the script.
pub fn script_of_requests()
    ensures { (most : ℕ) (text : List ℕ) → HasScriptOfRequests most text }
{}
