//! What the words of a question ask, as laws over the definitions in `specs/`.
//!
//! Each is the contract of a function that does nothing.
ghost use Rattle.ssb_explain.specs.Laws.{ClausesAskTheSame, WordsAskTheSame};

/// The clauses of each of the thirteen ask of `star` what the question asks: the same lines pass, the same is summed in
/// the same groups, and but for flight 3 the rows have the same order.
pub fn clauses_ask_the_same()
    ensures { ClausesAskTheSame }
{}

/// A question that is spelled anew has words that `star` takes, and they ask what the question asks.
pub fn words_ask_the_same()
    ensures { WordsAskTheSame }
{}
