//! Each question once.
ghost use Rattle.std.specs.Prelude.{◌≡◌, IfOk};
ghost use Rattle.standing_columns.specs.Standing.{each_once, is_among};

use ssb_answers::Question;
use std::alloc::{AllocError, Global};

// Whether an equal question is among these.
fn is_among(questions: &[Question], question: &Question) -> bool
    ensures { result ≡ is_among questions.now question.now }
{
    questions.iter().any(|other| *other == *question)
}

/// The questions without those that are equal to an earlier one.
pub fn each_once(alloc: Global, questions: &[Question]) -> Result<Vec<Question>, AllocError>
    ensures { IfOk result (λ kept. kept.items ≡ each_once questions.now) }
{
    let mut kept: Vec<Question> = Vec::new(alloc);
    for question in questions {
        if !is_among(&kept, question) {
            kept.push(question.share()?)?;
        }
    }
    Ok(kept)
}
