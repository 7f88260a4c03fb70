//! The questions of a request.
ghost use Rattle.std.specs.Prelude.{◌≡◌, IfOk};

use ssb_answers::Question;
use ssb_schema::Items;
use std::alloc::{AllocError, Global};

/// The same questions, which share their constants.
pub fn share(alloc: Global, questions: &Items<Question>) -> Result<Items<Question>, AllocError>
    ensures { IfOk result (λ same. same ≡ questions.now) }
{
    let list = questions.as_slice();
    let mut same = Vec::new(alloc);
    for question in list {
        same.push(question.share()?)?;
    }
    Ok(Items::from_vec(same))
}
