//! What may stand in each place of a question's constants.
ghost use Rattle.std.specs.Prelude.{◌≡◌};
ghost use Rattle.ssb_questions.specs.Kind.{fits};

use crate::value::Value;
use ssb_schema::{Column, text_fault};

/// What a question has at one place of its constants.
#[derive(Clone, Copy, Debug, PartialEq, Eq)]
pub enum ConstantKind {
    /// A text that the column could hold: at most 64 bytes, without `|`, CR or LF, and not ending in a space.
    Text(Column),
    /// A number of 32 bits.
    Number,
}

impl ConstantKind {
    /// Whether the constant is of this kind.
    pub fn fits(self, constant: &Value) -> bool
        ensures { result ≡ fits self constant.now }
    {
        match (self, constant) {
            (ConstantKind::Text(column), Value::Text(text)) => {
                text_fault(column, text.as_str()).is_none()
            }
            (ConstantKind::Number, Value::Number(number)) => *number < 4_294_967_296,
            _ => false,
        }
    }
}
