//! Values of columns: the constants of questions, and the groups of answers.
use ssb_schema::Text;
use std::alloc::AllocError;
use std::cmp::Ordering;

/// A value of a group column, or a constant of a question.
///
/// Texts are ordered by their UTF-8 bytes and numbers by size. Every text stands before every
/// number, which no column mixes.
#[derive(Debug)]
pub enum Value {
    /// A text.
    Text(Text),
    /// A number.
    Number(u64),
}

impl Drop for Value {
    fn drop(self) {
        match self {
            Value::Text(_) => {}
            Value::Number(_) => {}
        }
    }
}

impl Clone for Value {
    ghost use Rattle.std.specs.Prelude.{◌≡◌};

    ghost is_clone = { λ value copy. copy ≡ value };

    fn clone(&self) -> Result<Value, AllocError> {
        match self {
            Value::Text(text) => Ok(Value::Text(text.clone()?)),
            Value::Number(number) => Ok(Value::Number(*number)),
        }
    }
}

impl PartialEq for Value {
    ghost use Rattle.ssb_questions.specs.Value.{value_cmp};
    ghost use Rattle.ssb_questions.specs.ValueLaws.{value_cmp_total};
    ghost use Rattle.std.specs.Ordering.{eq_by_cmp};
    ghost use Rattle.std.specs.Cmp.{partial_equiv_from_equiv, eq_by_cmp_equiv};

    ghost eq = { eq_by_cmp value_cmp };

    ghost laws = { partial_equiv_from_equiv (eq_by_cmp_equiv value_cmp_total) };

    fn eq(&self, other: &Value) -> bool {
        self.cmp(other).is_eq()
    }
}

impl Eq for Value {
    ghost use Rattle.ssb_questions.specs.ValueLaws.{value_cmp_total};
    ghost use Rattle.std.specs.Cmp.{eq_by_cmp_equiv};

    ghost laws = { eq_by_cmp_equiv value_cmp_total };
}

impl PartialOrd for Value {
    ghost use Rattle.ssb_questions.specs.Value.{value_cmp};
    ghost use Rattle.ssb_questions.specs.ValueLaws.{value_cmp_total};
    ghost use Rattle.std.specs.Ordering.{as_partial_cmp};
    ghost use Rattle.std.specs.Cmp.{partial_order_from_total};

    ghost partial_cmp = { as_partial_cmp value_cmp };

    ghost laws = { partial_order_from_total value_cmp_total };

    fn partial_cmp(&self, other: &Value) -> Option<Ordering> {
        Some(self.cmp(other))
    }
}

impl Ord for Value {
    ghost use Rattle.ssb_questions.specs.Value.{value_cmp};
    ghost use Rattle.ssb_questions.specs.ValueLaws.{value_cmp_total};
    ghost use Rattle.std.specs.Prelude.{refl};

    ghost cmp = { value_cmp };

    ghost total = { value_cmp_total };

    ghost matches_partial_cmp = { λ x y. refl };

    ghost matches_eq = { λ x y. refl };

    fn cmp(&self, other: &Value) -> Ordering {
        match (self, other) {
            (Value::Text(a), Value::Text(b)) => a.cmp(b),
            (Value::Text(_), Value::Number(_)) => Ordering::Less,
            (Value::Number(_), Value::Text(_)) => Ordering::Greater,
            (Value::Number(m), Value::Number(n)) => m.cmp(n),
        }
    }
}
