//! The `line` records of a script.

ghost use Rattle.std.specs.Prelude.{◌≡◌, IfOk, Some};
ghost use Rattle.csv.specs.Records.{fields_of};
ghost use Rattle.ssb_script.specs.Lines.{line_after};
ghost use Rattle.ssb_script.specs.Steps.{line_of_row};
ghost use Rattle.ssb_script.specs.declared.word.ScriptWord.TheVariants as words;

use csv::ByteRecord;
use ssb_schema::{Line, SchemaFault};
use ssb_text::{LineFault, line_from};
use std::alloc::{AllocError, Global};

/// What a `line` record says: a line, one that the schema refuses, or nothing.
#[derive(Drop)]
pub enum OrderLine {
    /// A line of an order.
    Read(Line),
    /// The schema refuses the line.
    Refused(SchemaFault),
    /// Its fields spell no line.
    Bad,
}

impl OrderLine {
    /// What a `line` record says in the fields after its word.
    pub fn of(alloc: Global, fields: &ByteRecord) -> Result<OrderLine, AllocError>
        ensures { IfOk result (λ row. line_after (Some words.Line) (fields_of fields.now) ≡ line_of_row row) }
    {
        match line_from(alloc, fields, 1) {
            Ok(line) => Ok(OrderLine::Read(line)),
            Err(LineFault::Refused(why)) => Ok(OrderLine::Refused(why)),
            Err(LineFault::FieldCount) => Ok(OrderLine::Bad),
            Err(LineFault::NotUtf8(_)) => Ok(OrderLine::Bad),
            Err(LineFault::NotANumber(_)) => Ok(OrderLine::Bad),
            Err(LineFault::OutOfMemory) => Err(AllocError),
        }
    }
}
