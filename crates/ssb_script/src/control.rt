//! The records of a script that are no `line` and no `abort`.

ghost use Rattle.std.specs.Prelude.{◌≡◌, false, option_map, IfOk};
ghost use Rattle.csv.specs.Records.{fields_of};
ghost use Rattle.ssb_script.specs.Lines as spec;
ghost use Rattle.ssb_script.specs.Lines.{is_abort, is_line, line_after, line_or_bad};
ghost use Rattle.ssb_script.specs.Steps.{line_of_control};
ghost use Rattle.ssb_script.specs.Requests.{action_of};

use crate::question::question_at;
use crate::statement::sql_of;
use crate::word::ScriptWord;
use csv::ByteRecord;
use ssb_questions::Question;
use ssb_schema::{Action, Order, Text, number};
use ssb_text::{has_columns, trimmed_at};
use std::alloc::{AllocError, Global};

/// How an order begins: as one that is absent, one that is present, or either.
#[derive(Clone, Copy, Debug, PartialEq, Eq)]
pub enum OrderOpening {
    /// `add`: its key is absent.
    Add,
    /// `amend`: it takes the place of the order of its key.
    Amend,
    /// `put`: it takes the place of the order of its key, if there is one.
    Put,
}

/// What a record that is no `line` and no `abort` says.
#[derive(Drop)]
pub enum Control {
    /// `query`: it asks.
    Query(Question),
    /// `sql`: it asks the statement that this text spells.
    Sql(Text),
    /// `begin`: a refresh begins.
    Begin,
    /// `add`, `amend` or `put`: an order begins.
    Open(OrderOpening),
    /// `withdraw`: the order of this key is taken away.
    Withdraw(u64),
    /// `commit`: the refresh ends.
    Commit,
    /// `ask`: a block of questions begins.
    Ask,
    /// `answer`: the block ends.
    Answer,
    /// `order`: it asks for the lines of the order of this key.
    Order(u64),
}

impl OrderOpening {
    /// The action of an order that began so.
    pub(crate) fn action(self, order: Order) -> Action
        ensures { result ≡ action_of self order }
    {
        match self {
            OrderOpening::Add => Action::Add(order),
            OrderOpening::Amend => Action::Amend(order),
            OrderOpening::Put => Action::Put(order),
        }
    }
}

/// The key that a `withdraw` or an `order` record gives: the number in its second column, where it has two.
pub fn key_of(fields: &ByteRecord) -> Option<u64>
    ensures { result ≡ spec.key_of (fields_of fields.now) }
{
    if !has_columns(fields, 2) {
        return None;
    }
    number(trimmed_at(fields, 1))
}

impl Control {
    /// What a record says whose word says this: this, if the record has no more than its word.
    pub fn alone(self, fields: &ByteRecord) -> Option<Control>
        ensures { option_map line_of_control result ≡ spec.alone (line_of_control self) (fields_of fields.now) }
    {
        if has_columns(fields, 1) {
            Some(self)
        } else {
            None
        }
    }

    /// What a record of this word says, if it says anything.
    pub(crate) fn of(
        alloc: Global,
        word: Option<ScriptWord>,
        fields: &ByteRecord,
    ) -> Result<Option<Control>, AllocError>
        requires line { is_line word ≡ false }
        requires abort { is_abort word ≡ false }
        ensures { IfOk result (λ control. line_after word (fields_of fields.now) ≡ line_or_bad
            (option_map line_of_control control)) }
    {
        let Some(word) = word else {
            return Ok(None);
        };
        Ok(match word {
            ScriptWord::Query => question_at(alloc, 1, 2, fields)?.map(Control::Query),
            ScriptWord::Sql => sql_of(alloc, fields)?.map(Control::Sql),
            ScriptWord::Begin => Control::Begin.alone(fields),
            ScriptWord::Add => Control::Open(OrderOpening::Add).alone(fields),
            ScriptWord::Amend => Control::Open(OrderOpening::Amend).alone(fields),
            ScriptWord::Put => Control::Open(OrderOpening::Put).alone(fields),
            ScriptWord::Withdraw => key_of(fields).map(Control::Withdraw),
            ScriptWord::Commit => Control::Commit.alone(fields),
            ScriptWord::Ask => Control::Ask.alone(fields),
            ScriptWord::Answer => Control::Answer.alone(fields),
            ScriptWord::Order => key_of(fields).map(Control::Order),
            ScriptWord::Line => None,
            ScriptWord::Abort => None,
        })
    }
}
