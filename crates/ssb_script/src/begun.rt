//! What the records of a script have begun and not ended, and what one more record does to it.

ghost use Rattle.std.specs.Prelude.{◌≡◌, ◌+◌, ◌-◌, ◌<◌, ◌^◌, ◌++◌, ◌∷◌, [], IfOk, IfErr, None, Ok, length, nat_lt};
ghost use Rattle.std.specs.Prelude.{Some, option_map};
ghost use Rattle.csv.specs.Records.{fields_of};
ghost use Rattle.ssb_schema.specs.Orders.{order_fault};
ghost use Rattle.ssb_schema.specs.Refreshes.{most_actions};
ghost use Rattle.ssb_script.specs.Lines as spec;
ghost use Rattle.ssb_script.specs.Lines.{ScriptLine};
ghost use Rattle.ssb_script.specs.Requests.{action_of};
ghost use Rattle.ssb_script.specs.Scripts.{HasRoom, checks_in, order_refused, refusal_at_end};
ghost use Rattle.ssb_script.specs.Steps.{Follows, IsFoundBy, IsFoundIn, ended_of, begun_in, begun_order};
ghost use Rattle.ssb_script.specs.Steps.{line_of_control};
ghost use Rattle.ssb_script.specs.Steps.{line_of_row};
ghost use Rattle.ssb_script.specs.Begun as begun;

use crate::control::{Control, OrderOpening};
use crate::error::ScriptError;
use crate::fields::word_of;
use crate::order_line::OrderLine;
use crate::request::{Asking, MOST_QUESTIONS, Request};
use crate::statement::StatementAsked;
use crate::word::{is_abort, is_line};
use csv::ByteRecord;
use ssb_questions::Question;
use ssb_schema::{
    Action, Items, Line, MOST_ACTIONS, MOST_ORDER_LINES, Order, Refresh, SchemaFault, Text,
};
use ssb_text::has_columns;
use std::alloc::{AllocError, Global};
use std::sync::Arc;

/// An order whose lines are being read.
#[derive(Drop)]
pub struct BegunOrder {
    /// The actions before it in its refresh.
    pub actions: Items<Action>,
    /// Whether it is added or amended.
    pub opening: OrderOpening,
    /// The number of the record that began it.
    pub number: u64,
    /// Its lines so far.
    pub lines: Items<Line>,
}

/// What is begun and not ended: nothing, a refresh, an order in a refresh, or a block of questions.
#[derive(Drop)]
pub enum Begun {
    /// No refresh is begun.
    Nothing,
    /// A refresh, with its actions so far, none of which is being read.
    Refresh(Items<Action>),
    /// A refresh, and in it an order whose lines are being read.
    Order(BegunOrder),
    /// A block, with its questions so far.
    Asked(Items<Question>),
}

/// What is begun once the order that was being read has ended.
#[derive(Drop)]
pub(crate) enum Ended {
    /// Nothing.
    Nothing,
    /// A refresh, with its actions so far.
    Refresh(Items<Action>),
    /// A block, with its questions so far.
    Asked(Items<Question>),
}

/// What comes of one record: the request that it ends, if it ends one, and what is begun after it.
#[derive(Drop)]
pub struct ScriptStep {
    /// The request that the record ended, if it ended one.
    pub request: Option<Request>,
    /// What is begun after the record.
    pub begun: Begun,
}

// The items with one more.
fn pushed<T: Drop>(items: Items<T>, item: T) -> Result<Items<T>, AllocError>
    ensures { IfOk result (λ more. more ≡ items ++ item ∷ []) }
{
    let mut items = items.into_vec();
    items.push(item)?;
    Ok(Items::from_vec(items))
}

// Whether a refresh of these actions takes one more.
fn has_room(actions: &Items<Action>) -> bool
    ensures { result ≡ nat_lt (length actions.now) most_actions }
{
    actions.len() < MOST_ACTIONS
}

// The record of a number asks the statement that a text spells.
fn ask_statement(alloc: Global, number: u64, text: Text) -> Result<ScriptStep, ScriptError>
    ensures step { IfOk result (λ step. Follows number begun.Nothing (spec.Sql text) step) }
    ensures fault { IfErr result (IsFoundIn number (Ok (spec.Sql text))
        (checks_in number begun.Nothing (Ok (spec.Sql text)))) }
{
    let asked = StatementAsked::of(alloc, number, text)?;
    Ok(ScriptStep {
        request: Some(Request::Ask(Asking::Statement(Box::new(alloc, asked)?))),
        begun: Begun::Nothing,
    })
}

// What comes of the record of a number where no refresh is begun.
fn outside(alloc: Global, number: u64, control: Control) -> Result<ScriptStep, ScriptError>
    ensures step { IfOk result (λ step. Follows number begun.Nothing (line_of_control control) step) }
    ensures fault { IfErr result (IsFoundIn number (Ok (line_of_control control))
        (checks_in number begun.Nothing (Ok (line_of_control control)))) }
{
    match control {
        Control::Query(question) => Ok(ScriptStep {
            request: Some(Request::Ask(Asking::Alone(question))),
            begun: Begun::Nothing,
        }),
        Control::Sql(text) => ask_statement(alloc, number, text),
        Control::Order(key) => Ok(ScriptStep {
            request: Some(Request::Order(key)),
            begun: Begun::Nothing,
        }),
        Control::Begin => Ok(ScriptStep {
            request: None,
            begun: Begun::Refresh(Items::from_vec(Vec::new(alloc))),
        }),
        Control::Ask => Ok(ScriptStep {
            request: None,
            begun: Begun::Asked(Items::from_vec(Vec::new(alloc))),
        }),
        Control::Open(_) => Err(ScriptError::BadLine(number)),
        Control::Withdraw(_) => Err(ScriptError::BadLine(number)),
        Control::Commit => Err(ScriptError::BadLine(number)),
        Control::Answer => Err(ScriptError::BadLine(number)),
    }
}

// The record of a number begins an order.
fn begin_order(
    alloc: Global,
    number: u64,
    actions: Items<Action>,
    opening: OrderOpening,
) -> Result<ScriptStep, ScriptError>
    requires { HasRoom number (begun.Refresh actions) }
    ensures step { IfOk result (λ step. Follows number (begun.Refresh actions) (spec.Open opening) step) }
    ensures fault { IfErr result (IsFoundBy (checks_in number (begun.Refresh actions) (Ok (spec.Open opening)))) }
{
    if !has_room(&actions) {
        return Err(ScriptError::Row(number, SchemaFault::TooManyActions));
    }
    let lines = Items::from_vec(Vec::new(alloc));
    Ok(ScriptStep {
        request: None,
        begun: Begun::Order(BegunOrder {
            actions,
            opening,
            number,
            lines,
        }),
    })
}

// The record of a number withdraws an order.
fn withdraw(number: u64, actions: Items<Action>, key: u64) -> Result<ScriptStep, ScriptError>
    requires { HasRoom number (begun.Refresh actions) }
    ensures step { IfOk result (λ step. Follows number (begun.Refresh actions) (spec.Withdraw key) step) }
    ensures fault { IfErr result (IsFoundBy (checks_in number (begun.Refresh actions) (Ok (spec.Withdraw key)))) }
{
    if !has_room(&actions) {
        return Err(ScriptError::Row(number, SchemaFault::TooManyActions));
    }
    Ok(ScriptStep {
        request: None,
        begun: Begun::Refresh(pushed(actions, Action::Withdraw(key))?),
    })
}

// The record of a number ends a refresh.
fn commit(alloc: Global, number: u64, actions: Items<Action>) -> Result<ScriptStep, ScriptError>
    requires { HasRoom number (begun.Refresh actions) }
    ensures step { IfOk result (λ step. Follows number (begun.Refresh actions) spec.Commit step) }
    ensures fault { IfErr result (IsFoundBy (checks_in number (begun.Refresh actions) (Ok spec.Commit))) }
{
    match Refresh::new(actions.into_vec()) {
        Ok(refresh) => Ok(ScriptStep {
            request: Some(Request::Refresh(Arc::new(alloc, refresh)?)),
            begun: Begun::Nothing,
        }),
        Err(_) => Err(ScriptError::EmptyBlock(number)),
    }
}

// What comes of the record of a number in a refresh where no order is being read.
fn inside(
    alloc: Global,
    number: u64,
    actions: Items<Action>,
    control: Control,
) -> Result<ScriptStep, ScriptError>
    requires { HasRoom number (begun.Refresh actions) }
    ensures step { IfOk result (λ step. Follows number (begun.Refresh actions) (line_of_control control) step) }
    ensures fault { IfErr result (IsFoundBy (checks_in number (begun.Refresh actions) (Ok (line_of_control control)))) }
{
    match control {
        Control::Open(opening) => begin_order(alloc, number, actions, opening),
        Control::Withdraw(key) => withdraw(number, actions, key),
        Control::Commit => commit(alloc, number, actions),
        Control::Query(_) => Err(ScriptError::BadLine(number)),
        Control::Sql(_) => Err(ScriptError::BadLine(number)),
        Control::Order(_) => Err(ScriptError::BadLine(number)),
        Control::Begin => Err(ScriptError::BadLine(number)),
        Control::Ask => Err(ScriptError::BadLine(number)),
        Control::Answer => Err(ScriptError::BadLine(number)),
    }
}

// The record of a number asks one question more in a block.
fn ask_more(
    number: u64,
    questions: Items<Question>,
    question: Question,
) -> Result<ScriptStep, ScriptError>
    requires { HasRoom number (begun.Asked questions) }
    ensures step { IfOk result (λ step. Follows number (begun.Asked questions) (spec.Query question) step) }
    ensures fault { IfErr result (IsFoundBy (checks_in number (begun.Asked questions) (Ok (spec.Query question)))) }
{
    if questions.len() >= MOST_QUESTIONS {
        return Err(ScriptError::TooManyQuestions(number));
    }
    Ok(ScriptStep {
        request: None,
        begun: Begun::Asked(pushed(questions, question)?),
    })
}

// The record of a number ends a block.
fn end_block(number: u64, questions: Items<Question>) -> Result<ScriptStep, ScriptError>
    requires { HasRoom number (begun.Asked questions) }
    ensures step { IfOk result (λ step. Follows number (begun.Asked questions) spec.Answer step) }
    ensures fault { IfErr result (IsFoundBy (checks_in number (begun.Asked questions) (Ok spec.Answer))) }
{
    if questions.len() == 0 {
        return Err(ScriptError::EmptyBlock(number));
    }
    Ok(ScriptStep {
        request: Some(Request::Ask(Asking::Together(questions))),
        begun: Begun::Nothing,
    })
}

// What comes of the record of a number in a block.
fn in_block(
    number: u64,
    questions: Items<Question>,
    control: Control,
) -> Result<ScriptStep, ScriptError>
    requires { HasRoom number (begun.Asked questions) }
    ensures step { IfOk result (λ step. Follows number (begun.Asked questions) (line_of_control control) step) }
    ensures fault { IfErr result (IsFoundBy (checks_in number (begun.Asked questions) (Ok (line_of_control control)))) }
{
    match control {
        Control::Query(question) => ask_more(number, questions, question),
        Control::Answer => end_block(number, questions),
        Control::Sql(_) => Err(ScriptError::BadLine(number)),
        Control::Order(_) => Err(ScriptError::BadLine(number)),
        Control::Begin => Err(ScriptError::BadLine(number)),
        Control::Open(_) => Err(ScriptError::BadLine(number)),
        Control::Withdraw(_) => Err(ScriptError::BadLine(number)),
        Control::Commit => Err(ScriptError::BadLine(number)),
        Control::Ask => Err(ScriptError::BadLine(number)),
    }
}

impl BegunOrder {
    // The actions of its refresh once it has ended.
    fn ended(self) -> Result<Items<Action>, ScriptError>
        ensures fault { IfErr result (IsFoundBy (refusal_at_end (begun.Order (begun_order self)) ∷ [])) }
        ensures whole { IfOk result (λ actions. order_fault self.lines ≡ None) }
        ensures actions { IfOk result (λ actions. actions ≡ self.actions ++ action_of self.opening self.lines ∷ []) }
    {
        match Order::new(self.lines.into_vec()) {
            Ok(order) => Ok(pushed(self.actions, self.opening.action(order))?),
            Err(refused) => Err(ScriptError::Row(self.number, refused.fault)),
        }
    }

    // One more line, that of the record of this number.
    fn with_line(self, number: u64, line: Line) -> Result<ScriptStep, ScriptError>
        requires before { 0 < number }
        requires room { HasRoom (number - 1) (begun.Order (begun_order self)) }
        ensures step { IfOk result (λ step. Follows number (begun.Order (begun_order self)) (spec.Line line) step) }
        ensures fault { IfErr result (IsFoundBy (checks_in number (begun.Order (begun_order self))
            (Ok (spec.Line line)))) }
    {
        if self.lines.len() == MOST_ORDER_LINES {
            return Err(ScriptError::Row(self.number, SchemaFault::TooManyLines));
        }
        let lines = pushed(self.lines, line)?;
        Ok(ScriptStep {
            request: None,
            begun: Begun::Order(BegunOrder {
                actions: self.actions,
                opening: self.opening,
                number: self.number,
                lines,
            }),
        })
    }
}

impl Begun {
    // What is begun once the order that is being read has ended.
    fn ended(self) -> Result<Ended, ScriptError>
        ensures fault { IfErr result (IsFoundBy (refusal_at_end (begun_in self) ∷ [])) }
        ensures whole { IfOk result (λ ended. refusal_at_end (begun_in self) ≡ None) }
        ensures ended { IfOk result (λ ended. ended ≡ ended_of (begun_in self)) }
    {
        match self {
            Begun::Nothing => Ok(Ended::Nothing),
            Begun::Refresh(actions) => Ok(Ended::Refresh(actions)),
            Begun::Order(order) => Ok(Ended::Refresh(order.ended()?)),
            Begun::Asked(questions) => Ok(Ended::Asked(questions)),
        }
    }

    /// What comes of one more record, a `line` of this number.
    pub fn with_row(self, number: u64, row: OrderLine) -> Result<ScriptStep, ScriptError>
        requires before { 0 < number }
        requires room { HasRoom (number - 1) (begun_in self) }
        ensures step { IfOk result (λ step. (line : ScriptLine) × (line_of_row row ≡ Ok line)
            × Follows number (begun_in self) line step) }
        ensures fault { IfErr result (IsFoundBy (checks_in number (begun_in self) (line_of_row row))) }
    {
        let Begun::Order(order) = self else {
            return Err(ScriptError::BadLine(number));
        };
        match row {
            OrderLine::Read(line) => order.with_line(number, line),
            OrderLine::Refused(why) => Err(ScriptError::Row(number, why)),
            OrderLine::Bad => Err(ScriptError::BadLine(number)),
        }
    }

    /// What comes of one more record that is no `line` and no `abort`, after so many: of what it says, if it says
    /// anything. The order that is being read ends before it.
    pub fn with_control(
        self,
        alloc: Global,
        before: u64,
        control: Option<Control>,
    ) -> Result<ScriptStep, ScriptError>
        requires counted { before < 2 ^ 64 - 1 }
        requires room { HasRoom before (begun_in self) }
        ensures step { IfOk result (λ step. (line : ScriptLine)
            × (spec.line_or_bad (option_map line_of_control control) ≡ Ok line)
            × Follows (before + 1) (begun_in self) line step) }
        ensures fault { IfErr result (IsFoundIn (before + 1) (spec.line_or_bad (option_map line_of_control control))
            (refusal_at_end (begun_in self) ∷ checks_in (before + 1) (begun_in self)
            (spec.line_or_bad (option_map line_of_control control)))) }
    {
        let number = before + 1;
        let ended = self.ended()?;
        match (control, ended) {
            (None, _) => Err(ScriptError::BadLine(number)),
            (Some(control), Ended::Nothing) => outside(alloc, number, control),
            (Some(control), Ended::Refresh(actions)) => inside(alloc, number, actions, control),
            (Some(control), Ended::Asked(questions)) => in_block(number, questions, control),
        }
    }

    // What comes of one more record, an `abort` of this number: what is begun is dropped, be it whole or not.
    fn with_abort(self, number: u64, fields: &ByteRecord) -> Result<ScriptStep, ScriptError>
        requires room { HasRoom (number - 1) (begun_in self) }
        ensures step { IfOk result (λ step. (spec.alone spec.Abort (fields_of fields.now) ≡ Some spec.Abort)
            × Follows number (begun_in self) spec.Abort step) }
        ensures fault { IfErr result (IsFoundBy (checks_in number (begun_in self)
            (spec.line_or_bad (spec.alone spec.Abort (fields_of fields.now))))) }
    {
        if !has_columns(fields, 1) || matches!(self, Begun::Nothing) {
            return Err(ScriptError::BadLine(number));
        }
        Ok(ScriptStep {
            request: Some(Request::Abort),
            begun: Begun::Nothing,
        })
    }

    /// What comes of one more record, after so many.
    pub(crate) fn after(
        self,
        alloc: Global,
        before: u64,
        fields: &ByteRecord,
    ) -> Result<ScriptStep, ScriptError>
        requires counted { before < 2 ^ 64 - 1 }
        requires room { HasRoom before (begun_in self) }
        ensures step { IfOk result (λ step. (line : ScriptLine) × (spec.line_of (fields_of fields.now) ≡ Ok line)
            × Follows (before + 1) (begun_in self) line step) }
        ensures fault { IfErr result (IsFoundIn (before + 1) (spec.line_of (fields_of fields.now))
            (order_refused (begun_in self) (spec.word_of (fields_of fields.now)) ∷
            checks_in (before + 1) (begun_in self) (spec.line_of (fields_of fields.now)))) }
    {
        let word = word_of(fields);
        if is_line(word) {
            let number = before + 1;
            return self.with_row(number, OrderLine::of(alloc, fields)?);
        }
        if is_abort(word) {
            return self.with_abort(before + 1, fields);
        }
        let control = Control::of(alloc, word, fields)?;
        self.with_control(alloc, before, control)
    }
}
