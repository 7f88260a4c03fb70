//! What a script asks, request by request.
ghost use Rattle.std.specs.Prelude.{◌≡◌, IfErr, IfOk, None};
ghost use Rattle.ssb_script.specs.Requests.{questions_in, statement_in};
ghost use Rattle.ssb_script.specs.declared.request.Asking.TheVariants.{Statement as Stated};

use crate::statement::StatementAsked;
use ssb_questions::Question;
use ssb_schema::{Items, Refresh};
use std::alloc::{AllocError, Global};
use std::sync::Arc;

/// The most questions of a block.
pub const MOST_QUESTIONS: usize = 16;

/// How questions are asked, which are answered together: one by a line of its own, several in a block, or those of a
/// statement.
pub enum Asking {
    /// `query|NAME`: a question alone.
    Alone(Question),
    /// `ask` .. `answer`: 1 to 16 questions.
    Together(Items<Question>),
    /// `sql|TEXT`: a statement, in a place of its own, since it is large.
    Statement(Box<StatementAsked>),
}

impl Drop for Asking {
    fn drop(self) {
        match self {
            Asking::Alone(_) => {}
            Asking::Together(_) => {}
            Asking::Statement(_) => {}
        }
    }
}

impl Asking {
    /// The statement, where one is asked; else this is given back.
    pub fn into_statement(self) -> Result<Box<StatementAsked>, Asking>
        ensures statement { IfOk result (λ asked. self ≡ Stated asked) }
        ensures other { IfErr result (λ other. (other ≡ self) × (statement_in self ≡ None)) }
    {
        match self {
            Asking::Statement(asked) => Ok(asked),
            other => Err(other),
        }
    }

    /// The questions, in order.
    pub fn into_questions(self, alloc: Global) -> Result<Items<Question>, AllocError>
        ensures { IfOk result (λ questions. questions ≡ questions_in self) }
    {
        match self {
            Asking::Alone(question) => {
                let mut questions = Vec::new(alloc);
                questions.push(question)?;
                Ok(Items::from_vec(questions))
            }
            Asking::Together(questions) => Ok(questions),
            Asking::Statement(asked) => asked.shared_questions(alloc),
        }
    }
}

/// What a client asks of the warehouse: a refresh, whose actions take effect together or not at all, or questions, or
/// the lines of an order; or that what it began be dropped.
#[derive(Drop)]
pub enum Request {
    /// `begin` .. `commit`: a refresh, for the log and the server to share.
    Refresh(Arc<Refresh>),
    /// Questions that are answered together.
    Ask(Asking),
    /// `order|KEY`: the lines of the order of this key.
    Order(u64),
    /// `begin` .. `abort` or `ask` .. `abort`: what was begun is dropped.
    Abort,
}

/// The requests of a script, in order.
#[derive(Drop)]
pub struct Script {
    /// The requests, each to be served before the next.
    pub requests: Vec<Request>,
}
