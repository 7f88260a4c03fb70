//! The reply to one request of a client.
ghost use Rattle.std.specs.Prelude.{◌≡◌, ℕ, false, OnErr, IfOk};
ghost use Rattle.std.specs.Option.{is_some};
ghost use Rattle.history_core.specs.declared.event.Who.TheVariants.{Client as IsNumbered};
ghost use Rattle.history.specs.Tokens.{IsSound};
ghost use Rattle.ssb_formats.specs.Formats.{Shows};
ghost use Rattle.ssb_formats.specs.ReplyTexts.{reply_shown};
ghost use Rattle.ssb_report.specs.Replies.{reply_text};
ghost use Rattle.ssb_text.specs.Written.{Writes};
ghost use Rattle.ssb_script.specs.Requests.{Ask, request_of};
ghost use Rattle.ssb_script.specs.declared.request.Asking.TheVariants.{Statement as Stated};
ghost use Rattle.stream_sessions.specs.OneRequest.{AreAlike};
ghost use Rattle.stream_sessions.specs.Replies.{reply_of};
ghost use Rattle.stream_sessions.specs.Served.{IsAnswered, IsServed, IsShown};

use crate::service::Service;
use row_store::{Follower, Receipt, RefreshError};
use ssb_answers::{Answer, Unserved};
use ssb_clients::Client;
use ssb_formats::{
    FormatFault, ReplyFormat, write_aborted_as, write_answers_as, write_listing_as, write_order_as,
    write_reply_as,
};
use ssb_questions::Question;
use ssb_report::{
    ShownOrder, write_aborted, write_answers, write_listing, write_order, write_reply,
};
use ssb_schema::Items;
use ssb_script::{Asking, Request, StatementAsked};
use ssb_statements::{Listing, listed};
use ssb_text::WriteFault;
use std::alloc::{AllocError, Global};
use std::io::Write;
use std::sync::Wait;

/// What a request is answered.
#[derive(Drop)]
pub enum Reply {
    /// The receipt of a refresh, or why it was refused.
    Refreshed(Result<Receipt, RefreshError>),
    /// An answer to each question that was asked, in order.
    Answered(Vec<Answer>),
    /// An answer to each question of a statement, and what is listed of these, in a place of its own, since it is large.
    Listed(Vec<Answer>, Box<Listing>),
    /// The lines of an order.
    Shown(ShownOrder),
    /// What was begun is dropped.
    Aborted,
}

impl Reply {
    /// Writes the report of the reply.
    pub(crate) fn write<O: Write>(&self, writer: &mut O) -> Result<(), WriteFault>
        ensures { Writes (O.contents writer.old) (O.contents writer.new) result (reply_text (reply_of self.now)) }
    {
        match self {
            Reply::Refreshed(result) => write_reply(writer, result),
            Reply::Answered(answers) => write_answers(writer, answers.as_slice()),
            Reply::Listed(_, listing) => write_listing(writer, listing),
            Reply::Shown(order) => write_order(writer, order),
            Reply::Aborted => write_aborted(writer),
        }
    }

    /// Writes the reply as a session's format has it.
    pub(crate) fn write_as<O: Write>(
        &self,
        alloc: Global,
        writer: &mut O,
        format: ReplyFormat,
    ) -> Result<(), FormatFault>
        ensures { Shows (O.contents writer.old) (O.contents writer.new) result
            (reply_shown format (reply_of self.now)) }
    {
        match self {
            Reply::Refreshed(result) => write_reply_as(alloc, writer, format, result),
            Reply::Answered(answers) => {
                write_answers_as(alloc, writer, format, answers.as_slice())
            }
            Reply::Listed(_, listing) => write_listing_as(alloc, writer, format, listing),
            Reply::Shown(order) => write_order_as(alloc, writer, format, order),
            Reply::Aborted => write_aborted_as(alloc, writer, format),
        }
    }
}

// Asks questions in one request. All memory is taken before.
fn answers_to<W: Follower + Drop, R: Wait, K>(
    service: &Service<'_, W, R, K>,
    client: &mut Client<W>,
    questions: Items<Question>,
) -> Result<Vec<Answer>, AllocError>
    requires table { client.old.table ≡ service.now.server.now }
    requires quiet { is_some client.old.asked ≡ false }
    ensures answered { IfOk result (λ answers. IsAnswered client.old questions answers.items client.new) }
    ensures refused { OnErr result (client.new ≡ client.old) }
    ensures same { AreAlike client.old client.new }
{
    let mut answers = Vec::with_capacity(service.alloc, questions.len())?;
    client.ask(service.server, questions);
    client.soundness();
    let response = client.await_answer(service.rt, service.server);
    client.soundness();
    response.put_answers(&mut answers);
    Ok(answers)
}

// Asks the questions of a statement in one request, and lists its rows. Where memory runs out for these, that is listed.
fn rows_to<W: Follower + Drop, R: Wait, K>(
    service: &Service<'_, W, R, K>,
    client: &mut Client<W>,
    asked: Box<StatementAsked>,
) -> Result<Reply, AllocError>
    requires table { client.old.table ≡ service.now.server.now }
    requires quiet { is_some client.old.asked ≡ false }
    ensures served { (number : ℕ) → IfOk result (λ reply. IsServed number client.old (Ask (Stated asked))
        (reply_of reply) client.new) }
    ensures refused { OnErr result (client.new ≡ client.old) }
    ensures same { AreAlike client.old client.new }
{
    let questions = asked.shared_questions(service.alloc)?;
    let unserved = Listing::Unserved(Unserved::OutOfMemory);
    let Ok(mut listing) = Box::new(service.alloc, unserved) else {
        return Err(AllocError);
    };
    let answers = answers_to(service, client, questions)?;
    *listing = listed(service.alloc, &asked.statement, answers.as_slice());
    Ok(Reply::Listed(answers, listing))
}

// Shows the client the live lines of the order of this key, after all commits that it sees then. Where memory runs out
// for them, that is shown.
fn order_to<W: Follower + Drop, R: Wait, K>(
    service: &Service<'_, W, R, K>,
    client: &mut Client<W>,
    key: u64,
) -> ShownOrder
    requires table { client.old.table ≡ service.now.server.now }
    requires quiet { is_some client.old.asked ≡ false }
    ensures shown { IsShown client.old key result client.new }
    ensures sound { IsSound client.new }
    ensures same { AreAlike client.old client.new }
{
    let lines = client.order(service.rt, service.server, key);
    client.soundness();
    match lines {
        Ok(lines) => ShownOrder::Lines {
            key,
            at: client.seen(),
            lines,
        },
        Err(_) => ShownOrder::Unserved { key },
    }
}

// Asks what is asked in one request.
fn told_to<W: Follower + Drop, R: Wait, K>(
    service: &Service<'_, W, R, K>,
    client: &mut Client<W>,
    asking: Asking,
) -> Result<Reply, AllocError>
    requires table { client.old.table ≡ service.now.server.now }
    requires quiet { is_some client.old.asked ≡ false }
    ensures served { (number : ℕ) → IfOk result (λ reply. IsServed number client.old (Ask asking) (reply_of reply)
        client.new) }
    ensures refused { OnErr result (client.new ≡ client.old) }
    ensures same { AreAlike client.old client.new }
{
    match asking.into_statement() {
        Ok(asked) => rows_to(service, client, asked),
        Err(asking) => {
            let questions = asking.into_questions(service.alloc)?;
            Ok(Reply::Answered(answers_to(service, client, questions)?))
        }
    }
}

/// The reply to a request of a client: the server was asked for what it asks. It waits for the rows and for answers.
/// Where memory runs out, nothing was asked.
pub(crate) fn reply_to<W: Follower + Drop, R: Wait, K>(
    service: &Service<'_, W, R, K>,
    client: &mut Client<W>,
    number: u32,
    request: Request,
) -> Result<Reply, AllocError>
    requires table { client.old.table ≡ service.now.server.now }
    requires who { client.old.who ≡ IsNumbered number }
    requires quiet { is_some client.old.asked ≡ false }
    ensures served { IfOk result (λ reply. IsServed number client.old (request_of request) (reply_of reply)
        client.new) }
    ensures refused { OnErr result (client.new ≡ client.old) }
    ensures same { AreAlike client.old client.new }
{
    match request {
        Request::Refresh(refresh) => {
            let result = client.refresh(service.rt, service.server, refresh);
            client.soundness();
            Ok(Reply::Refreshed(result))
        }
        Request::Ask(asking) => told_to(service, client, asking),
        Request::Order(key) => Ok(Reply::Shown(order_to(service, client, key))),
        Request::Abort => Ok(Reply::Aborted),
    }
}
